// The widest empty strip between coordinates, and the side of it that has fewer.

ghost use Rattle.std.specs.Prelude.{◌≡◌};
ghost use Rattle.split_doubts.specs.Gaps.{below, between, extent, far_side, gap, is_wide, smaller_side, wide_strip, wider, widest, widest_with, with_next};

use crate::axis::units_per_metre;
use range_plane::Scale;

// Fixes are far behind a strip that is wider than so many metres.
const LEAST_GAP: u64 = 1000;

// A strip between two coordinates in which no other lies.
#[derive(Clone, Copy)]
pub(crate) struct Strip {
    pub low: i64,
    pub high: i64,
}

// A side of a strip: the lower one, up to the low coordinate, or the upper one, from the high one on.
#[derive(Clone, Copy)]
pub(crate) struct Side {
    pub strip: Strip,
    pub is_lower: bool,
}

// The last of some ascending coordinates, and the widest strip between them.
#[derive(Clone, Copy)]
struct Walk {
    last: Option<i64>,
    widest: Option<Strip>,
}

// How wide a strip is.
pub(crate) fn gap(strip: Strip) -> u64
    ensures { result ≡ gap strip }
{
    strip.high.abs_diff(strip.low)
}

// The wider of two strips, of equal ones the first.
fn wider(widest: Option<Strip>, strip: Strip) -> Option<Strip>
    ensures { result ≡ wider widest strip }
{
    match widest {
        Some(own) if gap(own) >= gap(strip) => Some(own),
        _ => Some(strip),
    }
}

// The widest strip with that from the last coordinate to the next.
fn widest_with(widest: Option<Strip>, last: Option<i64>, coordinate: i64) -> Option<Strip>
    ensures { result ≡ widest_with widest last coordinate }
{
    match last {
        Some(low) => wider(
            widest,
            Strip {
                low,
                high: coordinate,
            },
        ),
        None => widest,
    }
}

// One coordinate more.
fn with_next(walk: Walk, coordinate: i64) -> Walk
    ensures { result ≡ with_next walk coordinate }
{
    Walk {
        last: Some(coordinate),
        widest: widest_with(walk.widest, walk.last, coordinate),
    }
}

// The widest strip between neighbours of ascending coordinates.
fn widest(sorted: &[i64]) -> Option<Strip>
    ensures { result ≡ widest sorted.now }
{
    let mut walk = Walk {
        last: None,
        widest: None,
    };
    for coordinate in sorted {
        walk = with_next(walk, *coordinate);
    }
    walk.widest
}

// How far it is from the least of ascending coordinates to the greatest.
fn extent(sorted: &[i64]) -> u64
    ensures { result ≡ extent sorted.now }
{
    match (sorted.first(), sorted.last()) {
        (Some(least), Some(most)) => most.abs_diff(*least),
        _ => 0,
    }
}

// Whether a strip is wider than half of the extent, and than a kilometre.
fn is_wide(unit: Scale, extent: u64, strip: Strip) -> bool
    ensures { result ≡ is_wide unit extent strip }
{
    let gap = gap(strip);
    u128::from(extent) < 2 * u128::from(gap) && LEAST_GAP * units_per_metre(unit) < gap
}

// The strip that is so wide, if one is. There is no other one then.
fn wide_strip(unit: Scale, sorted: &[i64]) -> Option<Strip>
    ensures { result ≡ wide_strip unit sorted.now }
{
    match widest(sorted) {
        Some(strip) if is_wide(unit, extent(sorted), strip) => Some(strip),
        _ => None,
    }
}

// How many coordinates lie below a strip.
fn below(sorted: &[i64], strip: Strip) -> usize
    ensures { result ≡ below sorted.now strip }
{
    sorted
        .iter()
        .filter(|coordinate| **coordinate <= strip.low)
        .count()
}

// The smaller side of a strip, of equal ones the lower.
fn smaller_side(sorted: &[i64], strip: Strip) -> Side
    ensures { result ≡ smaller_side sorted.now strip }
{
    Side {
        strip,
        is_lower: below(sorted, strip) <= sorted.len() / 2,
    }
}

// The side of ascending coordinates that is far from the other.
pub(crate) fn far_side(unit: Scale, sorted: &[i64]) -> Option<Side>
    ensures { result ≡ far_side unit sorted.now }
{
    match wide_strip(unit, sorted) {
        Some(strip) => Some(smaller_side(sorted, strip)),
        None => None,
    }
}
