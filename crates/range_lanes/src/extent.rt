// The box of many points.

ghost use Rattle.std.specs.Prelude.{◌≡◌, ◌<◌, ◌↔◌, All, IsNone, IfSome, [], length, fold};
ghost use Rattle.std.specs.Int.{int_min, int_max};
ghost use Rattle.range_plane.specs.Plane.{IsCoordinate};
ghost use Rattle.range_lanes.specs.Extent.{IsExtent, IsGreatest, IsLeastCoordinate};

use crate::lanes::{LANE_COUNT, Lanes};
use range_plane::Columns;
use std::alloc::Allocator;

/// The box of some points: the least and the greatest of their eastings and of their northings.
#[derive(Clone, Copy, PartialEq, Eq, Debug)]
pub struct Extent {
    pub min_e: i64,
    pub min_n: i64,
    pub max_e: i64,
    pub max_n: i64,
}

/// The box of the points; `None` where there is no point. It goes twice over each column.
pub fn extremes<A: Allocator>(cols: &Columns<A>) -> Option<Extent>
    ensures none { IsNone result ↔ (cols.now.points ≡ []) }
    ensures extent { IfSome result (IsExtent cols.now.points) }
{
    if cols.is_empty() {
        return None;
    }
    let (eastings, northings) = (cols.eastings(), cols.northings());
    Some(Extent {
        min_e: least_of(eastings),
        min_n: least_of(northings),
        max_e: greatest_of(eastings),
        max_n: greatest_of(northings),
    })
}

// The least of the coordinates.
fn least_of(coordinates: &[i64]) -> i64
    requires some { 0 < length coordinates.now }
    requires limits { All IsCoordinate coordinates.now }
    ensures { IsLeastCoordinate coordinates.now result }
{
    let first = coordinates[0];
    let mut least = Lanes::splat(first);
    let whole = coordinates.len() / LANE_COUNT;
    for group in 0..whole {
        least = least.least(Lanes::load(coordinates, LANE_COUNT * group));
    }
    let least = plain_least(first, &least.to_array());
    plain_least(least, &coordinates[LANE_COUNT * whole..])
}

// The greatest of the coordinates.
fn greatest_of(coordinates: &[i64]) -> i64
    requires some { 0 < length coordinates.now }
    requires limits { All IsCoordinate coordinates.now }
    ensures { IsGreatest coordinates.now result }
{
    let first = coordinates[0];
    let mut greatest = Lanes::splat(first);
    let whole = coordinates.len() / LANE_COUNT;
    for group in 0..whole {
        greatest = greatest.greatest(Lanes::load(coordinates, LANE_COUNT * group));
    }
    let greatest = plain_greatest(first, &greatest.to_array());
    plain_greatest(greatest, &coordinates[LANE_COUNT * whole..])
}

// The least of `start` and the numbers, one at a time.
fn plain_least(start: i64, numbers: &[i64]) -> i64
    ensures { result ≡ fold int_min start numbers.now }
{
    let mut least = start;
    for number in numbers {
        least = least.min(*number);
    }
    least
}

// The greatest of `start` and the numbers, one at a time.
fn plain_greatest(start: i64, numbers: &[i64]) -> i64
    ensures { result ≡ fold int_max start numbers.now }
{
    let mut greatest = start;
    for number in numbers {
        greatest = greatest.max(*number);
    }
    greatest
}
