// The fixes of a track that lie far from its others.

ghost use Rattle.std.specs.Prelude.{◌≡◌, IfOk, length};
ghost use Rattle.std.specs.List.Sorted.{IsPermutation, IsSorted};
ghost use Rattle.std.specs.Ordering.{int_cmp, nat_cmp};
ghost use Rattle.split_doubts.specs.Axes.{used_coordinates};
ghost use Rattle.split_doubts.specs.Far.{IsAnswer, far_records, is_far};

use crate::axis::{Axis, coordinate, units_per_metre};
use crate::gap::{Side, far_side, gap};
use range_plane::{OutOfMemory, Scale};
use split_tracks::Entry;
use std::alloc::Allocator;

/// Fixes of a track that lie far from its others.
#[derive(Drop)]
pub struct FarFixes<A: Allocator> {
    /// The numbers of their records, in order.
    pub records: Vec<u32, A>,
    /// How many fixes of the track are used.
    pub fixes: usize,
    /// How far they lie from the others along the axis, in whole metres, rounded down.
    pub metres: u64,
}

// Whether a fix is used and lies on the far side of a strip.
fn is_far(axis: Axis, side: Side, entry: &Entry) -> bool
    ensures { result ≡ is_far axis side entry.now }
{
    let coordinate = coordinate(axis, entry);
    entry.is_used
        && if side.is_lower {
            coordinate <= side.strip.low
        } else {
            side.strip.high <= coordinate
        }
}

// The coordinates of the used fixes of a track, in its order.
fn used_coordinates<A: Allocator>(
    alloc: A,
    axis: Axis,
    track: &[Entry],
) -> Result<Vec<i64, A>, OutOfMemory>
    ensures { IfOk result (λ coordinates. coordinates.items ≡ used_coordinates axis track.now) }
{
    let coordinates = track
        .iter()
        .filter(|entry| entry.is_used)
        .map(|entry| coordinate(axis, entry))
        .collect(alloc)?;
    Ok(coordinates)
}

// The same, ascending.
fn sorted_coordinates<A: Allocator>(
    alloc: A,
    axis: Axis,
    track: &[Entry],
) -> Result<Vec<i64, A>, OutOfMemory>
    ensures same { IfOk result (λ sorted. IsPermutation (used_coordinates axis track.now) sorted.items) }
    ensures sorted { IfOk result (λ sorted. IsSorted int_cmp sorted.items) }
{
    let mut coordinates = used_coordinates(alloc, axis, track)?;
    coordinates.sort()?;
    Ok(coordinates)
}

// The numbers of the records of far fixes, in the order of the track.
fn far_records<A: Allocator>(
    alloc: A,
    axis: Axis,
    side: Side,
    track: &[Entry],
) -> Result<Vec<u32, A>, OutOfMemory>
    ensures { IfOk result (λ records. records.items ≡ far_records axis side track.now) }
{
    let records = track
        .iter()
        .filter(|entry| is_far(axis, side, entry))
        .map(|entry| entry.record)
        .collect(alloc)?;
    Ok(records)
}

// The same, in their own order.
fn sorted_records<A: Allocator>(
    alloc: A,
    axis: Axis,
    side: Side,
    track: &[Entry],
) -> Result<Vec<u32, A>, OutOfMemory>
    ensures same { IfOk result (λ records. IsPermutation (far_records axis side track.now) records.items) }
    ensures sorted { IfOk result (λ records. IsSorted nat_cmp records.items) }
{
    let mut records = far_records(alloc, axis, side, track)?;
    records.sort()?;
    Ok(records)
}

/// The used fixes of a track that lie far from its other used ones along an axis; none where none do. In the ascending order of
/// coordinates the widest empty strip is the greatest gap between neighbours. If it is wider than half of the extent, from the
/// least coordinate to the greatest, and than 1 km, the fixes on the side of it that has fewer are far, and of equal sides those
/// on the lower one. Of two fixes, of which nothing tells the wrong one, that is the lower one too. Coordinates are in this unit.
///
/// # Errors
///
/// Memory ran out.
pub fn far_fixes<A: Allocator + Copy>(
    alloc: A,
    axis: Axis,
    track: &[Entry],
    unit: Scale,
) -> Result<Option<FarFixes<A>>, OutOfMemory>
    ensures { IfOk result (IsAnswer unit axis track.now) }
{
    let sorted = sorted_coordinates(alloc, axis, track)?;
    let Some(side) = far_side(unit, &sorted) else {
        return Ok(None);
    };
    let records = sorted_records(alloc, axis, side, track)?;
    Ok(Some(FarFixes {
        records,
        fixes: sorted.len(),
        metres: gap(side.strip) / units_per_metre(unit),
    }))
}
