// Fixes at the corner of a grid.

use crate::rows::taken_metres;
use crate::said::Said;
use range_plane::{OutOfMemory, Scale};
use split_reading::Row;
use std::alloc::Global;

// The square of 100 km, in units.
fn far_square(unit: Scale) -> u64 {
    match unit {
        Scale::Metre => 10_000_000_000,
        Scale::Decimetre => 1_000_000_000_000,
    }
}

// Whether a place is more than 100 km from the corner.
fn is_far(at: (i64, i64), unit: Scale) -> bool {
    let east = at.0.unsigned_abs();
    let north = at.1.unsigned_abs();
    let square = east
        .saturating_mul(east)
        .saturating_add(north.saturating_mul(north));
    square > far_square(unit)
}

// How many fixes that are used lie at the corner.
fn corner_count(rows: &[Row]) -> usize {
    rows.iter()
        .filter(|row| taken_metres(row) == Some((0, 0)))
        .count()
}

// Whether others lie far from it, and none near.
fn are_others_far(rows: &[Row], unit: Scale) -> bool {
    let mut has_others = false;
    for row in rows {
        if let Some(at) = taken_metres(row) {
            if at != (0, 0) {
                if !is_far(at, unit) {
                    return false;
                }
                has_others = true;
            }
        }
    }
    has_others
}

// Asks about fixes at the corner of the grid, where all others are far from it.
pub(crate) fn ask_zeros(
    alloc: Global,
    said: &mut Said,
    rows: &[Row],
    unit: Scale,
) -> Result<(), OutOfMemory> {
    if !are_others_far(rows, unit) {
        return Ok(());
    }
    said.say_counted(
        alloc,
        corner_count(rows),
        b"fixes lie at easting 0 and northing 0: are they fixes that failed?",
    )
}
