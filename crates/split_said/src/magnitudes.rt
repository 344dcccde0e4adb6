// Coordinates of a size that metres hardly have: of one axis in kilometres, or northings that no map has.

use crate::said::Said;
use crate::sheet::units_of_metre;
use range_plane::{OutOfMemory, Scale};
use split_fates::Extent;
use std::alloc::Global;

// How many metres northings of maps lie from 0 at most: those of Mercator's projection for browsers end at 20,037,508.
const MOST_NORTHING: u64 = 20_100_000;

// Coordinates in kilometres lie within so many of them of 0, and such in metres beyond so many.
const MOST_KILOMETRES: u64 = 1_000;

const LEAST_METRES: u64 = 100_000;

// The least and the greatest distance from 0 of numbers between two ends.
fn distances(least: i64, most: i64) -> (u64, u64) {
    let (one, other) = (least.unsigned_abs(), most.unsigned_abs());
    if least < 0 && most > 0 {
        (0, one.max(other))
    } else {
        (one.min(other), one.max(other))
    }
}

// Whether of two axes the one lies near 0, as kilometres do, and the other one far from it.
fn are_of_two_units(one: (u64, u64), other: (u64, u64), units: u64) -> bool {
    let is_near = one.1 <= MOST_KILOMETRES.saturating_mul(units);
    is_near && LEAST_METRES.saturating_mul(units) <= other.0
}

// Asks about coordinates of which one axis may be in kilometres, and about northings that are too great for any map.
pub(crate) fn ask_magnitudes(
    alloc: Global,
    said: &mut Said,
    extent: &Extent,
    unit: Scale,
) -> Result<(), OutOfMemory> {
    let units = u64::from(units_of_metre(unit));
    let eastings = distances(extent.least.0, extent.most.0);
    let northings = distances(extent.least.1, extent.most.1);
    if are_of_two_units(eastings, northings, units)
        || are_of_two_units(northings, eastings, units)
    {
        said.say(
            alloc,
            b"coordinates of one axis lie within 1,000 m of 0, and those of the other beyond 100,000 m: are the first in kilometres?",
        )?;
    }
    if MOST_NORTHING.saturating_mul(units) < northings.1 {
        said.say(
            alloc,
            b"northings lie more than 20,100 km from 0, where no map has any: are they in metres?",
        )?;
    }
    Ok(())
}
