// How fixes lie by their metres, beside longitudes and latitudes that are not read.

use csv::ByteRecord;
use range_plane::Scale;
use split_numbers::trillionths;
use split_reading::{Row, Told};
use split_table::{TableFault, TableText};
use split_titles::Pair;
use std::alloc::Global;

// The trillionths of a degree; how many of them others may be from the first fix, and the latitude up to which fixes are looked at.
const DEGREE: i128 = 1_000_000_000_000;

const FARTHEST: i128 = 5_000_000_000_000;

const MOST_LATITUDE: i128 = 85_000_000_000_000;

// The decimetres of a degree of latitude, on a sphere.
const DECIMETRES: i128 = 1_112_000;

// Trillionths in a millionth of a degree, and the square of 180 degrees in millionths, by which a cosine is found as Bhaskara does.
const MILLIONTH: i128 = 1_000_000;

const HALF_TURN_SQUARED: i128 = 32_400_000_000_000_000;

// The most hundredths of one mean square that another one has, of lengths that differ by a twentieth.
const MOST_HUNDREDTHS: i128 = 110;

// The fewest hundredths of two mean squares that what they have in common has, however the one is turned against the other.
const FEWEST_HUNDREDTHS: i128 = 90;

// How many times the square of the last decimal a mean square has at least, that is no noise of rounding.
const LEAST_TIMES: i128 = 25;

// The fewest fixes that tell how they lie.
const FEWEST: i128 = 3;

// A fix by its metres, in decimetres, and by its degrees, in trillionths.
#[derive(Clone, Copy)]
struct Both {
    easting: i128,
    northing: i128,
    longitude: i128,
    latitude: i128,
}

// Where a fix lies in decimetres from the first one, by its metres and by its degrees.
#[derive(Clone, Copy)]
struct Step {
    easting: i128,
    northing: i128,
    east: i128,
    north: i128,
}

// The decimetres of a coordinate in units.
fn decimetres(units: i64, unit: Scale) -> i128 {
    match unit {
        Scale::Metre => i128::from(units).saturating_mul(10),
        Scale::Decimetre => i128::from(units),
    }
}

// How many decimals a number has.
fn decimals_of(text: &[u8]) -> usize {
    match text.iter().position(|byte| *byte == b'.' || *byte == b',') {
        Some(point) => text.len().saturating_sub(point.saturating_add(1)),
        None => 0,
    }
}

// The fix of a row that is taken, with the degrees of its record.
fn both_of(fields: &ByteRecord, degrees: Pair, row: &Row, unit: Scale) -> Option<Both> {
    let Told::Fix(fix) = row.told else {
        return None;
    };
    if !fix.is_taken() {
        return None;
    }
    let (easting, northing) = fix.metres?;
    let longitude = trillionths(fields.get(degrees.first)?, true)?;
    let latitude = i128::from(trillionths(fields.get(degrees.second)?, true)?);
    if MOST_LATITUDE < latitude || latitude < -MOST_LATITUDE {
        return None;
    }
    Some(Both {
        easting: decimetres(easting, unit),
        northing: decimetres(northing, unit),
        longitude: i128::from(longitude),
        latitude,
    })
}

// Decimetres along a parallel, of so many along the equator.
fn along(decimetres: i128, latitude: i128) -> i128 {
    let millionths = latitude.checked_div(MILLIONTH).unwrap_or(0);
    let square = millionths.saturating_mul(millionths);
    let cosine = HALF_TURN_SQUARED.saturating_sub(square.saturating_mul(4));
    decimetres
        .saturating_mul(cosine)
        .checked_div(HALF_TURN_SQUARED.saturating_add(square))
        .unwrap_or(0)
}

// Decimetres along a meridian, of trillionths of a degree.
fn along_meridian(trillionths: i128) -> i128 {
    trillionths
        .saturating_mul(DECIMETRES)
        .checked_div(DEGREE)
        .unwrap_or(0)
}

// Whether degrees lie no farther apart than is looked at.
fn is_near(trillionths: i128) -> bool {
    -FARTHEST <= trillionths && trillionths <= FARTHEST
}

// Where a fix lies from the first one; none where it is far away.
fn step_of(first: Both, own: Both) -> Option<Step> {
    let longitude = own.longitude.saturating_sub(first.longitude);
    let latitude = own.latitude.saturating_sub(first.latitude);
    if !is_near(longitude) || !is_near(latitude) {
        return None;
    }
    let sum = own.latitude.saturating_add(first.latitude);
    let middle = sum.checked_div(2).unwrap_or(0);
    Some(Step {
        easting: own.easting.saturating_sub(first.easting),
        northing: own.northing.saturating_sub(first.northing),
        east: along(along_meridian(longitude), middle),
        north: along_meridian(latitude),
    })
}

// The sums of steps, of their squares, and of their products.
#[derive(Clone, Copy)]
struct Sums {
    count: i128,
    easting: i128,
    northing: i128,
    east: i128,
    north: i128,
    squares_of_metres: i128,
    squares_of_degrees: i128,
    // Of products of the same axis, and of one axis with the other.
    along: i128,
    across: i128,
}

impl Sums {
    // Those of no fix.
    fn none() -> Sums {
        Sums {
            count: 0,
            easting: 0,
            northing: 0,
            east: 0,
            north: 0,
            squares_of_metres: 0,
            squares_of_degrees: 0,
            along: 0,
            across: 0,
        }
    }

    // The same with one fix more.
    fn with(self, step: Step) -> Sums {
        Sums {
            count: self.count.saturating_add(1),
            easting: self.easting.saturating_add(step.easting),
            northing: self.northing.saturating_add(step.northing),
            east: self.east.saturating_add(step.east),
            north: self.north.saturating_add(step.north),
            squares_of_metres: self.squares_of_metres.saturating_add(dot(
                (step.easting, step.northing),
                (step.easting, step.northing),
            )),
            squares_of_degrees: self
                .squares_of_degrees
                .saturating_add(dot((step.east, step.north), (step.east, step.north))),
            along: self.along.saturating_add(dot(
                (step.easting, step.northing),
                (step.east, step.north),
            )),
            across: self.across.saturating_add(dot(
                (step.easting, step.northing),
                turned(step.east, step.north),
            )),
        }
    }

    // The mean of products of what differs from the means, in square metres, of the sum of products and that of the sums.
    fn mean(&self, products: i128, of_sums: i128) -> i128 {
        let all = self.count.saturating_mul(products).saturating_sub(of_sums);
        let squared = self.count.saturating_mul(self.count).saturating_mul(100);
        all.checked_div(squared).unwrap_or(0)
    }

    // Whether the fixes lie otherwise by their degrees, of which the last decimal is of so many square metres.
    fn are_apart(&self, least: i128) -> bool {
        let metres = (self.easting, self.northing);
        let degrees = (self.east, self.north);
        let one = self.mean(self.squares_of_metres, dot(metres, metres));
        let other = self.mean(self.squares_of_degrees, dot(degrees, degrees));
        let along = self.mean(self.along, dot(metres, degrees));
        let across = self.mean(self.across, dot(metres, turned(self.east, self.north)));
        let is_told = FEWEST <= self.count && other > 0 && least <= one.max(other);
        is_told
            && (differ(one, other)
                || are_strange(one, other, dot((along, across), (along, across))))
    }
}

// The sum of products of two pairs.
fn dot(one: (i128, i128), other: (i128, i128)) -> i128 {
    let first = one.0.saturating_mul(other.0);
    first.saturating_add(one.1.saturating_mul(other.1))
}

// Two coordinates turned by a right angle.
fn turned(east: i128, north: i128) -> (i128, i128) {
    (north, 0_i128.saturating_sub(east))
}

// Whether of two mean squares one is greater than the other by more than lengths of one place may be.
fn differ(one: i128, other: i128) -> bool {
    one.min(other).saturating_mul(MOST_HUNDREDTHS) < one.max(other).saturating_mul(100)
}

// Whether two ways to lie of such mean squares have less in common than those of one place have, however turned.
fn are_strange(one: i128, other: i128, common: i128) -> bool {
    let all = one.saturating_mul(other);
    common.saturating_mul(100) < all.saturating_mul(FEWEST_HUNDREDTHS)
}

// The square metres that a mean square has at least beside degrees of so many decimals.
fn least_of(decimals: usize) -> i128 {
    let metres: i128 = match decimals {
        0 => 111_200,
        1 => 11_120,
        2 => 1_112,
        3 => 112,
        4 => 12,
        _ => 2,
    };
    metres.saturating_mul(metres).saturating_mul(LEAST_TIMES)
}

// What is seen of the records so far: the first fix, the sums, and the most decimals of a degree.
#[derive(Clone, Copy)]
struct Seen {
    first: Option<Both>,
    sums: Sums,
    decimals: usize,
}

impl Seen {
    // The same with the fix of a record more.
    fn with(self, own: Both, decimals: usize) -> Seen {
        let first = self.first.unwrap_or(own);
        let sums = match step_of(first, own) {
            Some(step) => self.sums.with(step),
            None => self.sums,
        };
        Seen {
            first: Some(first),
            sums,
            decimals: self.decimals.max(decimals),
        }
    }
}

// The most decimals of the degrees of a record.
fn decimals_in(fields: &ByteRecord, degrees: Pair) -> usize {
    let longitude = decimals_of(fields.get(degrees.first).unwrap_or(b""));
    longitude.max(decimals_of(fields.get(degrees.second).unwrap_or(b"")))
}

/// Whether the fixes of a text, whose records say this, lie otherwise by longitudes and latitudes in these columns than by their
/// metres: in another size, or mirrored, or elsewhere. How the one is turned against the other does not count, nor do fixes that
/// are more than five degrees from the first one.
///
/// # Errors
///
/// Memory ran out.
pub fn lie_otherwise(
    alloc: Global,
    text: &TableText<'_>,
    degrees: Pair,
    unit: Scale,
    rows: &[Row],
) -> Result<bool, TableFault> {
    let mut table = text.table(alloc)?;
    let mut seen = Seen {
        first: None,
        sums: Sums::none(),
        decimals: 0,
    };
    for row in rows {
        if !table.advance()? {
            break;
        }
        let fields = table.current();
        if let Some(own) = both_of(fields, degrees, row, unit) {
            seen = seen.with(own, decimals_in(fields, degrees));
        }
    }
    Ok(seen.sums.are_apart(least_of(seen.decimals)))
}
