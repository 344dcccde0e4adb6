// Fixes beside longitudes and latitudes that are not read: whether these are the same with axes swapped or without their signs, how many lie
// elsewhere, and the first fix that has both.

use csv::ByteRecord;
use split_numbers::trillionths;
use split_reading::{Row, Told, ToldFix};
use split_table::{TableFault, TableText};
use split_titles::Pair;
use std::alloc::Global;

// The trillionths of a degree by which degrees of one place differ at most.
const NEAR: u64 = 10_000_000_000;

// The fix of a row that is taken.
fn taken(row: &Row) -> Option<ToldFix> {
    match row.told {
        Told::Fix(fix) if fix.is_taken() => Some(fix),
        _ => None,
    }
}

// The longitude and the latitude of a fix that is taken.
fn degrees_of(row: &Row) -> Option<(i64, i64)> {
    taken(row)?.degrees
}

// The easting and the northing of a fix that is taken.
fn metres_of(row: &Row) -> Option<(i64, i64)> {
    taken(row)?.metres
}

// The longitude and the latitude that a record has in these columns.
fn degrees_in(fields: &ByteRecord, degrees: Pair) -> Option<(i64, i64)> {
    let longitude = trillionths(fields.get(degrees.first)?, true)?;
    let latitude = trillionths(fields.get(degrees.second)?, true)?;
    Some((longitude, latitude))
}

// Whether two numbers of degrees are those of one place.
fn are_near(one: u64, other: u64) -> bool {
    one.max(other).saturating_sub(one.min(other)) <= NEAR
}

// Whether two numbers of degrees are those of one place with their signs.
fn are_same(one: i64, other: i64) -> bool {
    one.saturating_sub(other).unsigned_abs() <= NEAR
}

// Whether a place is another one, but for its axes or for its signs.
fn is_turned(own: (i64, i64), other: (i64, i64)) -> bool {
    if are_same(own.0, other.0) && are_same(own.1, other.1) {
        return false;
    }
    let (longitude, latitude) = (own.0.unsigned_abs(), own.1.unsigned_abs());
    let (first, second) = (other.0.unsigned_abs(), other.1.unsigned_abs());
    are_near(longitude, first) && are_near(latitude, second)
        || are_near(longitude, second) && are_near(latitude, first)
}

/// Whether the fixes of a text, whose records say this, all have the longitudes and latitudes of these columns, but with axes swapped or
/// with other signs.
///
/// # Errors
///
/// Memory ran out.
pub fn are_turned(
    alloc: Global,
    text: &TableText<'_>,
    degrees: Pair,
    rows: &[Row],
) -> Result<bool, TableFault> {
    let mut table = text.table(alloc)?;
    let mut has_one = false;
    for row in rows {
        if !table.advance()? {
            break;
        }
        let Some(own) = degrees_of(row) else {
            continue;
        };
        match degrees_in(table.current(), degrees) {
            Some(other) if is_turned(own, other) => has_one = true,
            Some(_) => return Ok(false),
            None => {}
        }
    }
    Ok(has_one)
}

/// How many fixes that are taken have degrees, and others in these columns that lie more than a hundredth of a degree away.
///
/// # Errors
///
/// Memory ran out.
pub fn count_apart(
    alloc: Global,
    text: &TableText<'_>,
    degrees: Pair,
    rows: &[Row],
) -> Result<usize, TableFault> {
    let mut table = text.table(alloc)?;
    let mut count: usize = 0;
    for row in rows {
        if !table.advance()? {
            break;
        }
        let both = (degrees_of(row), degrees_in(table.current(), degrees));
        let (Some(own), Some(other)) = both else {
            continue;
        };
        if !are_same(own.0, other.0) || !are_same(own.1, other.1) {
            count = count.saturating_add(1);
        }
    }
    Ok(count)
}

/// A fix by its easting and northing, and by a longitude and latitude that are not read, in trillionths of a degree.
#[derive(Clone, Copy, PartialEq, Eq, Debug)]
pub struct BothPlaces {
    pub metres: (i64, i64),
    pub degrees: (i64, i64),
}

/// The first fix of a text, whose records say this, that has metres and has degrees in these columns.
///
/// # Errors
///
/// Memory ran out.
pub fn first_of_both(
    alloc: Global,
    text: &TableText<'_>,
    degrees: Pair,
    rows: &[Row],
) -> Result<Option<BothPlaces>, TableFault> {
    let mut table = text.table(alloc)?;
    for row in rows {
        if !table.advance()? {
            break;
        }
        let Some(metres) = metres_of(row) else {
            continue;
        };
        if let Some(degrees) = degrees_in(table.current(), degrees) {
            return Ok(Some(BothPlaces { metres, degrees }));
        }
    }
    Ok(None)
}
