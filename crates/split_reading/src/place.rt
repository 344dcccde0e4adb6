// Where a record is.

ghost use Rattle.std.specs.Prelude.{◌≡◌};
ghost use Rattle.csv.specs.Records.{fields_of};
ghost use Rattle.split_reading.specs.Places.{are_both_zero, are_zero, both, degrees_in, metres_in, place_by, place_in};

use crate::cells::{cell, is_zero, number_in, trillionths_in};
use crate::fault::CellFault;
use crate::rules::Rules;
use csv::ByteRecord;
use split_titles::Pair;

/// The coordinates of a record, of which it has some.
#[derive(Clone, Copy, PartialEq, Eq, Debug)]
pub struct Position {
    /// Easting and northing, in whole units of the grid.
    pub metres: Option<(i64, i64)>,
    /// Longitude and latitude, in whole trillionths of a degree.
    pub degrees: Option<(i64, i64)>,
}

/// Where a record is.
#[derive(Clone, Copy, PartialEq, Eq, Debug)]
pub enum Place {
    At(Position),
    /// Longitude and latitude are 0, and so are metres, where it has some.
    Zero,
    /// It has no coordinates.
    Missing,
}

// Two numbers, where both are there.
fn both(first: Option<i64>, second: Option<i64>) -> Option<(i64, i64)>
    ensures { result ≡ both first second }
{
    match (first, second) {
        (Some(first), Some(second)) => Some((first, second)),
        _ => None,
    }
}

// Easting and northing in whole units, where both are there.
fn metres_in(fields: &ByteRecord, rules: &Rules<'_, '_>) -> Result<Option<(i64, i64)>, CellFault>
    ensures { result ≡ metres_in rules.now rules.now.metres (fields_of «fields».now) }
{
    let Some(pair) = rules.metres else {
        return Ok(None);
    };
    let easting = number_in(cell(fields, pair.first, rules), pair.first, rules)?;
    let northing = number_in(cell(fields, pair.second, rules), pair.second, rules)?;
    Ok(both(easting, northing))
}

// Longitude and latitude in trillionths of a degree, where both are there.
fn degrees_in(fields: &ByteRecord, rules: &Rules<'_, '_>) -> Result<Option<(i64, i64)>, CellFault>
    ensures { result ≡ degrees_in rules.now rules.now.degrees (fields_of «fields».now) }
{
    let Some(pair) = rules.degrees else {
        return Ok(None);
    };
    let longitude = trillionths_in(cell(fields, pair.first, rules), pair.first, rules)?;
    let latitude = trillionths_in(cell(fields, pair.second, rules), pair.second, rules)?;
    Ok(both(longitude, latitude))
}

// Whether two coordinates are both 0.
fn are_both_zero(fields: &ByteRecord, pair: Pair, rules: &Rules<'_, '_>) -> bool
    ensures { result ≡ are_both_zero rules.now pair (fields_of «fields».now) }
{
    is_zero(cell(fields, pair.first, rules)) && is_zero(cell(fields, pair.second, rules))
}

// Whether a record has two coordinates that are both 0.
fn are_zero(fields: &ByteRecord, pair: Option<Pair>, rules: &Rules<'_, '_>) -> bool
    ensures { result ≡ are_zero rules.now pair (fields_of «fields».now) }
{
    match pair {
        Some(pair) => are_both_zero(fields, pair, rules),
        None => false,
    }
}

// The place of a record by its metres and its degrees, each of which may be 0.
fn place_by(
    metres: Option<(i64, i64)>,
    degrees: Option<(i64, i64)>,
    are_metres_zero: bool,
    are_degrees_zero: bool,
) -> Place
    ensures { result ≡ place_by metres degrees are_metres_zero are_degrees_zero }
{
    match metres {
        Some(_) if !(are_degrees_zero && are_metres_zero) => Place::At(Position {
            metres,
            degrees,
        }),
        _ if are_degrees_zero => Place::Zero,
        None if degrees.is_some() => Place::At(Position {
            metres: None,
            degrees,
        }),
        _ => Place::Missing,
    }
}

// The place of a record.
pub(crate) fn place_in(fields: &ByteRecord, rules: &Rules<'_, '_>) -> Result<Place, CellFault>
    ensures { result ≡ place_in rules.now (fields_of «fields».now) }
{
    let metres = metres_in(fields, rules)?;
    let degrees = degrees_in(fields, rules)?;
    let are_metres_zero = are_zero(fields, rules.metres, rules);
    let are_degrees_zero = are_zero(fields, rules.degrees, rules);
    Ok(place_by(metres, degrees, are_metres_zero, are_degrees_zero))
}
