// UTM coordinates beside longitude and latitude that lie elsewhere.

use crate::rows::{record_at, taken_fix};
use crate::sheet::Sheet;
use crate::stop::{Stop, refused};
use crate::words::{push, push_zone, push_zone_option};
use range_plane::Scale;
use split_projection::{Degrees, project};
use split_reading::{Row, Zone, zone_at};
use split_refusal::Kind;
use std::alloc::{AllocError, Global};
use std::num::nearest_i64_to_f64;

// How many metres apart two positions of one fix may be that are meant as one: of other reference systems, or rounded to two decimals of a
// degree; and how many where a zone is looked at.
const MOST_APART: f64 = 1_000.0;

const MOST_IN_ZONE: f64 = 10_000.0;

// The two positions of a fix: its metres in a zone, and its longitude and latitude.
#[derive(Clone, Copy)]
struct Both {
    metres: (i64, i64),
    degrees: (i64, i64),
}

// The two positions of a fix that is taken and has both.
fn both_of(row: &Row) -> Option<Both> {
    let fix = taken_fix(row)?;
    Some(Both {
        metres: fix.metres?,
        degrees: fix.degrees?,
    })
}

// How many metres units are.
fn metres_of(units: i64, unit: Scale) -> f64 {
    match unit {
        Scale::Metre => nearest_i64_to_f64(units),
        Scale::Decimetre => nearest_i64_to_f64(units) / 10.0,
    }
}

// Whether the positions of a fix lie more than so many metres apart in a zone. Longitude and latitude that have no place in it are far.
fn are_apart(both: Both, zone: Zone, unit: Scale, most: f64) -> bool {
    let (longitude, latitude) = both.degrees;
    let at = Degrees {
        longitude,
        latitude,
    };
    match project(at, zone.number, zone.is_south) {
        Some((east, north)) => {
            (metres_of(both.metres.0, unit) - east).abs() > most
                || (metres_of(both.metres.1, unit) - north).abs() > most
        }
        None => true,
    }
}

/// Whether an easting and a northing in a zone lie more than 10 km from a longitude and a latitude, in trillionths of a degree. Such as have
/// no place in the zone are far.
pub fn are_far_in(zone: Zone, metres: (i64, i64), degrees: (i64, i64), unit: Scale) -> bool {
    are_apart(Both { metres, degrees }, zone, unit, MOST_IN_ZONE)
}

// Whether a row has two positions that lie apart.
fn is_apart(row: &Row, zone: Zone, unit: Scale) -> bool {
    match both_of(row) {
        Some(both) => are_apart(both, zone, unit, MOST_APART),
        None => false,
    }
}

// That the positions of a fix lie far apart.
fn apart_text(alloc: Global, zone: Zone, both: Both) -> Result<Vec<u8>, AllocError> {
    let mut text = Vec::new(alloc);
    push(&mut text, "its UTM coordinates in ")?;
    push_zone(&mut text, zone)?;
    push(
        &mut text,
        " lie more than 1 km from its longitude and latitude: take these, by --lon and --lat and ",
    )?;
    push_zone_option(&mut text, zone_at(both.degrees.0, both.degrees.1))?;
    push(&mut text, ", or remove what is wrong")?;
    Ok(text)
}

// Refuses UTM coordinates that lie far from the longitude and the latitude of the same record.
pub(crate) fn check_beside(
    alloc: Global,
    sheet: &Sheet<'_>,
    rows: &[Row],
    zone: Zone,
) -> Result<(), Stop> {
    let Some(place) = rows.iter().position(|row| is_apart(row, zone, sheet.unit)) else {
        return Ok(());
    };
    match rows.get(place).and_then(both_of) {
        Some(both) => {
            let text = apart_text(alloc, zone, both);
            Err(refused(alloc, Kind::Zone, Some(record_at(place)), text))
        }
        None => Ok(()),
    }
}
