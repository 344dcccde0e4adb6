// The zone into which longitude and latitude are projected.

use crate::ranked::{Ranked, push_ranked};
use crate::rows::{kept_fix, record_at};
use crate::said::Said;
use crate::sheet::Sheet;
use crate::stop::{Stop, nothing_left, refused};
use crate::words::{push, push_decimal, push_zone, push_zone_option};
use crate::zones::{Zoned, first_zone, ranked_zones, zone_counts};
use split_numbers::MOST_TRILLIONTHS;
use split_reading::{Row, Zone};
use split_refusal::Kind;
use std::alloc::{AllocError, Global};

// Whether a fix that is kept has no longitude and latitude.
fn is_bare(row: &Row, keeps_marks: bool) -> bool {
    match kept_fix(row, keeps_marks) {
        Some(fix) => fix.degrees.is_none(),
        None => false,
    }
}

// Refuses a fix that has nothing to project.
fn check_degrees_are_there(alloc: Global, sheet: &Sheet<'_>, rows: &[Row]) -> Result<(), Stop> {
    match rows.iter().position(|row| is_bare(row, sheet.keeps_marks)) {
        Some(place) => {
            let text = Vec::from_slice(alloc, b"there is no longitude and latitude to project");
            Err(refused(alloc, Kind::Zone, Some(record_at(place)), text))
        }
        None => Ok(()),
    }
}

// The greatest longitude, once round, and the greatest latitude, in trillionths of a degree.
const MOST_LONGITUDE: u64 = 360_000_000_000_000;

const MOST_LATITUDE: u64 = 90_000_000_000_000;

// How many trillionths a degree has.
const TRILLION: u64 = 1_000_000_000_000;

// Whether a longitude is none, even once round.
fn is_no_longitude(longitude: i64) -> bool {
    MOST_LONGITUDE < longitude.unsigned_abs()
}

// Whether a latitude is none.
fn is_no_latitude(latitude: i64) -> bool {
    MOST_LATITUDE < latitude.unsigned_abs()
}

// The longitude and latitude of a fix that is kept and that are those of no place.
fn no_place(row: &Row, keeps_marks: bool) -> Option<(i64, i64)> {
    let (longitude, latitude) = kept_fix(row, keeps_marks)?.degrees?;
    if is_no_longitude(longitude) || is_no_latitude(latitude) {
        Some((longitude, latitude))
    } else {
        None
    }
}

// Whether degrees are as many as are told apart: they may be more.
fn are_most(degrees: i64) -> bool {
    degrees.unsigned_abs() >= MOST_TRILLIONTHS.unsigned_abs()
}

// Appends degrees.
fn push_degrees(text: &mut Vec<u8>, degrees: i64) -> Result<(), AllocError> {
    if degrees < 0 {
        push(text, "-")?;
    }
    push_decimal(text, degrees.unsigned_abs(), TRILLION)?;
    if are_most(degrees) {
        return push(text, " or more");
    }
    Ok(())
}

// Whether a longitude and a latitude may be each other.
fn may_be_swapped(longitude: i64, latitude: i64) -> bool {
    longitude.unsigned_abs() <= MOST_LATITUDE && latitude.unsigned_abs() <= MOST_LONGITUDE / 2
}

// What to do about a longitude and a latitude that may be metres, and about such as may have been multiplied too.
const METRES: &str =
    ": coordinates in metres are named by --easting and --northing, and a word for what is missing by --na";

const GREAT: &str =
    ": coordinates in metres are named by --easting and --northing, degrees that were multiplied, as by 10,000,000, are divided first, \
     and a word for what is missing is named by --na";

// Appends what to do about a longitude and a latitude of no place.
fn push_remedy(text: &mut Vec<u8>, longitude: i64, latitude: i64) -> Result<(), AllocError> {
    if may_be_swapped(longitude, latitude) {
        let swapped = ": are their columns to be named the other way, by --lon and --lat?";
        return push(text, swapped);
    }
    if is_no_longitude(longitude) && is_no_latitude(latitude) {
        if are_most(longitude) && are_most(latitude) {
            return push(text, GREAT);
        }
        if longitude != latitude {
            return push(text, METRES);
        }
    }
    push(text, ": a word for what is missing is named by --na")?;
    let odd = if is_no_longitude(longitude) {
        longitude
    } else {
        latitude
    };
    if are_most(odd) {
        return Ok(());
    }
    push(text, ", such as --na ")?;
    push_degrees(text, odd)
}

// That a longitude and a latitude are those of no place.
fn no_place_text(alloc: Global, longitude: i64, latitude: i64) -> Result<Vec<u8>, AllocError> {
    let mut text = Vec::new(alloc);
    push(&mut text, "there is no place of longitude ")?;
    push_degrees(&mut text, longitude)?;
    push(&mut text, " and latitude ")?;
    push_degrees(&mut text, latitude)?;
    push_remedy(&mut text, longitude, latitude)?;
    Ok(text)
}

// Refuses a fix of a longitude and a latitude of which there is no place.
fn check_places(alloc: Global, sheet: &Sheet<'_>, rows: &[Row]) -> Result<(), Stop> {
    for (index, row) in rows.iter().enumerate() {
        if let Some((longitude, latitude)) = no_place(row, sheet.keeps_marks) {
            let text = no_place_text(alloc, longitude, latitude);
            return Err(refused(alloc, Kind::Number, Some(record_at(index)), text));
        }
    }
    Ok(())
}

// Whether some of these zones are of the south, and some of the north.
fn are_of_both(zones: &[Ranked]) -> bool {
    let is_south = |zone: &Ranked| zone.word.ends_with(b"S");
    zones.iter().any(is_south) && !zones.iter().all(is_south)
}

// That fixes lie on both sides of the equator.
fn both_text(alloc: Global, zones: &[Ranked], first: Zone) -> Result<Vec<u8>, AllocError> {
    let mut text = Vec::new(alloc);
    push(&mut text, "fixes lie on both sides of the equator (")?;
    push_ranked(&mut text, zones)?;
    push(&mut text, "): name the zone of all, such as ")?;
    let south = Zone {
        number: first.number,
        is_south: true,
    };
    push_zone_option(&mut text, south)?;
    Ok(text)
}

// Says into which zone places are projected, and of which zones they are.
fn tell_zone(alloc: Global, said: &mut Said, zone: Zone, zones: &[Ranked]) -> Result<(), Stop> {
    let mut text = Vec::new(alloc);
    push(&mut text, "longitude and latitude are projected into zone ")?;
    push_zone(&mut text, zone)?;
    push(&mut text, "; fixes by zone: ")?;
    push_ranked(&mut text, zones)?;
    said.say(alloc, &text)?;
    Ok(())
}

// The zone into which the longitudes and latitudes of a table are projected, which is said: the named one, or else that of most
// fixes that are taken.
pub(crate) fn projected_zone(
    alloc: Global,
    said: &mut Said,
    sheet: &Sheet<'_>,
    rows: &[Row],
) -> Result<Zone, Stop> {
    check_degrees_are_there(alloc, sheet, rows)?;
    check_places(alloc, sheet, rows)?;
    let zones = ranked_zones(alloc, &zone_counts(alloc, rows, Zoned::Degrees)?)?;
    let Some(first) = first_zone(&zones) else {
        return Err(nothing_left(alloc));
    };
    if sheet.zone.is_none() && are_of_both(&zones) {
        let text = both_text(alloc, &zones, first);
        return Err(refused(alloc, Kind::Zone, None, text));
    }
    let zone = sheet.zone.unwrap_or(first);
    tell_zone(alloc, said, zone, &zones)?;
    Ok(zone)
}
