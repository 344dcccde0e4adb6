// Degrees in the columns of metres.

use crate::rows::taken_metres;
use crate::said::Said;
use crate::sheet::{Sheet, title_at};
use crate::stop::{Stop, refused};
use crate::words::{push, push_option, push_zone_option};
use range_plane::Scale;
use split_reading::{Row, Zone, zone_at};
use split_refusal::Kind;
use split_titles::{Pair, has_word, is_of_places, trimmed};
use std::alloc::{AllocError, Global};
use std::num::saturating_f64_to_i64;

// Words of usual titles of longitude and latitude.
const LONGITUDES: [&str; 4] = ["longitude", "long", "lon", "lng"];

const LATITUDES: [&str; 2] = ["latitude", "lat"];

// How many fixes are not a few, of which one may be wrong.
const FEW: usize = 3;

// The greatest longitude and latitude, in units.
fn most_degrees(unit: Scale) -> (u64, u64) {
    match unit {
        Scale::Metre => (180, 90),
        Scale::Decimetre => (1800, 900),
    }
}

// How many fixes there are, how many of them may be degrees, and how many lie within 180 by 90 of the corner.
#[derive(Clone, Copy)]
struct Counts {
    all: usize,
    may_be: usize,
    near: usize,
}

impl Counts {
    // The counts with a fix of these metres. Longitudes may also go round to 360 in the east.
    fn with(self, east: i64, north: i64, unit: Scale) -> Counts {
        let (longitude, latitude) = most_degrees(unit);
        let is_within = north.unsigned_abs() <= latitude;
        let is_near = is_within && east.unsigned_abs() <= longitude;
        let is_round = is_within && east >= 0 && east.unsigned_abs() <= longitude.saturating_mul(2);
        Counts {
            all: self.all.saturating_add(1),
            may_be: self.may_be.saturating_add(usize::from(is_near || is_round)),
            near: self.near.saturating_add(usize::from(is_near)),
        }
    }

    // Whether all fixes lie near the corner.
    fn are_all_near(self) -> bool {
        self.near == self.all
    }

    // Whether all are degrees, or more than half may be and they are not a few.
    fn may_most_be(self) -> bool {
        self.are_all_near() || self.all >= FEW && self.may_be > self.all / 2
    }
}

// The counts of the fixes that are used.
fn counts_of(rows: &[Row], unit: Scale) -> Counts {
    let mut counts = Counts {
        all: 0,
        may_be: 0,
        near: 0,
    };
    for row in rows {
        if let Some((east, north)) = taken_metres(row) {
            counts = counts.with(east, north, unit);
        }
    }
    counts
}

// How many trillionths a degree has.
const TRILLION: f64 = 1_000_000_000_000.0;

// The zone of a place in degrees.
fn zone_of(longitude: f64, latitude: f64) -> Zone {
    zone_at(
        saturating_f64_to_i64((longitude * TRILLION).round()),
        saturating_f64_to_i64((latitude * TRILLION).round()),
    )
}

// The longitude and the latitude of a table whose metres are read, by their titles.
fn unread_degrees<'a>(sheet: &Sheet<'a>) -> Option<(&'a [u8], &'a [u8])> {
    let longitude = sheet.titles.iter().find(|title| is_of_places(title)
        && has_word(title, &LONGITUDES))?;
    let latitude = sheet
        .titles
        .iter()
        .find(|title| is_of_places(title) && has_word(title, &LATITUDES))?;
    Some((trimmed(longitude), trimmed(latitude)))
}

// Appends how longitude and latitude are named that stand in other columns.
fn push_others(
    text: &mut Vec<u8>,
    titles: (&[u8], &[u8]),
    others: (&[u8], &[u8]),
) -> Result<(), AllocError> {
    push(text, ", and there are ")?;
    text.extend_from_slice(others.0)?;
    push(text, " and ")?;
    text.extend_from_slice(others.1)?;
    push(text, ": name these by ")?;
    push_option(text, "--lon", others.0)?;
    push(text, " ")?;
    push_option(text, "--lat", others.1)?;
    push(text, "; or, if ")?;
    text.extend_from_slice(titles.0)?;
    push(text, " and ")?;
    text.extend_from_slice(titles.1)?;
    push(text, " are metres, add 1000 to all")
}

// Appends how columns of metres are named that have degrees, the first of which are these.
fn push_named(
    text: &mut Vec<u8>,
    titles: (&[u8], &[u8]),
    first: (f64, f64),
) -> Result<(), AllocError> {
    push(text, ": say so by ")?;
    push_option(text, "--lon", titles.0)?;
    push(text, " ")?;
    push_option(text, "--lat", titles.1)?;
    push(text, " ")?;
    push_zone_option(text, zone_of(first.0, first.1))?;
    push(text, "; or, if they are metres, add 1000 to all")
}

// That columns of metres have degrees, the first of which are these.
fn degrees_text(
    alloc: Global,
    titles: (&[u8], &[u8]),
    others: Option<(&[u8], &[u8])>,
    first: (f64, f64),
    are_all: bool,
) -> Result<Vec<u8>, AllocError> {
    let mut text = Vec::new(alloc);
    push(&mut text, if are_all { "all of " } else { "most of " })?;
    text.extend_from_slice(titles.0)?;
    push(&mut text, " and ")?;
    text.extend_from_slice(titles.1)?;
    push(
        &mut text,
        if are_all {
            " lie within 180 by 90, as longitude and latitude do"
        } else {
            " lie within 360 by 90, as longitude and latitude do"
        },
    )?;
    match others {
        Some(others) => push_others(&mut text, titles, others)?,
        None => push_named(&mut text, titles, first)?,
    }
    Ok(text)
}

// Refuses columns of metres most of which may be degrees, or asks about them, where they have homerange's own titles and all lie
// near the corner. Whole numbers are no degrees.
pub(crate) fn check_degrees(
    alloc: Global,
    said: &mut Said,
    sheet: &Sheet<'_>,
    metres: Pair,
    rows: &[Row],
    first: Option<(f64, f64)>,
) -> Result<(), Stop> {
    let Some(first) = first else {
        return Ok(());
    };
    let counts = counts_of(rows, sheet.unit);
    if !counts.may_most_be() || sheet.columns.is_own && !counts.are_all_near() {
        return Ok(());
    }
    if sheet.columns.is_own {
        said.say(
            alloc,
            b"all fixes lie within 180 m by 90 m of the grid's corner: are they longitude and latitude?",
        )?;
        return Ok(());
    }
    let titles = (
        title_at(sheet, metres.first),
        title_at(sheet, metres.second),
    );
    let others = unread_degrees(sheet);
    let text = degrees_text(alloc, titles, others, first, counts.are_all_near());
    Err(refused(alloc, Kind::Degrees, None, text))
}
