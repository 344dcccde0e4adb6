// The zone of UTM coordinates.

use crate::ranked::{Ranked, push_ranked};
use crate::rows::{record_at, taken_fix};
use crate::said::Said;
use crate::sheet::Sheet;
use crate::stop::{Stop, refused};
use crate::utm_beside::check_beside;
use crate::words::{push, push_option};
use crate::zones::{Zoned, first_zone, ranked_zones, zone_counts};
use split_reading::{Row, Zone};
use split_refusal::Kind;
use std::alloc::{AllocError, Global};

// Whether a fix is taken and has metres.
fn has_metres(row: &Row) -> bool {
    match taken_fix(row) {
        Some(fix) => fix.metres.is_some(),
        None => false,
    }
}

// Whether it is taken and has none.
fn is_bare(row: &Row) -> bool {
    match taken_fix(row) {
        Some(fix) => fix.metres.is_none(),
        None => false,
    }
}

// Whether a fix is taken, has metres and is of no zone.
fn is_unnamed(row: &Row) -> bool {
    match taken_fix(row) {
        Some(fix) => fix.metres.is_some() && fix.zone.is_none(),
        None => false,
    }
}

// Whether a fix is taken and has longitude and latitude.
fn has_degrees(row: &Row) -> bool {
    match taken_fix(row) {
        Some(fix) => fix.degrees.is_some(),
        None => false,
    }
}

// Appends the remedy: to name the zone of all fixes, into which longitude and latitude are projected, or to make tables of single
// zones, where there are none.
fn push_remedy(text: &mut Vec<u8>, zones: &[Ranked], rows: &[Row]) -> Result<(), AllocError> {
    if !rows.iter().any(has_degrees) {
        return push(
            text,
            "make a table of each, since there is no longitude and latitude to project into one",
        );
    }
    push(text, "name the zone of all, such as ")?;
    match zones.first() {
        Some(first) => push_option(text, "--zone", &first.word),
        None => push_option(text, "--zone", b"33N"),
    }
}

// That fixes lie in several zones.
fn several_text(alloc: Global, zones: &[Ranked], rows: &[Row]) -> Result<Vec<u8>, AllocError> {
    let mut text = Vec::new(alloc);
    push(&mut text, "fixes lie in several zones (")?;
    push_ranked(&mut text, zones)?;
    push(&mut text, "): ")?;
    push_remedy(&mut text, zones, rows)?;
    Ok(text)
}

// That a fix has no metres.
fn bare_text(alloc: Global, zones: &[Ranked], rows: &[Row]) -> Result<Vec<u8>, AllocError> {
    let mut text = Vec::new(alloc);
    push(&mut text, "there are no UTM coordinates: ")?;
    push_remedy(&mut text, zones, rows)?;
    Ok(text)
}

// Refuses metres of a fix of no zone, where none was named for all.
fn check_named(alloc: Global, sheet: &Sheet<'_>, rows: &[Row]) -> Result<(), Stop> {
    if sheet.zone.is_some() {
        return Ok(());
    }
    match rows.iter().position(is_unnamed) {
        Some(place) => {
            let words = b"there is no utm-zone: name that of its coordinates, such as --zone 33N";
            let text = Vec::from_slice(alloc, words);
            Err(refused(alloc, Kind::Zone, Some(record_at(place)), text))
        }
        None => Ok(()),
    }
}

// Refuses metres of several zones, and fixes without any beside them, where no zone was named.
fn check_one(alloc: Global, sheet: &Sheet<'_>, rows: &[Row], zones: &[Ranked]) -> Result<(), Stop> {
    if sheet.zone.is_some() {
        return Ok(());
    }
    if zones.len() > 1 {
        let text = several_text(alloc, zones, rows);
        return Err(refused(alloc, Kind::Zone, None, text));
    }
    match rows.iter().position(is_bare) {
        Some(place) => {
            let text = bare_text(alloc, zones, rows);
            Err(refused(alloc, Kind::Zone, Some(record_at(place)), text))
        }
        None => Ok(()),
    }
}

// Says that the metres are taken, and of which zones their fixes are.
fn tell_zones(alloc: Global, said: &mut Said, zones: &[Ranked]) -> Result<(), Stop> {
    let mut text = Vec::new(alloc);
    push(&mut text, "UTM coordinates are those of the export; zone: ")?;
    push_ranked(&mut text, zones)?;
    said.say(alloc, &text)?;
    Ok(())
}

// The one zone of the UTM coordinates of a table, which is said; none where longitude and latitude have to be projected: fixes
// have no metres, or those of several zones or of another one than the named one.
pub(crate) fn utm_zone(
    alloc: Global,
    said: &mut Said,
    sheet: &Sheet<'_>,
    rows: &[Row],
) -> Result<Option<Zone>, Stop> {
    if !rows.iter().any(has_metres) {
        return Ok(None);
    }
    check_named(alloc, sheet, rows)?;
    let zoned = Zoned::Metres { named: sheet.zone };
    let counts = zone_counts(alloc, rows, zoned)?;
    let zones = ranked_zones(alloc, &counts)?;
    check_one(alloc, sheet, rows, &zones)?;
    let Some(zone) = first_zone(&zones) else {
        return Ok(None);
    };
    if zones.len() > 1 || rows.iter().any(is_bare) || zone != sheet.zone.unwrap_or(zone) {
        return Ok(None);
    }
    check_beside(alloc, sheet, rows, zone)?;
    tell_zones(alloc, said, &zones)?;
    Ok(Some(zone))
}
