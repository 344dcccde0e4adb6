// Fixes that lie far from the others of an animal.

use crate::exports::{Exports, push_records};
use crate::figures::push_grouped;
use crate::said::Said;
use crate::sheet::Sheet;
use crate::tracks::Herd;
use crate::words::push;
use range_plane::OutOfMemory;
use split_doubts::{Axis, FarFixes, far_fixes};
use split_tracks::Entry;
use std::alloc::{AllocError, Global};

// A distance of so many metres or more is said in kilometres.
const IN_KILOMETRES: u64 = 10_000;

// Appends a distance: in metres, and a great one in whole kilometres, the nearest.
pub(crate) fn push_distance(text: &mut Vec<u8>, metres: u64) -> Result<(), AllocError> {
    if metres < IN_KILOMETRES {
        push_grouped(text, metres)?;
        return push(text, " m");
    }
    push_grouped(text, metres.saturating_add(500) / 1000)?;
    push(text, " km")
}

// That fixes of an animal lie far from its others.
fn far_text(
    alloc: Global,
    name: &[u8],
    far: &FarFixes<Global>,
    exports: &Exports<'_>,
) -> Result<Vec<u8>, AllocError> {
    let mut text = Vec::new(alloc);
    push_grouped(&mut text, far.records.len() as u64)?;
    push(&mut text, " of ")?;
    push_grouped(&mut text, far.fixes as u64)?;
    push(&mut text, " fixes of ")?;
    text.extend_from_slice(name)?;
    push(&mut text, " lie ")?;
    push_distance(&mut text, far.metres)?;
    push(&mut text, " from the others: records ")?;
    push_records(&mut text, &far.records, exports)?;
    push(&mut text, ": are they hers?")?;
    Ok(text)
}

// Asks about fixes that lie far from the others, if there are some.
fn ask_far(
    alloc: Global,
    said: &mut Said,
    name: &[u8],
    far: &Option<FarFixes<Global>>,
    exports: &Exports<'_>,
) -> Result<(), OutOfMemory> {
    match far {
        Some(far) => said.say(alloc, &far_text(alloc, name, far, exports)?),
        None => Ok(()),
    }
}

// Whether fixes that lie far along one axis are those that do along the other.
fn are_same(one: &Option<FarFixes<Global>>, other: &Option<FarFixes<Global>>) -> bool {
    match (one, other) {
        (Some(one), Some(other)) => one.records.as_slice() == other.records.as_slice(),
        _ => false,
    }
}

// Of fixes that lie far along one axis and along the other, those that lie farther.
fn farther<'a>(
    one: &'a Option<FarFixes<Global>>,
    other: &'a Option<FarFixes<Global>>,
) -> &'a Option<FarFixes<Global>> {
    match (one, other) {
        (Some(first), Some(second)) if first.metres < second.metres => other,
        _ => one,
    }
}

// Asks about the fixes of a track that lie far from its others: those by their eastings, and those by their northings. Where
// they are the same it asks once, by the axis along which they lie farther.
fn ask_far_of(
    alloc: Global,
    said: &mut Said,
    name: &[u8],
    track: &[Entry],
    sheet: &Sheet<'_>,
) -> Result<(), OutOfMemory> {
    let by_easting = far_fixes(alloc, Axis::Easting, track, sheet.unit)?;
    let by_northing = far_fixes(alloc, Axis::Northing, track, sheet.unit)?;
    if are_same(&by_easting, &by_northing) {
        let far = farther(&by_easting, &by_northing);
        return ask_far(alloc, said, name, far, &sheet.exports);
    }
    ask_far(alloc, said, name, &by_easting, &sheet.exports)?;
    ask_far(alloc, said, name, &by_northing, &sheet.exports)
}

// Asks about fixes that lie far from the others of their animal.
pub(crate) fn ask_far_fixes(
    alloc: Global,
    said: &mut Said,
    herd: &Herd<'_>,
    sheet: &Sheet<'_>,
) -> Result<(), OutOfMemory> {
    for animal in herd.order {
        ask_far_of(alloc, said, herd.name(*animal), herd.track(*animal), sheet)?;
    }
    Ok(())
}
