// The shift of a local grid.

use crate::figures::{push_metres, push_signed};
use crate::magnitudes::ask_magnitudes;
use crate::said::Said;
use crate::stop::{Stop, refused};
use crate::words::push;
use range_plane::{OutOfMemory, Scale};
use split_fates::{extent_of, shift_of};
use split_reading::Row;
use split_refusal::Kind;
use std::alloc::{AllocError, Global};

// How many metres a grid is wide.
fn width_of(unit: Scale) -> i64 {
    match unit {
        Scale::Metre => unit.limit(),
        Scale::Decimetre => unit.limit() / 10,
    }
}

// That coordinates from the least to the greatest are wider than the grid.
fn wide_text(
    alloc: Global,
    side: &str,
    unit: Scale,
    least: i64,
    most: i64,
) -> Result<Vec<u8>, AllocError> {
    let mut text = Vec::new(alloc);
    push(&mut text, side)?;
    push(&mut text, " go from ")?;
    push_metres(&mut text, least, unit)?;
    push(&mut text, " to ")?;
    push_metres(&mut text, most, unit)?;
    push(&mut text, ", which is wider than a grid of ")?;
    push_signed(&mut text, width_of(unit))?;
    push(&mut text, " metres: is one of them wrong?")?;
    Ok(text)
}

// By how many metres one side is shifted.
fn side_shift(alloc: Global, side: &str, unit: Scale, least: i64, most: i64) -> Result<i64, Stop> {
    match shift_of(unit, least, most) {
        Some(shift) => Ok(shift),
        None => {
            let text = wide_text(alloc, side, unit, least, most);
            Err(refused(alloc, Kind::Grid, None, text))
        }
    }
}

// Says by how many metres coordinates are shifted.
fn tell_shift(alloc: Global, said: &mut Said, shift: (i64, i64)) -> Result<(), OutOfMemory> {
    if shift == (0, 0) {
        return Ok(());
    }
    let mut text = Vec::new(alloc);
    push(&mut text, "coordinates are shifted by ")?;
    push_signed(&mut text, shift.0)?;
    push(&mut text, " m east and ")?;
    push_signed(&mut text, shift.1)?;
    push(&mut text, " m north")?;
    said.say(alloc, &text)
}

// By how many metres coordinates are shifted, so that those of fixes that are used are on the grid. Asks about such as are hardly metres.
pub(crate) fn find_shift(
    alloc: Global,
    said: &mut Said,
    unit: Scale,
    rows: &[Row],
) -> Result<(i64, i64), Stop> {
    let Some(extent) = extent_of(rows) else {
        return Ok((0, 0));
    };
    let (west, south) = extent.least;
    let (east, north) = extent.most;
    let shift = (
        side_shift(alloc, "eastings", unit, west, east)?,
        side_shift(alloc, "northings", unit, south, north)?,
    );
    tell_shift(alloc, said, shift)?;
    ask_magnitudes(alloc, said, &extent, unit)?;
    Ok(shift)
}
