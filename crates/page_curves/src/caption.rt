// What stands above a drawing.

use crate::curve::{Curve, last_area};
use page_drawing::{push_colour, push_number};
use page_text::{push_fixes, push_named, push_with_sign};
use range_plane::Scale;
use std::alloc::AllocError;

// Appends the number of an animal in its colour.
fn push_numbered(text: &mut Vec<u8>, number: u64) -> Result<(), AllocError> {
    text.extend_from_slice(b"<b class=\"")?;
    push_colour(text, number)?;
    text.extend_from_slice(b"\">")?;
    push_number(text, u128::from(number))?;
    text.extend_from_slice(b"</b> ")
}

// Appends the name, where there is room.
fn push_name(text: &mut Vec<u8>, curve: Curve, columns: u32) -> Result<(), AllocError> {
    if columns > 4 {
        return Ok(());
    }
    push_named(text, curve.name)?;
    text.extend_from_slice(b": ")
}

// Appends the number of fixes, where there is room.
fn push_count(text: &mut Vec<u8>, curve: Curve, columns: u32) -> Result<(), AllocError> {
    if columns > 6 {
        return Ok(());
    }
    text.extend_from_slice(b", ")?;
    push_fixes(text, curve.rows.len() as u64)
}

/// Appends the caption of a drawing, of which so many stand beside each other: the number, the name where there is room, and where
/// the curve ends.
pub(crate) fn push_caption(
    text: &mut Vec<u8>,
    curve: Curve,
    columns: u32,
    unit: Scale,
) -> Result<(), AllocError> {
    push_numbered(text, curve.number)?;
    push_name(text, curve, columns)?;
    push_with_sign(text, u128::from(last_area(curve.rows)), unit)?;
    push_count(text, curve, columns)
}
