// What helps to read a curve.

use crate::axes::Axes;
use page_drawing::{Pixels, Spot, push_colour, push_line, push_place};
use std::alloc::AllocError;

// Appends the dot at the fix of a number, at 95 per cent of the area.
fn push_dot(text: &mut Vec<u8>, axes: &Axes, number: u64, fix: u64) -> Result<(), AllocError> {
    text.extend_from_slice(b"<circle class=\"")?;
    push_colour(text, number)?;
    text.extend_from_slice(b" since\" cx=\"")?;
    push_place(text, axes.x(fix))?;
    text.extend_from_slice(b"\" cy=\"")?;
    push_place(text, axes.y(19, 20, 0))?;
    let is_high = axes.layout.bottom() > 76;
    text.extend_from_slice(if is_high {
        b"\" r=\"3.0\"/>\n"
    } else {
        b"\" r=\"2.2\"/>\n"
    })
}

/// Appends the line at 95 per cent of the area of all fixes, and a dot at the fix from which on the curve stayed above it, if there
/// is one.
pub(crate) fn push_aid(
    text: &mut Vec<u8>,
    axes: &Axes,
    number: u64,
    within: Option<usize>,
) -> Result<(), AllocError> {
    let Some(fix) = within else {
        return Ok(());
    };
    let y = axes.y(19, 20, 0);
    let from = Spot {
        x: Pixels::new(axes.layout.left()),
        y,
    };
    push_line(text, from, Spot { x: axes.end(), y }, b" class=\"aid\"")?;
    text.extend_from_slice(b"\n")?;
    push_dot(text, axes, number, fix as u64)
}
