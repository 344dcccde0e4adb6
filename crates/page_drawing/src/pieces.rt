// Pieces of SVG.

use crate::pixels::{Pixels, Spot};
use crate::place::push_place;
use std::alloc::AllocError;

/// Appends the start of a text at a spot, up to its other attributes.
///
/// # Errors
///
/// Memory ran out.
pub fn push_text(text: &mut Vec<u8>, at: Spot) -> Result<(), AllocError> {
    text.extend_from_slice(b"<text x=\"")?;
    push_place(text, at.x)?;
    text.extend_from_slice(b"\" y=\"")?;
    push_place(text, at.y)?;
    text.extend_from_slice(b"\"")
}

// Appends both places of a spot.
fn push_spot(text: &mut Vec<u8>, at: Spot) -> Result<(), AllocError> {
    push_place(text, at.x)?;
    text.extend_from_slice(b" ")?;
    push_place(text, at.y)
}

/// Appends a line from a spot to another, with its other attributes.
///
/// # Errors
///
/// Memory ran out.
pub fn push_line(
    text: &mut Vec<u8>,
    from: Spot,
    to: Spot,
    attributes: &[u8],
) -> Result<(), AllocError> {
    text.extend_from_slice(b"<path d=\"M")?;
    push_spot(text, from)?;
    text.extend_from_slice(b"L")?;
    push_spot(text, to)?;
    text.extend_from_slice(b"\"")?;
    text.extend_from_slice(attributes)?;
    text.extend_from_slice(b"/>")
}

/// Appends the start of a drawing of a class, so wide and so high, of which a reader of screens says the label. The label has
/// no markup.
///
/// # Errors
///
/// Memory ran out.
pub fn push_svg(
    text: &mut Vec<u8>,
    class: &[u8],
    width: Pixels,
    height: Pixels,
    label: &[u8],
) -> Result<(), AllocError> {
    text.extend_from_slice(b"<svg class=\"")?;
    text.extend_from_slice(class)?;
    text.extend_from_slice(b"\" viewBox=\"0 0 ")?;
    push_spot(
        text,
        Spot {
            x: width,
            y: height,
        },
    )?;
    text.extend_from_slice(b"\" role=\"img\" aria-label=\"")?;
    text.extend_from_slice(label)?;
    text.extend_from_slice(b"\">\n")
}
