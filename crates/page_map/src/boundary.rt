// The rings of a boundary.

use crate::frame::Frame;
use crate::land::Ground;
use crate::place::Place;
use page_drawing::push_place;
use std::alloc::AllocError;

// Appends a place of a path.
pub(crate) fn push_corner(text: &mut Vec<u8>, frame: &Frame, at: Place) -> Result<(), AllocError> {
    push_place(text, frame.length(at.x))?;
    text.extend_from_slice(b" ")?;
    push_place(text, frame.length(at.y))
}

// Whether a place is at least half a pixel from another, across or down.
fn is_far(frame: &Frame, one: Place, other: Place) -> bool {
    let half = frame.thousandths(500).unsigned_abs();
    (one.x - other.x).unsigned_abs() >= half || (one.y - other.y).unsigned_abs() >= half
}

// Appends a ring through points, without those nearer to the one before.
fn push_ring(text: &mut Vec<u8>, frame: &Frame, ring: &[Ground]) -> Result<(), AllocError> {
    let Some((first, others)) = ring.split_first() else {
        return Ok(());
    };
    let mut last = frame.place_of(*first);
    text.extend_from_slice(b"M")?;
    push_corner(text, frame, last)?;
    for point in others {
        let at = frame.place_of(*point);
        if is_far(frame, at, last) {
            text.extend_from_slice(b"L")?;
            push_corner(text, frame, at)?;
            last = at;
        }
    }
    text.extend_from_slice(b"Z")
}

/// Appends the boundary, if there is one.
pub(crate) fn push_boundary(
    text: &mut Vec<u8>,
    frame: &Frame,
    boundary: &[Vec<Ground>],
) -> Result<(), AllocError> {
    if boundary.is_empty() {
        return Ok(());
    }
    text.extend_from_slice(b"<path class=\"boundary\" d=\"")?;
    for ring in boundary {
        push_ring(text, frame, ring)?;
    }
    text.extend_from_slice(b"\"/>\n")
}
