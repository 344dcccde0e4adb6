// A map of a frame.

use crate::boundary::push_boundary;
use crate::dots::push_dots;
use crate::foot::push_foot;
use crate::frame::Frame;
use crate::grid::{LEFT, grid_of, push_labels, push_lines};
use crate::numbers::{DENSE, LARGE, Lettering, push_numbers};
use crate::outlines::push_outlines;
use crate::scene::Scene;
use page_drawing::{Pixels, push_place, push_svg};
use std::alloc::AllocError;

// Up to how many animals numbers are large.
const FEW: usize = 40;

// The height of what stands below a frame, in pixels.
const FOOT: i64 = 39;

// Appends the start of a drawing.
fn push_start(
    text: &mut Vec<u8>,
    frame: &Frame,
    members: &[usize],
    label: &[u8],
) -> Result<(), AllocError> {
    let class: &[u8] = if members.len() <= FEW {
        b"map"
    } else {
        b"map dense"
    };
    let width = frame.length(frame.wide() + frame.pixels(LEFT + 1));
    let height = frame.length(frame.high() + frame.pixels(FOOT));
    push_svg(text, class, width, height, label)
}

// Appends the start of what is drawn in the frame alone.
fn push_inner(text: &mut Vec<u8>, frame: &Frame) -> Result<(), AllocError> {
    text.extend_from_slice(b"<svg x=\"")?;
    push_place(text, frame.length(frame.pixels(LEFT)))?;
    text.extend_from_slice(b"\" y=\"0\" width=\"")?;
    push_place(text, frame.length(frame.wide()))?;
    text.extend_from_slice(b"\" height=\"")?;
    push_place(text, frame.length(frame.high()))?;
    text.extend_from_slice(b"\">\n")
}

// Appends the numbers of animals.
fn push_group(
    text: &mut Vec<u8>,
    frame: &Frame,
    scene: &Scene,
    members: &[usize],
    lettering: Lettering,
) -> Result<(), AllocError> {
    text.extend_from_slice(b"<g font-size=\"")?;
    push_place(
        text,
        Pixels {
            part: i128::from(lettering.height),
            whole: 1000,
        },
    )?;
    text.extend_from_slice(b"\" text-anchor=\"middle\">\n")?;
    push_numbers(text, frame, scene, lettering, members)?;
    text.extend_from_slice(b"</g>\n")
}

// Appends the edge of the frame.
fn push_rim(text: &mut Vec<u8>, frame: &Frame) -> Result<(), AllocError> {
    let wide = frame.length(frame.wide());
    text.extend_from_slice(b"<path class=\"rim\" d=\"M")?;
    push_place(text, frame.length(frame.pixels(LEFT)))?;
    text.extend_from_slice(b" 0h")?;
    push_place(text, wide)?;
    text.extend_from_slice(b"v")?;
    push_place(text, frame.length(frame.high()))?;
    text.extend_from_slice(b"h-")?;
    push_place(text, wide)?;
    text.extend_from_slice(b"Z\"/>\n")
}

// Appends what is drawn of animals.
fn push_animals(
    text: &mut Vec<u8>,
    frame: &Frame,
    scene: &Scene,
    members: &[usize],
) -> Result<(), AllocError> {
    push_boundary(text, frame, scene.boundary)?;
    push_dots(text, frame, scene, members)?;
    push_outlines(text, frame, scene, members)?;
    let lettering = if members.len() <= FEW { LARGE } else { DENSE };
    push_group(text, frame, scene, members, lettering)
}

/// Appends the map of some animals in a frame, with a label and the name of the reference system.
pub(crate) fn push_map(
    text: &mut Vec<u8>,
    frame: &Frame,
    scene: &Scene,
    members: &[usize],
    label: &[u8],
    system: &[u8],
) -> Result<(), AllocError> {
    let grid = grid_of(frame);
    push_start(text, frame, members, label)?;
    push_inner(text, frame)?;
    push_lines(text, frame, &grid)?;
    push_animals(text, frame, scene, members)?;
    text.extend_from_slice(b"</svg>\n")?;
    push_rim(text, frame)?;
    push_labels(text, frame, &grid)?;
    push_foot(text, frame, system)?;
    text.extend_from_slice(b"</svg>")
}
