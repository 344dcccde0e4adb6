// Polygons.

use crate::boundary::push_corner;
use crate::frame::Frame;
use crate::land::{Plane, ground_of};
use crate::scene::{Scene, Shape};
use page_drawing::{push_colour, push_number};
use range_plane::Point;
use std::alloc::AllocError;

/// How many classes of lines the page has, from l0 on, from the highest level on.
pub const STYLES: usize = 8;

// Appends the ring through the corners of a polygon.
fn push_polygon(
    text: &mut Vec<u8>,
    frame: &Frame,
    plane: Plane,
    corners: &[Point],
) -> Result<(), AllocError> {
    for (place, corner) in corners.iter().enumerate() {
        text.extend_from_slice(if place == 0 { b"M" } else { b"L" })?;
        push_corner(text, frame, frame.place_of(ground_of(plane, *corner)))?;
    }
    text.extend_from_slice(b"Z")
}

// Appends the class of a polygon, of so many corners. What has no area is a point or a line.
fn push_class(text: &mut Vec<u8>, level: usize, corners: usize) -> Result<(), AllocError> {
    if corners < 3 {
        return text.extend_from_slice(b"flat");
    }
    text.extend_from_slice(b"l")?;
    push_number(text, (level % STYLES) as u128)
}

// Appends the polygon of an animal at a level, if it has one.
fn push_outline(
    text: &mut Vec<u8>,
    frame: &Frame,
    plane: Plane,
    shape: &Shape,
    level: usize,
) -> Result<(), AllocError> {
    let Some(corners) = shape.polygons.get(level) else {
        return Ok(());
    };
    text.extend_from_slice(b"<path class=\"")?;
    push_class(text, level, corners.len())?;
    text.extend_from_slice(b" ")?;
    push_colour(text, u64::from(shape.number))?;
    text.extend_from_slice(b"\" d=\"")?;
    push_polygon(text, frame, plane, corners)?;
    text.extend_from_slice(b"\"/>\n")
}

// Appends the polygons of a level.
fn push_level(
    text: &mut Vec<u8>,
    frame: &Frame,
    scene: &Scene,
    members: &[usize],
    level: usize,
) -> Result<(), AllocError> {
    for member in members {
        if let Some(shape) = scene.shapes.get(*member) {
            push_outline(text, frame, scene.plane, shape, level)?;
        }
    }
    Ok(())
}

// How many levels animals have at most.
fn levels(scene: &Scene, members: &[usize]) -> usize {
    let mut most = 0;
    for member in members {
        if let Some(shape) = scene.shapes.get(*member) {
            most = shape.polygons.len().max(most);
        }
    }
    most
}

/// Appends the polygons of animals, those of the highest level below the others.
pub(crate) fn push_outlines(
    text: &mut Vec<u8>,
    frame: &Frame,
    scene: &Scene,
    members: &[usize],
) -> Result<(), AllocError> {
    for level in 0..levels(scene, members) {
        push_level(text, frame, scene, members, level)?;
    }
    Ok(())
}
