// The numbers of animals, put where they cover no other.

ghost use Rattle.std.specs.Prelude.{◌≤◌, ◌^◌};
ghost use Rattle.page_drawing.specs.Bounds.{IsWithin};

use crate::frame::Frame;
use crate::place::{Near, Place};
use crate::scene::{Scene, Shape, extent_of_points};
use crate::times::small;
use page_drawing::{push_colour, push_line, push_number, push_text};
use std::alloc::AllocError;

// How large numbers are, in thousandths of a pixel: their height, half the width of a digit, and how far it is from one ring of
// places around a number to the next, straight on and along each axis on a slant.
#[derive(Clone, Copy)]
pub(crate) struct Lettering {
    pub height: u16,
    digit: u16,
    straight: u16,
    slant: u16,
}

// The lettering where few animals are drawn, and where many are.
pub(crate) const LARGE: Lettering = Lettering {
    height: 11_000,
    digit: 3_410,
    straight: 7_700,
    slant: 5_390,
};

pub(crate) const DENSE: Lettering = Lettering {
    height: 10_500,
    digit: 3_255,
    straight: 7_350,
    slant: 5_145,
};

// How many rings of places there are around a number.
const RINGS: u8 = 15;

// The directions of a ring's places, to the right and down.
const AROUND: [(i8, i8); 8] = [
    (0, -1),
    (1, -1),
    (1, 0),
    (1, 1),
    (0, 1),
    (-1, 1),
    (-1, 0),
    (-1, -1),
];

// The room of a number.
#[derive(Clone, Copy)]
struct Room {
    left: i128,
    top: i128,
    right: i128,
    bottom: i128,
}

// How many digits a number has.
fn digit_count(number: u32) -> u8 {
    match number {
        0..=9 => 1,
        10..=99 => 2,
        100..=999 => 3,
        1_000..=9_999 => 4,
        10_000..=99_999 => 5,
        100_000..=999_999 => 6,
        1_000_000..=9_999_999 => 7,
        10_000_000..=99_999_999 => 8,
        100_000_000..=999_999_999 => 9,
        _ => 10,
    }
}

// The room of a number at a place, with so many digits.
fn room_at(frame: &Frame, lettering: Lettering, at: Near, digits: u8) -> Room {
    let half = frame.thousandths(small(lettering.digit, digits) + 1000);
    let high = frame.thousandths(i64::from(lettering.height) / 2);
    Room {
        left: at.x - half,
        top: at.y - high,
        right: at.x + half,
        bottom: at.y + high,
    }
}

// Whether two rooms overlap.
fn overlap(one: Room, other: Room) -> bool {
    one.left < other.right
        && other.left < one.right
        && one.top < other.bottom
        && other.top < one.bottom
}

// Whether a room lies within the frame and overlaps no other.
fn is_free(frame: &Frame, taken: &[Room], room: Room) -> bool {
    0 <= room.left
        && 0 <= room.top
        && room.right <= frame.wide()
        && room.bottom <= frame.high()
        && !taken.iter().any(|own| overlap(room, *own))
}

// So far in a direction along an axis.
fn along(direction: i8, length: i64) -> i64
    requires { IsWithin (2 ^ 24) length }
    ensures { IsWithin (2 ^ 24) result }
{
    match direction {
        0 => 0,
        1 => length,
        _ => -length,
    }
}

// The place on a ring in a direction.
fn place_in(
    frame: &Frame,
    lettering: Lettering,
    middle: Place,
    ring: u8,
    direction: (i8, i8),
) -> Near {
    let (right, down) = direction;
    let length = if right != 0 && down != 0 {
        small(lettering.slant, ring)
    } else {
        small(lettering.straight, ring)
    };
    Near {
        x: middle.x + frame.thousandths(along(right, length)),
        y: middle.y + frame.thousandths(along(down, length)),
    }
}

// The first free place on a ring.
fn free_on_ring(
    frame: &Frame,
    lettering: Lettering,
    taken: &[Room],
    middle: Place,
    ring: u8,
    digits: u8,
) -> Option<Near> {
    for direction in AROUND {
        let at = place_in(frame, lettering, middle, ring, direction);
        if is_free(frame, taken, room_at(frame, lettering, at, digits)) {
            return Some(at);
        }
    }
    None
}

// The first free place around a middle, nearer ones first.
fn free_around(
    frame: &Frame,
    lettering: Lettering,
    taken: &[Room],
    middle: Place,
    digits: u8,
) -> Option<Near> {
    for ring in 1..RINGS + 1 {
        let found = free_on_ring(frame, lettering, taken, middle, ring, digits);
        if found.is_some() {
            return found;
        }
    }
    None
}

// Where a number stands: in the middle, unless it would cover what is flat there, or around it. Where nothing is free, it stands
// in the middle.
fn find(
    frame: &Frame,
    lettering: Lettering,
    taken: &[Room],
    middle: Place,
    is_flat: bool,
    digits: u8,
) -> Near {
    let own = middle.near();
    if !is_flat && is_free(frame, taken, room_at(frame, lettering, own, digits)) {
        return own;
    }
    match free_around(frame, lettering, taken, middle, digits) {
        Some(at) => at,
        None => own,
    }
}

// Whether a number stands so far from the middle that a line leads to it.
fn has_leader(frame: &Frame, lettering: Lettering, middle: Place, at: Near) -> bool {
    let far = frame.thousandths(i64::from(lettering.height) * 3 / 2);
    let right = (at.x - middle.x).unsigned_abs();
    let down = (at.y - middle.y).unsigned_abs();
    right + down > far.unsigned_abs()
}

// Appends a line from a middle to its number, if that stands far from it.
fn push_leader(
    text: &mut Vec<u8>,
    frame: &Frame,
    lettering: Lettering,
    middle: Place,
    at: Near,
) -> Result<(), AllocError> {
    if !has_leader(frame, lettering, middle, at) {
        return Ok(());
    }
    let (from, to) = (frame.spot(middle.x, middle.y), frame.spot(at.x, at.y));
    push_line(text, from, to, b" class=\"leader\"")
}

// Appends a number at a place.
fn push_at(
    text: &mut Vec<u8>,
    frame: &Frame,
    lettering: Lettering,
    at: Near,
    number: u32,
) -> Result<(), AllocError> {
    let below = frame.thousandths(i64::from(lettering.height) * 35 / 100);
    push_text(text, frame.spot(at.x, at.y + below))?;
    text.extend_from_slice(b" class=\"number ")?;
    push_colour(text, u64::from(number))?;
    text.extend_from_slice(b"\">")?;
    push_number(text, u128::from(number))?;
    text.extend_from_slice(b"</text>\n")
}

// The middle of the innermost polygon of an animal, and whether it is flat.
fn middle_of(frame: &Frame, scene: &Scene, shape: &Shape) -> Option<(Place, bool)> {
    let corners = shape.polygons.last()?;
    let extent = extent_of_points(scene.plane, corners)?;
    let middle = Place {
        x: frame.across(extent.middle_east()),
        y: frame.down(extent.middle_north()),
    };
    Some((middle, corners.len() < 3))
}

// Appends the number of an animal, and takes its room.
fn push_shape(
    text: &mut Vec<u8>,
    frame: &Frame,
    scene: &Scene,
    lettering: Lettering,
    taken: &mut Vec<Room>,
    shape: &Shape,
) -> Result<(), AllocError> {
    let Some((middle, is_flat)) = middle_of(frame, scene, shape) else {
        return Ok(());
    };
    let digits = digit_count(shape.number);
    let at = find(frame, lettering, taken, middle, is_flat, digits);
    taken.push(room_at(frame, lettering, at, digits))?;
    push_leader(text, frame, lettering, middle, at)?;
    push_at(text, frame, lettering, at, shape.number)
}

/// Appends the numbers of animals.
pub(crate) fn push_numbers(
    text: &mut Vec<u8>,
    frame: &Frame,
    scene: &Scene,
    lettering: Lettering,
    members: &[usize],
) -> Result<(), AllocError> {
    let mut taken = Vec::new(scene.alloc);
    for member in members {
        if let Some(shape) = scene.shapes.get(*member) {
            push_shape(text, frame, scene, lettering, &mut taken, shape)?;
        }
    }
    Ok(())
}
