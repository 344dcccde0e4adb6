// The grid in a frame, in metres.

ghost use Rattle.std.specs.Prelude.{◌<◌, ◌≤◌, ◌^◌, IfSome};
ghost use Rattle.page_drawing.specs.Bounds.{IsWithin};

use crate::frame::Frame;
use crate::land::GROUND_LIMIT;
use crate::times::times;
use page_drawing::{Step, push_line, push_place, push_text, push_value, size_of, step_of};
use std::alloc::AllocError;

// How many steps the shorter side of a frame has at most.
const MOST: u8 = 5;

// The room on the left of a frame, in pixels, and half the room of a label.
pub(crate) const LEFT: i64 = 15;

const LABEL: i64 = 26;

// The greatest number of a line.
const LIMIT: i64 = 1 << 50;

// A grid: the distance between its lines, and the numbers of the first and the last one of both axes.
#[derive(Clone, Copy)]
pub(crate) struct Grid {
    step: Step,
    first_east: i64,
    last_east: i64,
    first_north: i64,
    last_north: i64,
    ghost first_east_within: { IsWithin (2 ^ 50) first_east },
    ghost last_east_within: { IsWithin (2 ^ 50) last_east },
    ghost first_north_within: { IsWithin (2 ^ 50) first_north },
    ghost last_north_within: { IsWithin (2 ^ 50) last_north },
}

// How many steps there are in a length, of which half a millimetre has so many units, rounded down.
fn steps_in(length: i128, grain: u64, step: Step) -> i64
    requires { 0 < grain }
    ensures { IsWithin (2 ^ 50) result }
{
    let halves = length.div_euclid(i128::from(grain));
    let steps = halves.div_euclid(2 * i128::from(size_of(step)));
    let limit = i128::from(LIMIT);
    steps.clamp(-limit, limit) as i64
}

// The number of the first line of an axis and that of the last, by the middle and half the length of its side.
fn ends(middle: i64, half: u128, grain: u64, step: Step) -> (i64, i64)
    requires middle { IsWithin (2 ^ 43) middle }
    requires half { half ≤ 2 ^ 100 }
    requires grain_some { 0 < grain }
    requires grain_most { grain ≤ 2 ^ 25 }
    ensures first { IsWithin (2 ^ 50) result.0 }
    ensures last { IsWithin (2 ^ 50) result.1 }
{
    let (middle, half) = (times(middle, grain), half as i128);
    (
        -steps_in(half - middle, grain, step),
        steps_in(half + middle, grain, step),
    )
}

// The grid of a frame.
pub(crate) fn grid_of(frame: &Frame) -> Grid {
    let shorter = frame.half_width.min(frame.half_height);
    let step = step_of(shorter, frame.grain as u32, MOST);
    let (first_east, last_east) = ends(frame.middle_east, frame.half_width, frame.grain, step);
    let (first_north, last_north) = ends(frame.middle_north, frame.half_height, frame.grain, step);
    Grid {
        step,
        first_east,
        last_east,
        first_north,
        last_north,
    }
}

// Where a line lies on the ground, if within the limits, in half millimetres.
fn ground_at(step: Step, count: i64) -> Option<i64>
    ensures { IfSome result (IsWithin (2 ^ 43)) }
{
    if count < -LIMIT || LIMIT < count {
        return None;
    }
    let at = times(count, size_of(step));
    let limit = i128::from(GROUND_LIMIT);
    if -limit <= at && at <= limit {
        Some(2 * at as i64)
    } else {
        None
    }
}

// Whether a label at a place along a side, so long, is not too near to its ends.
fn has_room(frame: &Frame, at: i128, side: i128) -> bool
    requires side { IsWithin (2 ^ 101) side }
{
    let room = frame.pixels(LABEL);
    room < at && at < side - room
}

// Appends a line to the north.
fn push_vertical(
    text: &mut Vec<u8>,
    frame: &Frame,
    step: Step,
    count: i64,
) -> Result<(), AllocError> {
    let Some(east) = ground_at(step, count) else {
        return Ok(());
    };
    let x = frame.across(east);
    push_line(text, frame.spot(x, 0), frame.spot(x, frame.high()), b"")?;
    text.extend_from_slice(b"\n")
}

// Appends a line to the east.
fn push_horizontal(
    text: &mut Vec<u8>,
    frame: &Frame,
    step: Step,
    count: i64,
) -> Result<(), AllocError> {
    let Some(north) = ground_at(step, count) else {
        return Ok(());
    };
    let y = frame.down(north);
    push_line(text, frame.spot(0, y), frame.spot(frame.wide(), y), b"")?;
    text.extend_from_slice(b"\n")
}

// Appends the label of a line to the north, below it.
fn push_below(text: &mut Vec<u8>, frame: &Frame, step: Step, count: i64) -> Result<(), AllocError> {
    let Some(east) = ground_at(step, count) else {
        return Ok(());
    };
    let x = frame.across(east);
    if !has_room(frame, x, frame.wide()) {
        return Ok(());
    }
    let y = frame.high() + frame.pixels(11);
    push_text(text, frame.spot(x + frame.pixels(LEFT), y))?;
    text.extend_from_slice(b" text-anchor=\"middle\">")?;
    push_value(text, step, count)?;
    text.extend_from_slice(b"</text>\n")
}

// Appends the label of a line to the east, turned, on its left.
fn push_left(text: &mut Vec<u8>, frame: &Frame, step: Step, count: i64) -> Result<(), AllocError> {
    let Some(north) = ground_at(step, count) else {
        return Ok(());
    };
    let y = frame.down(north);
    if !has_room(frame, y, frame.high()) {
        return Ok(());
    }
    let spot = frame.spot(frame.pixels(LEFT - 4), y);
    push_text(text, spot)?;
    text.extend_from_slice(b" text-anchor=\"middle\" transform=\"rotate(-90 ")?;
    push_place(text, spot.x)?;
    text.extend_from_slice(b" ")?;
    push_place(text, spot.y)?;
    text.extend_from_slice(b")\">")?;
    push_value(text, step, count)?;
    text.extend_from_slice(b"</text>\n")
}

// Appends the lines to the north.
fn push_all_vertical(text: &mut Vec<u8>, frame: &Frame, grid: &Grid) -> Result<(), AllocError> {
    for count in grid.first_east..grid.last_east + 1 {
        push_vertical(text, frame, grid.step, count)?;
    }
    Ok(())
}

// Appends the lines to the east.
fn push_all_horizontal(text: &mut Vec<u8>, frame: &Frame, grid: &Grid) -> Result<(), AllocError> {
    for count in grid.first_north..grid.last_north + 1 {
        push_horizontal(text, frame, grid.step, count)?;
    }
    Ok(())
}

// Appends the labels below the frame.
fn push_all_below(text: &mut Vec<u8>, frame: &Frame, grid: &Grid) -> Result<(), AllocError> {
    for count in grid.first_east..grid.last_east + 1 {
        push_below(text, frame, grid.step, count)?;
    }
    Ok(())
}

// Appends the labels on the left of the frame.
fn push_all_left(text: &mut Vec<u8>, frame: &Frame, grid: &Grid) -> Result<(), AllocError> {
    for count in grid.first_north..grid.last_north + 1 {
        push_left(text, frame, grid.step, count)?;
    }
    Ok(())
}

/// Appends the lines of a grid.
pub(crate) fn push_lines(text: &mut Vec<u8>, frame: &Frame, grid: &Grid) -> Result<(), AllocError> {
    text.extend_from_slice(b"<g class=\"grid\">\n")?;
    push_all_vertical(text, frame, grid)?;
    push_all_horizontal(text, frame, grid)?;
    text.extend_from_slice(b"</g>\n")
}

/// Appends the labels of a grid, beside the frame.
pub(crate) fn push_labels(
    text: &mut Vec<u8>,
    frame: &Frame,
    grid: &Grid,
) -> Result<(), AllocError> {
    push_all_below(text, frame, grid)?;
    push_all_left(text, frame, grid)
}
