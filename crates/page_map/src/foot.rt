// What stands below a frame: the bar of scale, the arrow and the reference system.

ghost use Rattle.std.specs.Prelude.{◌≤◌, ◌^◌};
ghost use Rattle.page_drawing.specs.Bounds.{IsWithin};

use crate::frame::Frame;
use crate::grid::LEFT;
use crate::times::lengths;
use page_drawing::{Step, push_place, push_text, push_value, size_of, step_of};
use page_text::push_escaped;
use std::alloc::AllocError;

// How many pixels below a frame its foot stands.
const BELOW: i64 = 29;

// Appends the length of a step on the ground.
fn push_length(text: &mut Vec<u8>, step: Step) -> Result<(), AllocError> {
    if step.place >= 18 {
        let thousandth = Step {
            place: step.place - 9,
        };
        push_value(text, thousandth, 1)?;
        return text.extend_from_slice(b" km");
    }
    push_value(text, step, 1)?;
    text.extend_from_slice(b" m")
}

// How long a step is in a frame.
fn length_of(frame: &Frame, step: Step) -> i128
    ensures { IsWithin (2 ^ 100) result }
{
    lengths(size_of(step), 2 * frame.grain) as i128
}

// Appends the bar, of such a length.
fn push_bar(text: &mut Vec<u8>, frame: &Frame, length: i128, y: i128) -> Result<(), AllocError>
    requires length { IsWithin (2 ^ 100) length }
    requires y { IsWithin (2 ^ 103) y }
{
    text.extend_from_slice(b"<path class=\"bar\" d=\"M")?;
    push_place(text, frame.length(frame.pixels(LEFT)))?;
    text.extend_from_slice(b" ")?;
    push_place(text, frame.length(y - frame.pixels(5)))?;
    text.extend_from_slice(b"v5h")?;
    push_place(text, frame.length(length))?;
    text.extend_from_slice(b"v-5\"/>\n")
}

// Appends the arrow.
fn push_arrow(text: &mut Vec<u8>, frame: &Frame, x: i128, y: i128) -> Result<(), AllocError>
    requires x { IsWithin (2 ^ 103) x }
    requires y { IsWithin (2 ^ 103) y }
{
    text.extend_from_slice(b"<path class=\"arrow\" d=\"M")?;
    push_place(text, frame.length(x))?;
    text.extend_from_slice(b" ")?;
    push_place(text, frame.length(y + frame.pixels(2)))?;
    text.extend_from_slice(b"v-9h-3.5l3.5 -7l3.5 7h-3.5\"/>\n")?;
    push_text(text, frame.spot(x + frame.pixels(8), y))?;
    text.extend_from_slice(b">grid north</text>\n")
}

// Appends the bar with its length, and the arrow behind it.
fn push_scale(text: &mut Vec<u8>, frame: &Frame, step: Step, y: i128) -> Result<(), AllocError>
    requires { IsWithin (2 ^ 103) y }
{
    let length = length_of(frame, step);
    let end = frame.pixels(LEFT) + length;
    push_bar(text, frame, length, y)?;
    push_text(text, frame.spot(end + frame.pixels(6), y))?;
    text.extend_from_slice(b">")?;
    push_length(text, step)?;
    text.extend_from_slice(b"</text>\n")?;
    push_arrow(text, frame, end + frame.pixels(90), y)
}

/// Appends the foot of a frame.
pub(crate) fn push_foot(
    text: &mut Vec<u8>,
    frame: &Frame,
    system: &[u8],
) -> Result<(), AllocError> {
    let step = step_of(frame.half_width, (9 * frame.grain) as u32, 1);
    let y = frame.high() + frame.pixels(BELOW);
    push_scale(text, frame, step, y)?;
    push_text(text, frame.spot(frame.wide() + frame.pixels(LEFT), y))?;
    text.extend_from_slice(b" text-anchor=\"end\">")?;
    push_escaped(text, system)?;
    text.extend_from_slice(b"</text>\n")
}
