// The steps of both axes, in fixes and in hectares or square metres.

ghost use Rattle.std.specs.Prelude.{◌*◌, ◌<◌, ◌≤◌, ◌^◌};

use crate::axes::Axes;
use page_drawing::{Pixels, Spot, Step, push_line, push_text, push_value, size_of, step_of};
use range_plane::Scale;
use std::alloc::AllocError;

// How many steps an axis of areas has at most, and one of fixes where drawings are so many.
const MOST_UP: u8 = 4;

fn most_across(columns: u32) -> u8
    ensures { result ≤ 4 }
{
    if columns <= 3 { 4 } else { 2 }
}

// A span of an axis, in thousandths of what is counted, and how many of its parts such a thousandth has.
#[derive(Clone, Copy)]
struct Span {
    part: u128,
    whole: u32,
    pub ghost part_most: { part ≤ 2 ^ 80 },
    pub ghost whole_some: { 0 < whole },
}

// How much doubled area a hectare has.
fn hectare(unit: Scale) -> u32
    ensures some { 10_000 ≤ result }
    ensures most { result ≤ 2_000_000 }
{
    match unit {
        Scale::Metre => 20_000,
        Scale::Decimetre => 2_000_000,
    }
}

// How much doubled area is counted as one: a hectare, or a square metre where there is less.
fn counted(area2: u64, unit: Scale) -> u32
    ensures some { 0 < result }
    ensures most { result ≤ 2_000_000 }
{
    let hectare = hectare(unit);
    if area2 >= u64::from(hectare) {
        hectare
    } else {
        hectare / 10_000
    }
}

// How many parts a step has.
fn parts_of(step: Step, whole: u32) -> u128
    requires { 0 < whole }
    ensures { 0 < result }
{
    u128::from(size_of(step)) * u128::from(whole)
}

// How many of a step there are in a span, and at most so many.
fn last_count(span: Span, step: Step, most: u8) -> u8
    requires { most ≤ 4 }
    ensures { result ≤ 4 }
{
    (span.part / parts_of(step, span.whole)).min(u128::from(most)) as u8
}

// Appends the label of so many steps of fixes.
fn push_across(text: &mut Vec<u8>, axes: &Axes, step: Step, count: u8) -> Result<(), AllocError> {
    let fix = u64::from(count).saturating_mul(size_of(step)) / 1000;
    let spot = Spot {
        x: axes.x(fix),
        y: Pixels::new(axes.layout.bottom() + 10),
    };
    push_text(text, spot)?;
    text.extend_from_slice(b" text-anchor=\"middle\">")?;
    push_value(text, step, i64::from(count))?;
    text.extend_from_slice(b"</text>\n")
}

// Appends the labels of fixes. Where a step is not whole, there are none.
fn push_all_across(text: &mut Vec<u8>, axes: &Axes) -> Result<(), AllocError> {
    let span = Span {
        part: 1000 * u128::from(axes.fixes),
        whole: 1,
    };
    let most = most_across(axes.layout.columns);
    let step = step_of(span.part, span.whole, most);
    if size_of(step) < 1000 {
        return Ok(());
    }
    for count in 0..last_count(span, step, most) + 1 {
        push_across(text, axes, step, count)?;
    }
    Ok(())
}

// Appends the line and the label of so many steps of an area.
fn push_up(
    text: &mut Vec<u8>,
    axes: &Axes,
    span: Span,
    step: Step,
    count: u8,
) -> Result<(), AllocError> {
    let part = u128::from(count)
        .saturating_mul(parts_of(step, span.whole))
        .min(span.part);
    let whole = 1000 * u128::from(axes.area2);
    let left = axes.layout.left();
    let y = axes.y(part, whole, 0);
    let from = Spot {
        x: Pixels::new(left),
        y,
    };
    push_line(text, from, Spot { x: axes.end(), y }, b" class=\"tick\"")?;
    let spot = Spot {
        x: Pixels::new(left - 3),
        y: axes.y(part, whole, 3),
    };
    text.extend_from_slice(b"\n")?;
    push_text(text, spot)?;
    text.extend_from_slice(b" text-anchor=\"end\">")?;
    push_value(text, step, i64::from(count))?;
    text.extend_from_slice(b"</text>\n")
}

// Appends the lines and the labels of areas.
fn push_all_up(text: &mut Vec<u8>, axes: &Axes, unit: Scale) -> Result<(), AllocError> {
    let span = Span {
        part: 1000 * u128::from(axes.area2),
        whole: counted(axes.area2, unit),
    };
    let step = step_of(span.part, span.whole, MOST_UP);
    for count in 0..last_count(span, step, MOST_UP) + 1 {
        push_up(text, axes, span, step, count)?;
    }
    Ok(())
}

/// Appends the labels of both axes; none of areas where there is no area.
pub(crate) fn push_labels(
    text: &mut Vec<u8>,
    axes: &Axes,
    unit: Scale,
    has_area: bool,
) -> Result<(), AllocError> {
    push_all_across(text, axes)?;
    if has_area {
        push_all_up(text, axes, unit)
    } else {
        Ok(())
    }
}
