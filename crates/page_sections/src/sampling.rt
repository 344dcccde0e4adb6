// The table of when and where fixes are: at how many places, which are there twice, in how few days half of them are, the longest
// gap and the fastest step.

ghost use Rattle.std.specs.Prelude.{◌<◌, ◌≤◌};

use crate::animals::push_begin;
use crate::cells::{NOTHING, push_count, push_count_cell, push_date_cell, push_end, push_start};
use crate::headings::ANIMAL_ONCE;
use crate::shown::Shown;
use page_dates::push_period;
use page_sampling::{Gap, Periods, Places, Sampling, Step};
use page_text::{push_interval, push_three_digits};
use range_plane::Scale;
use std::alloc::AllocError;

// The headings of the table.
const HEADINGS: &[u8] =
    b"<th scope=\"col\">Places</th><th scope=\"col\">there<br>twice</th><th scope=\"col\">two places<br>at once</th>\
    <th scope=\"col\">half of the<br>fixes in</th><th scope=\"col\">longest<br>gap</th><th scope=\"colgroup\" colspan=\"2\">fastest step</th></tr></thead>";

// What stands below the table.
const WORDS: &[u8] =
    b"<p class=\"note\">Places: how many different ones the fixes have. There twice: fixes with the second and the place of \
    one before them. Two places at once: how many places more than one there are at one second, of all seconds. Half of the fixes: in how \
    few days they are, of all days; days are periods of 24 hours from the first fix on. Fastest step: from a fix to the next.</p>\n";

// The greatest number of hundredths of half a unit that is written.
const LONGEST: u128 = 1 << 64;

// How many units a metre has.
fn units_of_metre(unit: Scale) -> u128
    ensures some { 0 < result }
    ensures few { result ≤ 10 }
{
    match unit {
        Scale::Metre => 1,
        Scale::Decimetre => 10,
    }
}

// Appends the length of a step, in metres or kilometres. Its square is that of whole units; two hundred lengths are rounded down
// before they are divided, which is the length rounded once.
fn push_length(text: &mut Vec<u8>, distance2: u128, unit: Scale) -> Result<(), AllocError> {
    let lengths = distance2.saturating_mul(40_000).isqrt().min(LONGEST);
    let metre = units_of_metre(unit) * 200;
    if lengths < metre * 1_000 {
        push_three_digits(text, lengths, metre)?;
        return text.extend_from_slice(b" m");
    }
    push_three_digits(text, lengths, metre * 1_000)?;
    text.extend_from_slice(b" km")
}

// Appends the cells of places.
fn push_places(text: &mut Vec<u8>, places: Option<Places>) -> Result<(), AllocError> {
    let (distinct, repeats, clashes) = match places {
        Some(own) => (Some(own.distinct), Some(own.repeats), Some(own.clashes)),
        None => (None, None, None),
    };
    push_count_cell(text, b"places", distinct.map(|count| count as u64))?;
    push_count_cell(text, b"repeats", repeats.map(|count| count as u64))?;
    push_count_cell(text, b"clashes", clashes.map(|count| count as u64))
}

// Appends the cell of the days that half of the fixes take.
fn push_half(text: &mut Vec<u8>, periods: Option<Periods>) -> Result<(), AllocError> {
    push_start(text, b"half_days")?;
    match periods {
        Some(own) => {
            push_count(text, own.half as u64)?;
            text.extend_from_slice(b" of ")?;
            push_count(text, own.all)?;
        }
        None => text.extend_from_slice(NOTHING)?,
    }
    push_end(text)
}

// Appends the cell of the longest gap.
fn push_gap(text: &mut Vec<u8>, shown: &Shown, gap: Option<Gap>) -> Result<(), AllocError> {
    push_start(text, b"gap")?;
    match gap {
        Some(own) => push_period(text, shown.clock, shown.dated, own.from, own.to)?,
        None => text.extend_from_slice(NOTHING)?,
    }
    push_end(text)
}

// Appends the text of a step: its length, and how long it took.
fn push_step(text: &mut Vec<u8>, shown: &Shown, step: Step) -> Result<(), AllocError> {
    push_length(text, step.distance2, shown.report.unit)?;
    text.extend_from_slice(b" in ")?;
    let seconds = step.to.saturating_sub(step.from);
    push_interval(text, Some(seconds.saturating_mul(2)))
}

// Appends the cells of the fastest step.
fn push_fastest(text: &mut Vec<u8>, shown: &Shown, step: Option<Step>) -> Result<(), AllocError> {
    push_start(text, b"step")?;
    match step {
        Some(own) => push_step(text, shown, own)?,
        None => text.extend_from_slice(NOTHING)?,
    }
    push_end(text)?;
    push_date_cell(text, b"step_date", shown, step.map(|own| own.from))
}

// Appends the cells of an animal.
fn push_cells(text: &mut Vec<u8>, shown: &Shown, sampling: &Sampling) -> Result<(), AllocError> {
    push_places(text, sampling.places)?;
    push_half(text, sampling.periods)?;
    push_gap(text, shown, sampling.gap)?;
    push_fastest(text, shown, sampling.fastest)
}

// Appends the line of each animal.
fn push_lines(text: &mut Vec<u8>, shown: &Shown) -> Result<(), AllocError> {
    for (place, (animal, basis)) in shown.report.animals.iter().zip(shown.basis).enumerate() {
        push_begin(text, place as u64 + 1, animal)?;
        push_cells(text, shown, &basis.sampling)?;
        text.extend_from_slice(b"</tr>\n")?;
    }
    Ok(())
}

/// Appends the table of when and where fixes are, and what its words mean.
///
/// # Errors
///
/// Memory ran out.
pub fn push_sampling_table(text: &mut Vec<u8>, shown: &Shown) -> Result<(), AllocError> {
    text.extend_from_slice(
        b"<table id=\"sampling\">\n<caption class=\"hidden\">When and where the fixes are</caption>\n<thead><tr>",
    )?;
    text.extend_from_slice(ANIMAL_ONCE)?;
    text.extend_from_slice(HEADINGS)?;
    text.extend_from_slice(b"\n<tbody>\n")?;
    push_lines(text, shown)?;
    text.extend_from_slice(b"</tbody></table>\n")?;
    text.extend_from_slice(WORDS)
}
