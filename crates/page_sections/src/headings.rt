// The headings of the table of animals.

use crate::cells::push_count;
use crate::reasons::{Cause, heading};
use crate::shown::{Shown, levels_of, source_words};
use page_text::{Places, push_fixed};
use range_stats::PercentRow;
use std::alloc::AllocError;

// The headings of the number and the name of an animal.
pub(crate) const ANIMAL: &[u8] =
    b"<th rowspan=\"2\"></th><th scope=\"col\" rowspan=\"2\" class=\"name\">Animal</th>";

// The same in a table with one line of headings.
pub(crate) const ANIMAL_ONCE: &[u8] = b"<th></th><th scope=\"col\" class=\"name\">Animal</th>";

// Appends the start of a heading that is written upwards, over so many lines.
fn push_turned(text: &mut Vec<u8>, lines: &[u8]) -> Result<(), AllocError> {
    text.extend_from_slice(b"<th scope=\"col\" class=\"turned\" rowspan=\"")?;
    text.extend_from_slice(lines)?;
    text.extend_from_slice(b"\"><span>")
}

// Appends a heading over so many columns, if there are some.
fn push_over(text: &mut Vec<u8>, columns: usize, words: &[u8]) -> Result<(), AllocError> {
    if columns == 0 {
        return Ok(());
    }
    text.extend_from_slice(b"<th scope=\"colgroup\" colspan=\"")?;
    push_count(text, columns as u64)?;
    text.extend_from_slice(b"\">")?;
    text.extend_from_slice(words)?;
    text.extend_from_slice(b"</th>")
}

// Appends the heading of all levels, over so many columns.
pub(crate) fn push_levels(text: &mut Vec<u8>, columns: usize) -> Result<(), AllocError> {
    push_over(text, columns, b"MCP, ha")
}

// Appends the heading of each level.
pub(crate) fn push_percents(text: &mut Vec<u8>, levels: &[PercentRow]) -> Result<(), AllocError> {
    for own in levels {
        text.extend_from_slice(b"<th scope=\"col\" class=\"ha\">")?;
        push_fixed(text, u128::from(own.level), 1, Places::Whole)?;
        text.extend_from_slice(b" %</th>")?;
    }
    Ok(())
}

// Appends the headings of causes.
fn push_causes(text: &mut Vec<u8>, causes: &[Cause]) -> Result<(), AllocError> {
    for cause in causes {
        push_turned(text, b"1")?;
        text.extend_from_slice(heading(*cause))?;
        text.extend_from_slice(b"</span></th>")?;
    }
    Ok(())
}

// Appends the line above, of a table that has so many columns of levels.
fn push_above(text: &mut Vec<u8>, shown: &Shown, levels: usize) -> Result<(), AllocError> {
    text.extend_from_slice(ANIMAL)?;
    push_turned(text, b"2")?;
    text.extend_from_slice(b"in the ")?;
    text.extend_from_slice(source_words(shown.source))?;
    text.extend_from_slice(b"</span></th>")?;
    push_over(text, shown.causes.len(), b"Left out")?;
    push_turned(text, b"2")?;
    text.extend_from_slice(
        b"used</span></th><th scope=\"col\" rowspan=\"2\">First</th><th scope=\"col\" rowspan=\"2\">Last</th>",
    )?;
    text.extend_from_slice(
        b"<th scope=\"col\" rowspan=\"2\">Days</th><th scope=\"colgroup\" colspan=\"2\">Interval</th>",
    )?;
    push_levels(text, levels)
}

// Appends the line below.
fn push_below(text: &mut Vec<u8>, shown: &Shown, has_areas: bool) -> Result<(), AllocError> {
    push_causes(text, shown.causes)?;
    text.extend_from_slice(b"<th scope=\"col\">median</th><th scope=\"col\">longest</th>")?;
    if has_areas {
        push_percents(text, levels_of(shown.report))?;
    }
    Ok(())
}

// Appends both lines, of a table that may have the areas.
pub(crate) fn push_headings(
    text: &mut Vec<u8>,
    shown: &Shown,
    has_areas: bool,
) -> Result<(), AllocError> {
    let levels = if has_areas {
        levels_of(shown.report).len()
    } else {
        0
    };
    text.extend_from_slice(b"<thead><tr>")?;
    push_above(text, shown, levels)?;
    text.extend_from_slice(b"</tr>\n<tr>")?;
    push_below(text, shown, has_areas)?;
    text.extend_from_slice(b"</tr></thead>")
}
