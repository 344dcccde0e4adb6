// The table of animals: what became of their fixes, when they were, and their areas.

use crate::cells::{
    push_area_cell, push_count, push_count_cell, push_date_cell, push_end, push_interval_cell,
    push_start,
};
use crate::headings::{ANIMAL, push_headings, push_levels, push_percents};
use crate::reasons::{Cause, field};
use crate::shown::{Shown, levels_of};
use page_drawing::push_colour;
use page_facts::{Facts, at_level};
use page_report::ReadAnimal;
use page_tables::Told;
use page_text::{push_attribute, push_days, push_escaped, push_named};
use std::alloc::AllocError;

// How many columns of reasons, and of levels counted twice, one table has room for.
const WIDEST: usize = 10;

// Appends the cells of how many fixes were left out, by causes.
fn push_left(text: &mut Vec<u8>, causes: &[Cause], left: &[u64]) -> Result<(), AllocError> {
    for (place, cause) in causes.iter().enumerate() {
        let count = left.get(place).copied().unwrap_or(0);
        push_count_cell(text, field(*cause), Some(count))?;
    }
    Ok(())
}

// How long it is from the first fix to the last.
fn span(facts: &Facts) -> u64 {
    let first = facts.first.unwrap_or(0);
    facts.last.unwrap_or(0).saturating_sub(first)
}

// Twice a length of time.
fn twice(seconds: Option<u64>) -> Option<u64> {
    match seconds {
        Some(seconds) => Some(seconds.saturating_mul(2)),
        None => None,
    }
}

// A length of time of 64 bits; none of a report is greater.
fn short(seconds2: Option<u128>) -> Option<u64> {
    match seconds2 {
        Some(seconds2) => u64::try_from(seconds2).ok(),
        None => None,
    }
}

// Appends the cells of the times of fixes.
fn push_times(text: &mut Vec<u8>, shown: &Shown, facts: &Facts) -> Result<(), AllocError> {
    push_date_cell(text, b"first", shown, facts.first)?;
    push_date_cell(text, b"last", shown, facts.last)?;
    push_start(text, b"days")?;
    push_days(text, span(facts))?;
    push_end(text)?;
    push_interval_cell(text, b"median_interval", short(facts.median2))?;
    push_interval_cell(text, b"longest_interval", twice(facts.longest))
}

// Appends the cells of what became of fixes, and when they were.
fn push_facts(text: &mut Vec<u8>, shown: &Shown, told: &Told) -> Result<(), AllocError> {
    push_count_cell(text, b"records", told.records)?;
    push_left(text, shown.causes, &told.left)?;
    push_count_cell(text, b"used", Some(told.facts.fixes as u64))?;
    push_times(text, shown, &told.facts)
}

// Appends the cells of areas.
fn push_areas(text: &mut Vec<u8>, shown: &Shown, animal: &ReadAnimal) -> Result<(), AllocError> {
    for own in levels_of(shown.report) {
        let area2 = match at_level(animal, own.level) {
            Some(percent) => percent.area2,
            None => 0,
        };
        push_area_cell(text, own.level, area2, shown.report.unit)?;
    }
    Ok(())
}

// Appends the start of the line of an animal: its number and its name.
pub(crate) fn push_begin(
    text: &mut Vec<u8>,
    number: u64,
    animal: &ReadAnimal,
) -> Result<(), AllocError> {
    text.extend_from_slice(b"<tr data-animal=\"")?;
    push_attribute(text, &animal.name)?;
    text.extend_from_slice(b"\"><td class=\"")?;
    push_colour(text, number)?;
    text.extend_from_slice(b" n\" data-field=\"number\">")?;
    push_count(text, number)?;
    text.extend_from_slice(b"</td><th scope=\"row\">")?;
    push_named(text, &animal.name)?;
    text.extend_from_slice(b"</th>")
}

// Appends the line of an animal in the first table.
fn push_line(
    text: &mut Vec<u8>,
    shown: &Shown,
    number: u64,
    animal: &ReadAnimal,
    told: &Told,
    has_areas: bool,
) -> Result<(), AllocError> {
    push_begin(text, number, animal)?;
    push_facts(text, shown, told)?;
    if has_areas {
        push_areas(text, shown, animal)?;
    }
    text.extend_from_slice(b"</tr>\n")
}

// Appends the lines of animals in the first table.
fn push_lines(text: &mut Vec<u8>, shown: &Shown, has_areas: bool) -> Result<(), AllocError> {
    for (place, animal) in shown.report.animals.iter().enumerate() {
        if let Some(told) = shown.told.get(place) {
            push_line(text, shown, place as u64 + 1, animal, told, has_areas)?;
        }
    }
    Ok(())
}

// Appends the line of an animal in the table of areas.
fn push_area_line(
    text: &mut Vec<u8>,
    shown: &Shown,
    number: u64,
    animal: &ReadAnimal,
) -> Result<(), AllocError> {
    push_begin(text, number, animal)?;
    push_areas(text, shown, animal)?;
    text.extend_from_slice(b"</tr>\n")
}

// Appends the table of areas.
fn push_areas_table(text: &mut Vec<u8>, shown: &Shown) -> Result<(), AllocError> {
    text.extend_from_slice(
        b"\n<table id=\"areas\"><caption class=\"hidden\">Areas at each level</caption><thead><tr>",
    )?;
    text.extend_from_slice(ANIMAL)?;
    push_levels(text, levels_of(shown.report).len())?;
    text.extend_from_slice(b"</tr>\n<tr>")?;
    push_percents(text, levels_of(shown.report))?;
    text.extend_from_slice(b"</tr></thead>\n<tbody>\n")?;
    for (place, animal) in shown.report.animals.iter().enumerate() {
        push_area_line(text, shown, place as u64 + 1, animal)?;
    }
    text.extend_from_slice(b"</tbody></table>")
}

/// Appends the table with a row for each animal; many levels go into a second table.
///
/// # Errors
///
/// Memory ran out.
pub fn push_animals_table(text: &mut Vec<u8>, shown: &Shown) -> Result<(), AllocError> {
    let has_areas = 2 * levels_of(shown.report).len() as u128 + shown.causes.len() as u128
        <= WIDEST as u128;
    text.extend_from_slice(b"<table id=\"animals\" data-zone=\"")?;
    push_escaped(text, shown.zone)?;
    text.extend_from_slice(
        b"\">\n<caption class=\"hidden\">Fixes, times and areas of each animal</caption>\n",
    )?;
    push_headings(text, shown, has_areas)?;
    text.extend_from_slice(b"\n<tbody>\n")?;
    push_lines(text, shown, has_areas)?;
    text.extend_from_slice(b"</tbody></table>")?;
    if has_areas {
        Ok(())
    } else {
        push_areas_table(text, shown)
    }
}
