// The table of how areas grew: over the last quarter of the days and of the fixes, from when on they stayed, and the fix that makes
// the most of each.

use crate::animals::push_begin;
use crate::cells::{NOTHING, push_count, push_count_cell, push_date_cell, push_end, push_start};
use crate::headings::ANIMAL;
use crate::shown::{Shown, area};
use page_basis::{Basis, OneFix, quoted_level};
use page_facts::Facts;
use page_growth::LevelGrowth;
use page_text::push_share_of_area;
use std::alloc::AllocError;

// The level of the polygon of all fixes.
const ALL: u8 = 100;

// What stands below the table.
const WORDS: &[u8] =
    b"<p class=\"note\">Last quarter: by how much the area grew over the last quarter of the time or of the fixes, as a share \
    of the final area, less than nothing where it fell. Since: the first fix from which on the area was 95 % or more of the final \
    one; of percent polygons the end of the first of twenty equal parts of the time, such that it was so at its end and at that of each \
    later one. One fix: the one without which the 100 % polygon is smallest, and the share of its area that this fix makes.</p>\n";

// Appends by how much an area that is this at the end grew from another, as a share of it.
fn push_change(text: &mut Vec<u8>, before: u128, last: u128) -> Result<(), AllocError> {
    if last < before && last > 0 {
        text.extend_from_slice(b"\xE2\x88\x92")?;
    }
    push_share_of_area(text, area(before.abs_diff(last)), area(last))
}

// Appends the cell of how much an area grew.
fn push_change_cell(
    text: &mut Vec<u8>,
    field: &[u8],
    before: u128,
    last: u128,
) -> Result<(), AllocError> {
    push_start(text, field)?;
    push_change(text, before, last)?;
    push_end(text)
}

// Appends an empty cell.
fn push_nothing(text: &mut Vec<u8>, field: &[u8]) -> Result<(), AllocError> {
    push_start(text, field)?;
    text.extend_from_slice(NOTHING)?;
    push_end(text)
}

// The names of the cells of a level.
struct Fields {
    days: &'static [u8],
    fixes: &'static [u8],
}

const QUOTED: Fields = Fields {
    days: b"quoted_days",
    fixes: b"quoted_fixes",
};

const OF_ALL: Fields = Fields {
    days: b"last_days",
    fixes: b"last_quarter",
};

// Appends the cells of how the area at a level grew, if it is known.
fn push_level(
    text: &mut Vec<u8>,
    fields: &Fields,
    growth: Option<LevelGrowth>,
) -> Result<(), AllocError> {
    let Some(growth) = growth else {
        push_nothing(text, fields.days)?;
        return push_nothing(text, fields.fixes);
    };
    push_change_cell(text, fields.days, growth.by_days, growth.area2)?;
    push_change_cell(text, fields.fixes, growth.by_fixes, growth.area2)
}

// Appends the cells of how the area at the level that is quoted grew, if it is known.
fn push_quoted(
    text: &mut Vec<u8>,
    shown: &Shown,
    growth: Option<LevelGrowth>,
) -> Result<(), AllocError> {
    push_level(text, &QUOTED, growth)?;
    let since = growth.and_then(|own| own.since);
    push_date_cell(text, b"quoted_since", shown, since)
}

// Appends the cells of the fix from which on the area of all fixes stayed.
fn push_within(text: &mut Vec<u8>, shown: &Shown, facts: &Facts) -> Result<(), AllocError> {
    let fix = facts.growth.within.map(|fix| fix as u64);
    push_count_cell(text, b"within_95_fix", fix)?;
    push_date_cell(text, b"within_95_date", shown, facts.within_second)
}

// Appends the cells of the fix that makes the most of the area of all.
fn push_one_fix(
    text: &mut Vec<u8>,
    shown: &Shown,
    one_fix: Option<OneFix>,
    area2: u128,
) -> Result<(), AllocError> {
    match one_fix {
        Some(own) if area2 > 0 => {
            push_date_cell(text, b"one_fix", shown, Some(own.second))?;
            push_change_cell(text, b"one_fix_share", own.area2, area2)
        }
        _ => {
            push_nothing(text, b"one_fix")?;
            push_nothing(text, b"one_fix_share")
        }
    }
}

// Appends the cells of an animal.
fn push_cells(
    text: &mut Vec<u8>,
    shown: &Shown,
    facts: &Facts,
    basis: &Basis,
    has_quoted: bool,
) -> Result<(), AllocError> {
    if has_quoted {
        push_quoted(text, shown, basis.quoted)?;
    }
    push_level(text, &OF_ALL, basis.all)?;
    push_within(text, shown, facts)?;
    push_one_fix(text, shown, basis.one_fix, facts.growth.area2)
}

// Appends the headings of a level over its columns.
fn push_level_heading(text: &mut Vec<u8>, level: u8, columns: u64) -> Result<(), AllocError> {
    text.extend_from_slice(b"<th scope=\"colgroup\" colspan=\"")?;
    push_count(text, columns)?;
    text.extend_from_slice(b"\">")?;
    push_count(text, u64::from(level))?;
    text.extend_from_slice(b" % MCP</th>")
}

// Appends the headings of the table.
fn push_headings(text: &mut Vec<u8>, level: u8) -> Result<(), AllocError> {
    const LAST: &[u8] =
        b"<th scope=\"col\">last quarter<br>of the days</th><th scope=\"col\">of the<br>fixes</th>";
    text.extend_from_slice(b"<thead><tr>")?;
    text.extend_from_slice(ANIMAL)?;
    if level < ALL {
        push_level_heading(text, level, 3)?;
    }
    push_level_heading(text, ALL, 4)?;
    text.extend_from_slice(b"<th scope=\"colgroup\" colspan=\"2\">One fix</th></tr>\n<tr>")?;
    if level < ALL {
        text.extend_from_slice(LAST)?;
        text.extend_from_slice(b"<th scope=\"col\">since</th>")?;
    }
    text.extend_from_slice(LAST)?;
    text.extend_from_slice(
        b"<th scope=\"col\">since<br>fix</th><th scope=\"col\">date</th><th scope=\"col\">date</th>\
        <th scope=\"col\">makes</th></tr></thead>",
    )
}

// Appends the line of each animal.
fn push_lines(text: &mut Vec<u8>, shown: &Shown, has_quoted: bool) -> Result<(), AllocError> {
    let animals = shown.report.animals.iter().zip(shown.told);
    for (place, ((animal, told), basis)) in animals.zip(shown.basis).enumerate() {
        push_begin(text, place as u64 + 1, animal)?;
        push_cells(text, shown, &told.facts, basis, has_quoted)?;
        text.extend_from_slice(b"</tr>\n")?;
    }
    Ok(())
}

/// Appends the table of how areas grew, and what its words mean.
///
/// # Errors
///
/// Memory ran out.
pub fn push_growth_table(text: &mut Vec<u8>, shown: &Shown) -> Result<(), AllocError> {
    let level = quoted_level(shown.report);
    text.extend_from_slice(
        b"<table id=\"growth\">\n<caption class=\"hidden\">How the areas grew</caption>\n",
    )?;
    push_headings(text, level)?;
    text.extend_from_slice(b"\n<tbody>\n")?;
    push_lines(text, shown, level < ALL)?;
    text.extend_from_slice(b"</tbody></table>\n")?;
    text.extend_from_slice(WORDS)
}
