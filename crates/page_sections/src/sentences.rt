// The sentences of a page: one for each animal, of many one for all.

use crate::cells::push_count;
use crate::shown::{Shown, area, source_words};
use page_basis::{Basis, quoted_level};
use page_dates::{push_date, push_period};
use page_facts::at_level;
use page_growth::LevelGrowth;
use page_report::{ReadAnimal, Report};
use page_tables::Told;
use page_text::{push_fixes, push_named, push_share_of_area, push_with_sign};
use range_stats::PercentRow;
use std::alloc::{AllocError, Global};

// Of how many animals each has a sentence, and of how many these stand in one column.
const MOST_SENTENCES: usize = 40;

const ONE_COLUMN: usize = 6;

// The level of the polygon of all fixes.
const ALL: u8 = 100;

// Appends a level as it is quoted.
fn push_level(text: &mut Vec<u8>, level: u8) -> Result<(), AllocError> {
    push_count(text, u64::from(level))?;
    text.extend_from_slice(b" % MCP ")
}

// Appends the area of a polygon, and how many fixes it keeps of so many.
fn push_range(
    text: &mut Vec<u8>,
    shown: &Shown,
    own: PercentRow,
    fixes: u64,
) -> Result<(), AllocError> {
    if own.area2 == 0 {
        text.extend_from_slice(b"has no area")?;
    } else {
        push_with_sign(text, area(own.area2), shown.report.unit)?;
    }
    text.extend_from_slice(b", ")?;
    if u64::from(own.kept) < fixes {
        push_count(text, u64::from(own.kept))?;
        text.extend_from_slice(b" of ")?;
    } else if own.level < ALL && fixes > 1 {
        text.extend_from_slice(b"all ")?;
    }
    push_fixes(text, fixes)
}

// Appends how an area grew over the last quarter of the days, if it is known.
fn push_growth(text: &mut Vec<u8>, growth: Option<LevelGrowth>) -> Result<(), AllocError> {
    let Some(growth) = growth else {
        return Ok(());
    };
    if growth.area2 == 0 {
        return Ok(());
    }
    text.extend_from_slice(b"; over the last quarter of the days it ")?;
    text.extend_from_slice(if growth.area2 < growth.by_days {
        b"fell by "
    } else {
        b"grew by "
    })?;
    push_share_of_area(
        text,
        area(growth.by_days.abs_diff(growth.area2)),
        area(growth.area2),
    )
}

// Appends which fix makes more than a tenth of the area of all fixes, if one does.
fn push_one_fix(
    text: &mut Vec<u8>,
    shown: &Shown,
    basis: &Basis,
    area2: u128,
) -> Result<(), AllocError> {
    let Some(own) = basis.one_fix else {
        return Ok(());
    };
    if area2.saturating_sub(own.area2) <= area2 / 10 {
        return Ok(());
    }
    text.extend_from_slice(b"; one fix (")?;
    push_date(text, shown.clock, shown.dated, own.second)?;
    text.extend_from_slice(b") makes ")?;
    push_share_of_area(text, area(area2.saturating_sub(own.area2)), area(area2))?;
    text.extend_from_slice(b" of the 100 % MCP")
}

// Appends how many fixes were left out, if it is known that some were.
fn push_left_out(text: &mut Vec<u8>, shown: &Shown, told: &Told) -> Result<(), AllocError> {
    let used = told.facts.fixes as u64;
    let left = told.records.unwrap_or(used).saturating_sub(used);
    if left == 0 {
        return Ok(());
    }
    text.extend_from_slice(b"; ")?;
    push_fixes(text, left)?;
    text.extend_from_slice(b" of the ")?;
    text.extend_from_slice(source_words(shown.source))?;
    text.extend_from_slice(b" left out")
}

// Appends what the area at the level that is quoted rests on.
fn push_caveats(
    text: &mut Vec<u8>,
    shown: &Shown,
    level: u8,
    told: &Told,
    basis: &Basis,
) -> Result<(), AllocError> {
    let growth = if level < ALL { basis.quoted } else { basis.all };
    push_left_out(text, shown, told)?;
    push_growth(text, growth)?;
    push_one_fix(text, shown, basis, told.facts.growth.area2)
}

// Appends the area of an animal at a level, of how many fixes, and when these were.
fn push_area(
    text: &mut Vec<u8>,
    shown: &Shown,
    level: u8,
    animal: &ReadAnimal,
) -> Result<(), AllocError> {
    push_level(text, level)?;
    if let Some(own) = at_level(animal, level) {
        push_range(text, shown, own, animal.rows.len() as u64)?;
    }
    if let (Some(first), Some(last)) = (animal.rows.first(), animal.rows.last()) {
        text.extend_from_slice(b", ")?;
        push_period(text, shown.clock, shown.dated, first.second, last.second)?;
    }
    Ok(())
}

// Appends the sentence of an animal.
fn push_sentence(
    text: &mut Vec<u8>,
    shown: &Shown,
    level: u8,
    animal: &ReadAnimal,
    told: &Told,
    basis: &Basis,
) -> Result<(), AllocError> {
    text.extend_from_slice(b"<li>")?;
    push_named(text, &animal.name)?;
    text.extend_from_slice(b": ")?;
    push_area(text, shown, level, animal)?;
    push_caveats(text, shown, level, told, basis)?;
    text.extend_from_slice(b"</li>\n")
}

// Appends a sentence for each animal.
fn push_each(text: &mut Vec<u8>, shown: &Shown) -> Result<(), AllocError> {
    let level = quoted_level(shown.report);
    let columns: &[u8] = if shown.report.animals.len() > ONE_COLUMN {
        b"two"
    } else {
        b"one"
    };
    text.extend_from_slice(b"<ul class=\"")?;
    text.extend_from_slice(columns)?;
    text.extend_from_slice(b"\">\n")?;
    let animals = shown.report.animals.iter().zip(shown.told);
    for ((animal, told), basis) in animals.zip(shown.basis) {
        push_sentence(text, shown, level, animal, told, basis)?;
    }
    text.extend_from_slice(b"</ul>")
}

// The areas of all animals at a level, each with the place of the animal, from the least on.
fn areas_in_order(
    alloc: Global,
    report: &Report,
    level: u8,
) -> Result<Vec<(u128, usize)>, AllocError> {
    let mut areas = Vec::new(alloc);
    for (place, animal) in report.animals.iter().enumerate() {
        let area2 = match at_level(animal, level) {
            Some(own) => own.area2,
            None => 0,
        };
        areas.push((area2, place))?;
    }
    areas.sort()?;
    Ok(areas)
}

// Appends an area, and whose it is.
fn push_of(text: &mut Vec<u8>, shown: &Shown, own: (u128, usize)) -> Result<(), AllocError> {
    push_with_sign(text, area(own.0), shown.report.unit)?;
    text.extend_from_slice(b" (")?;
    if let Some(animal) = shown.report.animals.get(own.1) {
        push_named(text, &animal.name)?;
    }
    text.extend_from_slice(b")")
}

// Appends what the areas of all animals come to, from the least on.
fn push_areas(
    text: &mut Vec<u8>,
    shown: &Shown,
    areas: &[(u128, usize)],
) -> Result<(), AllocError> {
    let middle = areas.len().saturating_sub(1) / 2;
    if let (Some(least), Some(most), Some(half)) = (
        areas.first(),
        areas.last(),
        areas.get(middle),
    ) {
        text.extend_from_slice(b"from ")?;
        push_of(text, shown, *least)?;
        text.extend_from_slice(b" to ")?;
        push_of(text, shown, *most)?;
        text.extend_from_slice(b"; half of them have ")?;
        push_with_sign(text, area(half.0), shown.report.unit)?;
    }
    text.extend_from_slice(b" or less.</p>")
}

// Appends one sentence for all animals.
fn push_all(alloc: Global, text: &mut Vec<u8>, shown: &Shown) -> Result<(), AllocError> {
    let level = quoted_level(shown.report);
    let areas = areas_in_order(alloc, shown.report, level)?;
    text.extend_from_slice(b"<p>")?;
    push_count(text, shown.report.animals.len() as u64)?;
    text.extend_from_slice(b" animals: ")?;
    push_level(text, level)?;
    push_areas(text, shown, &areas)
}

/// Appends a sentence for each animal, of many one for all.
///
/// # Errors
///
/// Memory ran out.
pub fn push_sentences(alloc: Global, text: &mut Vec<u8>, shown: &Shown) -> Result<(), AllocError> {
    if shown.report.animals.len() <= MOST_SENTENCES {
        push_each(text, shown)
    } else {
        push_all(alloc, text, shown)
    }
}
