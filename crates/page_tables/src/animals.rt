// The table of animals.

ghost use Rattle.std.specs.Prelude.{◌≡◌, ◌++◌, ◌-◌, ◌^◌, OnOk, Some, decimal, map, min, option_map};
ghost use Rattle.std.specs.List.{slice_get};
ghost use Rattle.page_report.specs.Reading.{read, said};
ghost use Rattle.page_tables.specs.Animals.{animal_titles, animals, area_cell, between, fact_cells, fact_titles, growth_cells, level_cell, level_if, levels, levels_if, level_titles, reason_titles, short, titles_first, titles_last, told_cells, told_first, told_last, told_lines, whole_cell};
ghost use Rattle.page_tables.specs.Lines.{behind, behind_comma, joined, line, table};
ghost use Rattle.page_tables.specs.Shares.{share_cell};

use crate::cells::{push_behind_hectares, push_behind_time, push_behind_whole, wide};
use crate::overlaps::push_name_at;
use crate::shares::push_share_cell;
use page_facts::{Facts, are_dates, at_level};
use page_report::Report;
use page_text::push_whole;
use range_plane::Scale;
use range_stats::PercentRow;
use std::alloc::AllocError;

/// What is told of an animal: its facts, and how many records its export had.
#[derive(Drop)]
pub struct Told {
    pub facts: Facts,
    /// None where it is not known.
    pub records: Option<u64>,
    /// How many fixes were left out for each reason, in the order in which reasons are given.
    pub left: Vec<u64>,
}

// A number of 64 bits.
fn short(number: u128) -> u64
    ensures { result ≡ short number }
{
    match u64::try_from(number) {
        Ok(number) => number,
        Err(_greater) => u64::MAX,
    }
}

// The same, of one that may be known.
fn short_if(number: Option<u128>) -> Option<u64>
    ensures { result ≡ option_map short number }
{
    match number {
        Some(number) => Some(short(number)),
        None => None,
    }
}

// How long it is from a second to another.
fn between(first: Option<u64>, last: Option<u64>) -> Option<u64>
    ensures { result ≡ between first last }
{
    match (first, last) {
        (Some(first), Some(last)) => Some(last.saturating_sub(first)),
        _ => None,
    }
}

// Appends the cell of a whole number that may be known, behind others.
#[tactic(auto, unfolding(crate::specs::Animals::whole_cell))]
fn push_behind_known(text: &mut Vec<u8>, number: Option<u64>) -> Result<(), AllocError>
    ensures { OnOk result (text.new.items ≡ text.old.items ++ behind_comma (whole_cell number)) }
{
    match number {
        Some(number) => push_behind_whole(text, u128::from(number)),
        None => text.extend_from_slice(b","),
    }
}

// Appends the cell of a quotient behind others.
fn push_behind_share(text: &mut Vec<u8>, part: Option<u64>, whole: u64) -> Result<(), AllocError>
    ensures { OnOk result (text.new.items ≡ text.old.items ++ behind_comma (share_cell part (Some whole))) }
{
    text.extend_from_slice(b",")?;
    push_share_cell(text, part, Some(whole))
}

// Appends the cells of the fixes of an animal.
#[tactic(auto, unfolding(crate::specs::Animals::fact_cells))]
fn push_fact_cells(text: &mut Vec<u8>, dated: bool, facts: &Facts) -> Result<(), AllocError>
    ensures { OnOk result (text.new.items ≡ text.old.items ++ behind (fact_cells dated facts.now)) }
{
    push_behind_whole(text, facts.fixes as u128)?;
    push_behind_time(text, dated, facts.first)?;
    push_behind_time(text, dated, facts.last)?;
    push_behind_share(text, between(facts.first, facts.last), 86_400)?;
    push_behind_share(text, short_if(facts.median2), 7_200)?;
    push_behind_share(text, facts.longest, 3_600)
}

// Appends the cells of how an area grew.
#[tactic(auto, unfolding(crate::specs::Animals::growth_cells))]
fn push_growth_cells(text: &mut Vec<u8>, dated: bool, facts: &Facts) -> Result<(), AllocError>
    ensures { OnOk result (text.new.items ≡ text.old.items ++ behind (growth_cells dated facts.now)) }
{
    let area2 = short(facts.growth.area2);
    push_behind_known(text, wide(facts.growth.within))?;
    push_behind_time(text, dated, facts.within_second)?;
    push_behind_share(text, Some(short(facts.growth.tenth)), area2)?;
    push_behind_share(text, Some(short(facts.growth.quarter)), area2)
}

// Appends the cell of an area behind others.
fn push_behind_area(
    text: &mut Vec<u8>,
    unit: Scale,
    percent: Option<PercentRow>,
) -> Result<(), AllocError>
    ensures { OnOk result (text.new.items ≡ text.old.items ++ behind_comma (area_cell unit percent)) }
{
    match percent {
        Some(percent) => push_behind_hectares(text, percent.area2, unit),
        None => text.extend_from_slice(b","),
    }
}

// The polygon of an animal at a level.
fn level_at(report: &Report, animal: usize, level: u8) -> Option<PercentRow>
    ensures { result ≡ level_if (slice_get (read report.now).animals animal) level }
{
    match report.animals.get(animal) {
        Some(animal) => at_level(animal, level),
        None => None,
    }
}

// Appends the area of an animal at a level, behind others.
#[tactic(auto, unfolding(crate::specs::Animals::level_cell))]
fn push_level(
    text: &mut Vec<u8>,
    report: &Report,
    animal: usize,
    own: &PercentRow,
) -> Result<(), AllocError>
    ensures { OnOk result (text.new.items ≡ text.old.items ++ behind_comma (level_cell (read report.now) animal own.now)) }
{
    push_behind_area(text, report.unit, level_at(report, animal, own.level))
}

// The levels, which are those of the first animal.
fn levels_of(report: &Report) -> &[PercentRow]
    ensures { result.now ≡ levels (read report.now) }
{
    match report.animals.first() {
        Some(animal) => &animal.percents,
        None => &[],
    }
}

// Appends the areas of an animal, behind others.
fn push_level_cells(
    text: &mut Vec<u8>,
    report: &Report,
    animal: usize,
    levels: &[PercentRow],
) -> Result<(), AllocError>
    ensures { OnOk result (text.new.items ≡ text.old.items ++ behind (map (level_cell (read report.now) animal) levels.now)) }
{
    for own in levels {
        push_level(text, report, animal, own)?;
    }
    Ok(())
}

// Appends how many fixes were left out, behind others.
fn push_left_cells(text: &mut Vec<u8>, left: &[u64]) -> Result<(), AllocError>
    ensures { OnOk result (text.new.items ≡ text.old.items ++ behind (map decimal left.now)) }
{
    for count in left {
        push_behind_whole(text, u128::from(*count))?;
    }
    Ok(())
}

// Appends the first part of the line of an animal.
fn push_first(
    text: &mut Vec<u8>,
    report: &Report,
    dated: bool,
    animal: usize,
    told: &Told,
) -> Result<(), AllocError>
    ensures { OnOk result (text.new.items ≡ text.old.items ++ told_first (read report.now) dated animal told.now) }
{
    push_name_at(text, report, animal)?;
    push_behind_known(text, told.records)?;
    push_left_cells(text, &told.left)?;
    push_fact_cells(text, dated, &told.facts)
}

// Appends the rest of the line of an animal.
fn push_last(
    text: &mut Vec<u8>,
    report: &Report,
    dated: bool,
    animal: usize,
    told: &Told,
) -> Result<(), AllocError>
    ensures { OnOk result (text.new.items ≡ text.old.items ++ told_last (read report.now) dated animal told.now) }
{
    push_level_cells(text, report, animal, levels_of(report))?;
    push_growth_cells(text, dated, &told.facts)?;
    text.extend_from_slice(b"\n")
}

// Appends the line of an animal.
fn push_line(
    text: &mut Vec<u8>,
    report: &Report,
    dated: bool,
    animal: usize,
    told: &Told,
) -> Result<(), AllocError>
    ensures { OnOk result (text.new.items ≡ text.old.items ++ line (told_cells (read report.now) dated animal told.now)) }
{
    push_first(text, report, dated, animal, told)?;
    push_last(text, report, dated, animal, told)
}

// Appends the titles of reasons, behind others.
fn push_reasons(text: &mut Vec<u8>, reasons: &[&[u8]]) -> Result<(), AllocError>
    ensures { OnOk result (text.new.items ≡ text.old.items ++ behind (reason_titles (map (λ reason. reason.now) reasons.now))) }
{
    for reason in reasons {
        text.extend_from_slice(b",left_")?;
        text.extend_from_slice(reason)?;
    }
    Ok(())
}

// Appends the titles of levels, behind others.
fn push_levels(text: &mut Vec<u8>, levels: &[PercentRow]) -> Result<(), AllocError>
    ensures { OnOk result (text.new.items ≡ text.old.items ++ behind (level_titles levels.now)) }
{
    for own in levels {
        text.extend_from_slice(b",hectares_")?;
        push_whole(text, u128::from(own.level))?;
    }
    Ok(())
}

// Appends the titles of fixes, behind others.
fn push_fact_titles(text: &mut Vec<u8>) -> Result<(), AllocError>
    ensures { OnOk result (text.new.items ≡ text.old.items ++ behind fact_titles) }
{
    text.extend_from_slice(b",used,first,last,days,median_hours,longest_hours")
}

// Appends the first part of the line of titles.
fn push_first_titles(text: &mut Vec<u8>, reasons: &[&[u8]]) -> Result<(), AllocError>
    ensures { OnOk result (text.new.items ≡ text.old.items ++ titles_first (map (λ reason. reason.now) reasons.now)) }
{
    text.extend_from_slice(b"animal,records")?;
    push_reasons(text, reasons)?;
    push_fact_titles(text)
}

// Appends the rest of the line of titles.
fn push_last_titles(text: &mut Vec<u8>, report: &Report) -> Result<(), AllocError>
    ensures { OnOk result (text.new.items ≡ text.old.items ++ titles_last (read report.now)) }
{
    push_levels(text, levels_of(report))?;
    text.extend_from_slice(b",within_95_fix,within_95_time,last_tenth,last_quarter")?;
    text.extend_from_slice(b"\n")
}

// Appends the line of titles.
fn push_titles(text: &mut Vec<u8>, report: &Report, reasons: &[&[u8]]) -> Result<(), AllocError>
    ensures { OnOk result (text.new.items ≡ text.old.items ++ line (animal_titles (read report.now) (map (λ reason. reason.now) reasons.now))) }
{
    push_first_titles(text, reasons)?;
    push_last_titles(text, report)
}

/// Appends the table of animals, `animals.csv`: a line for each that is told of, in the order of the report. Reasons are those for
/// which fixes were left out, one word each.
///
/// # Errors
///
/// Memory ran out.
pub fn push_animals(
    text: &mut Vec<u8>,
    report: &Report,
    reasons: &[&[u8]],
    told: &[Told],
) -> Result<(), AllocError>
    ensures { OnOk result (text.new.items ≡ text.old.items ++ animals (read report.now) (map (λ reason. reason.now) reasons.now) told.now) }
{
    let dated = are_dates(report);
    push_titles(text, report, reasons)?;
    for (animal, own) in told.iter().enumerate() {
        push_line(text, report, dated, animal, own)?;
    }
    Ok(())
}
