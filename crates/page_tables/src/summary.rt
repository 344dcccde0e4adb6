// The table of animals and levels.

ghost use Rattle.std.specs.Prelude.{◌≡◌, ◌++◌, OnOk, length, map};
ghost use Rattle.std.specs.List.{flat_map};
ghost use Rattle.page_report.specs.Reading.{read, said};
ghost use Rattle.page_tables.specs.Lines.{behind, joined, line, table};
ghost use Rattle.page_tables.specs.Summary.{animal_cells, animal_lines, percent_cells, summary, summary_cells, summary_titles};

use crate::cells::{push_behind_hectares, push_behind_time, push_behind_whole, push_name};
use page_facts::{are_dates, second_of_fix};
use page_report::{ReadAnimal, Report};
use range_plane::Scale;
use range_stats::PercentRow;
use std::alloc::AllocError;

// Appends the titles.
fn push_titles(text: &mut Vec<u8>) -> Result<(), AllocError>
    ensures { OnOk result (text.new.items ≡ text.old.items ++ line summary_titles) }
{
    text.extend_from_slice(b"animal,first,last,fixes,level,kept,corners,hectares\n")
}

// Appends the cells of an animal.
fn push_animal_cells(text: &mut Vec<u8>, dated: bool, animal: &ReadAnimal) -> Result<(), AllocError>
    ensures { OnOk result (text.new.items ≡ text.old.items ++ joined (animal_cells dated (said animal.now))) }
{
    push_name(text, &animal.name)?;
    push_behind_time(text, dated, second_of_fix(animal, 1))?;
    push_behind_time(text, dated, second_of_fix(animal, animal.rows.len()))?;
    push_behind_whole(text, animal.rows.len() as u128)
}

// Appends the cells of a polygon behind others.
fn push_percent_cells(
    text: &mut Vec<u8>,
    unit: Scale,
    percent: &PercentRow,
) -> Result<(), AllocError>
    ensures { OnOk result (text.new.items ≡ text.old.items ++ behind (percent_cells unit percent.now)) }
{
    push_behind_whole(text, u128::from(percent.level))?;
    push_behind_whole(text, u128::from(percent.kept))?;
    push_behind_whole(text, u128::from(percent.corners))?;
    push_behind_hectares(text, percent.area2, unit)
}

// Appends the line of an animal at a level.
fn push_line(
    text: &mut Vec<u8>,
    dated: bool,
    unit: Scale,
    animal: &ReadAnimal,
    percent: &PercentRow,
) -> Result<(), AllocError>
    ensures { OnOk result (text.new.items ≡ text.old.items ++ line (summary_cells dated unit (said animal.now) percent.now)) }
{
    push_animal_cells(text, dated, animal)?;
    push_percent_cells(text, unit, percent)?;
    text.extend_from_slice(b"\n")
}

// Appends the lines of an animal.
fn push_animal(
    text: &mut Vec<u8>,
    dated: bool,
    unit: Scale,
    animal: &ReadAnimal,
) -> Result<(), AllocError>
    ensures { OnOk result (text.new.items ≡ text.old.items ++ table (animal_lines dated unit (said animal.now))) }
{
    for percent in &animal.percents {
        push_line(text, dated, unit, animal, percent)?;
    }
    Ok(())
}

/// Appends the table of animals and levels, `summary.csv`.
///
/// # Errors
///
/// Memory ran out.
pub fn push_summary(text: &mut Vec<u8>, report: &Report) -> Result<(), AllocError>
    ensures { OnOk result (text.new.items ≡ text.old.items ++ summary (read report.now)) }
{
    let dated = are_dates(report);
    push_titles(text)?;
    for animal in &report.animals {
        push_animal(text, dated, report.unit, animal)?;
    }
    Ok(())
}
