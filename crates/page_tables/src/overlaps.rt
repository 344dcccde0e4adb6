// The table of the shares of fixes that lie in ranges.

ghost use Rattle.std.specs.Prelude.{◌≡◌, ◌++◌, OnOk, length, map};
ghost use Rattle.std.specs.List.{slice_get};
ghost use Rattle.page_report.specs.Reading.{read};
ghost use Rattle.page_tables.specs.Lines.{behind, behind_comma, joined, line, name_cell, table};
ghost use Rattle.page_tables.specs.Overlaps.{cells_from, lines_from, name_if, overlap_cell, overlap_cells, overlap_titles, overlaps, range_cells};

use crate::cells::{push_name, wide};
use crate::shares::push_share_cell;
use page_facts::count_of;
use page_report::Report;
use std::alloc::AllocError;

// Appends the share of the fixes of an animal that lies in a range, behind other cells.
#[tactic(auto, unfolding(crate::specs::Overlaps::overlap_cell))]
fn push_overlap(
    text: &mut Vec<u8>,
    report: &Report,
    animal: usize,
    range: usize,
) -> Result<(), AllocError>
    ensures { OnOk result (text.new.items ≡ text.old.items ++ behind_comma (overlap_cell (read report.now) animal range)) }
{
    text.extend_from_slice(b",")?;
    let fixes = wide(count_of(report, animal, animal));
    push_share_cell(text, wide(count_of(report, animal, range)), fixes)
}

// Appends the shares of an animal in all ranges, behind other cells.
fn push_cells(text: &mut Vec<u8>, report: &Report, animal: usize) -> Result<(), AllocError>
    ensures { OnOk result (text.new.items ≡ text.old.items ++ behind (cells_from (read report.now) animal 0 (length (read report.now).animals))) }
{
    for range in 0..report.animals.len() {
        push_overlap(text, report, animal, range)?;
    }
    Ok(())
}

/// Appends the name of an animal.
pub(crate) fn push_name_at(
    text: &mut Vec<u8>,
    report: &Report,
    animal: usize,
) -> Result<(), AllocError>
    ensures { OnOk result (text.new.items ≡ text.old.items ++ name_cell (name_if (slice_get (read report.now).animals animal))) }
{
    match report.animals.get(animal) {
        Some(animal) => push_name(text, &animal.name),
        None => push_name(text, b""),
    }
}

// Appends the line of an animal.
fn push_line(text: &mut Vec<u8>, report: &Report, animal: usize) -> Result<(), AllocError>
    ensures { OnOk result (text.new.items ≡ text.old.items ++ line (overlap_cells (read report.now) animal)) }
{
    push_name_at(text, report, animal)?;
    push_cells(text, report, animal)?;
    text.extend_from_slice(b"\n")
}

// Appends the names of ranges behind other cells.
fn push_names(text: &mut Vec<u8>, report: &Report) -> Result<(), AllocError>
    ensures { OnOk result (text.new.items ≡ text.old.items ++ behind (range_cells (read report.now))) }
{
    for animal in &report.animals {
        text.extend_from_slice(b",")?;
        push_name(text, &animal.name)?;
    }
    Ok(())
}

// Appends the line of titles.
fn push_titles(text: &mut Vec<u8>, report: &Report) -> Result<(), AllocError>
    ensures { OnOk result (text.new.items ≡ text.old.items ++ line (overlap_titles (read report.now))) }
{
    text.extend_from_slice(b"fixes_of")?;
    push_names(text, report)?;
    text.extend_from_slice(b"\n")
}

/// Appends the table of the shares of the fixes of each animal that lie in each range, `overlaps.csv`.
///
/// # Errors
///
/// Memory ran out.
pub fn push_overlaps(text: &mut Vec<u8>, report: &Report) -> Result<(), AllocError>
    ensures { OnOk result (text.new.items ≡ text.old.items ++ overlaps (read report.now)) }
{
    push_titles(text, report)?;
    for animal in 0..report.animals.len() {
        push_line(text, report, animal)?;
    }
    Ok(())
}
