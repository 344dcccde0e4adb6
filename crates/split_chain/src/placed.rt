// On which grid the fixes of a table are.

ghost use Rattle.std.specs.Prelude.{◌≡◌, IfErr};
ghost use Rattle.split_chain.specs.Placed.{ArePlaced, IsChoice, has_own_grid};
ghost use Rattle.split_refusal.specs.Refused.{IsOfNoFix};

use crate::read::grouped_refusal;
use crate::wish::Wish;
use range_plane::Scale;
use split_export::{look_at_metres, most_moved};
use split_fates::{Choice, own_shift, project_rows};
use split_reading::{Ledger, Row};
use split_refusal::Refusal;
use split_said::{Grid, Said, Sheet, find_grid};
use split_table::TableText;
use split_titles::Columns;
use split_tracks::Fate;
use std::alloc::Global;

// The unrounded place of the first fix that is taken, of a table with metres; or the refusal of numbers whose signs may stand
// before thousands.
fn unrounded(
    alloc: Global,
    text: &TableText<'_>,
    sheet: &Sheet<'_>,
    ledger: &Ledger,
) -> Result<Option<(f64, f64)>, Refusal>
    ensures { IfErr result IsOfNoFix }
{
    let Some(metres) = sheet.columns.metres else {
        return Ok(None);
    };
    match look_at_metres(alloc, text, metres, &ledger.rows) {
        Ok(look) => match look.grouped {
            Some((record, column)) => { Err(grouped_refusal(alloc, text.bytes(), record, column)) }
            None => Ok(look.unrounded),
        },
        Err(_) => Err(Refusal::out_of_memory(alloc)),
    }
}

/// Finds the grid of a table.
///
/// # Errors
///
/// Why the table is refused.
pub(crate) fn grid_of(
    alloc: Global,
    said: &mut Said,
    text: &TableText<'_>,
    sheet: &Sheet<'_>,
    ledger: &Ledger,
) -> Result<Grid, Refusal>
    ensures { IfErr result IsOfNoFix }
{
    let unrounded = unrounded(alloc, text, sheet, ledger)?;
    find_grid(alloc, said, sheet, ledger, unrounded)
}

/// Projects the longitudes and latitudes of a table where that is its grid. Answers by how many metres rounding then moves a fix
/// at most; none where metres are taken as they are.
pub(crate) fn place(
    rows: &mut [Row],
    columns: &Columns<Global>,
    grid: &Grid,
    unit: Scale,
    keeps_marks: bool,
) -> Option<f64>
    ensures { ArePlaced columns.now rows.old rows.new }
{
    match grid.zone {
        Some(zone) if grid.is_projected && columns.degrees.is_some() => {
            Some(project_rows(rows, zone, unit, keeps_marks))
        }
        _ => None,
    }
}

// Whether a table has metres that are not those of UTM.
fn has_own_grid(columns: &Columns<Global>) -> bool
    ensures { result ≡ has_own_grid columns.now }
{
    columns.metres.is_some() && !columns.is_utm
}

/// Which fixes are taken, and on which grid.
pub(crate) fn choice_of(
    columns: &Columns<Global>,
    rows: &[Row],
    grid: &Grid,
    unit: Scale,
    wish: &Wish<'_>,
) -> Choice
    ensures { IsChoice columns.now rows.now unit wish.now.keeps_marks result }
{
    if has_own_grid(columns) {
        return Choice {
            keeps_marks: wish.keeps_marks,
            zone: None,
            unit,
            shift: own_shift(unit, rows),
        };
    }
    Choice {
        keeps_marks: wish.keeps_marks,
        zone: grid.of_zone,
        unit,
        shift: (0, 0),
    }
}

/// By how many metres rounding moves a fix at most, of fixes with these fates.
///
/// # Errors
///
/// Memory ran out.
pub(crate) fn moved_by(
    alloc: Global,
    text: &TableText<'_>,
    sheet: &Sheet<'_>,
    fates: &[Fate],
    projected: Option<f64>,
) -> Result<f64, Refusal>
    ensures { IfErr result IsOfNoFix }
{
    if let Some(moved) = projected {
        return Ok(moved);
    }
    let Some(metres) = sheet.columns.metres else {
        return Ok(0.0);
    };
    match most_moved(alloc, text, metres, sheet.unit, fates) {
        Ok(moved) => Ok(moved),
        Err(_) => Err(Refusal::out_of_memory(alloc)),
    }
}
