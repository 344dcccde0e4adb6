// The grid of a table's coordinates.

ghost use Rattle.std.specs.Prelude.{IfErr};
ghost use Rattle.split_refusal.specs.Refused.{IsOfNoFix};

use crate::degrees::check_degrees;
use crate::projection::projected_zone;
use crate::said::Said;
use crate::sheet::Sheet;
use crate::shift::find_shift;
use crate::stop::{Stop, refusal_of};
use crate::utm::utm_zone;
use crate::words::{push, push_zone};
use crate::zeros::ask_zeros;
use range_plane::OutOfMemory;
use split_reading::{Ledger, Row, Zone};
use split_refusal::Refusal;
use std::alloc::Global;

/// The grid on which tracks are made.
#[derive(Clone, Copy, PartialEq, Eq, Debug)]
pub struct Grid {
    /// The zone, as it is told; none where it is not known.
    pub zone: Option<Zone>,
    /// The zone of which fixes are taken that are of no other; none where all are of one grid.
    pub of_zone: Option<Zone>,
    /// By how many whole metres coordinates are shifted, east and north.
    pub shift: (i64, i64),
    /// Whether longitude and latitude are projected; else metres are those of the table.
    pub is_projected: bool,
}

// Says that coordinates are those of the table, and of which zone or reference system, if one was named.
fn tell_zone(alloc: Global, said: &mut Said, sheet: &Sheet<'_>) -> Result<(), OutOfMemory> {
    let mut text = Vec::new(alloc);
    push(&mut text, "coordinates are those of the table; ")?;
    match sheet.zone {
        Some(zone) => {
            push(&mut text, "zone: ")?;
            push_zone(&mut text, zone)?;
        }
        None if sheet.system.is_empty() => push(&mut text, "zone: not known")?,
        None => {
            push(&mut text, "reference system: ")?;
            text.extend_from_slice(sheet.system)?;
        }
    }
    said.say(alloc, &text)
}

// The grid of metres that are those of the table.
fn own_grid(alloc: Global, said: &mut Said, sheet: &Sheet<'_>, rows: &[Row]) -> Result<Grid, Stop> {
    tell_zone(alloc, said, sheet)?;
    let shift = find_shift(alloc, said, sheet.unit, rows)?;
    Ok(Grid {
        zone: sheet.zone,
        of_zone: None,
        shift,
        is_projected: false,
    })
}

// The grid of longitude and latitude, which are projected.
fn projected_grid(
    alloc: Global,
    said: &mut Said,
    sheet: &Sheet<'_>,
    rows: &[Row],
) -> Result<Grid, Stop> {
    let zone = projected_zone(alloc, said, sheet, rows)?;
    Ok(Grid {
        zone: Some(zone),
        of_zone: None,
        shift: (0, 0),
        is_projected: true,
    })
}

// The grid of the rows of a table.
fn grid_of(
    alloc: Global,
    said: &mut Said,
    sheet: &Sheet<'_>,
    rows: &[Row],
    unrounded: Option<(f64, f64)>,
) -> Result<Grid, Stop> {
    let Some(metres) = sheet.columns.metres else {
        return projected_grid(alloc, said, sheet, rows);
    };
    ask_zeros(alloc, said, rows, sheet.unit)?;
    check_degrees(alloc, said, sheet, metres, rows, unrounded)?;
    if !sheet.columns.is_utm {
        return own_grid(alloc, said, sheet, rows);
    }
    match utm_zone(alloc, said, sheet, rows)? {
        Some(zone) => Ok(Grid {
            zone: Some(zone),
            of_zone: Some(zone),
            shift: (0, 0),
            is_projected: false,
        }),
        None => projected_grid(alloc, said, sheet, rows),
    }
}

/// The grid on which the fixes of a table are taken, which is said. `unrounded` are the easting and northing of the first fix
/// that is taken and has some, as the table writes them, where not all that are taken are whole numbers of metres; none where
/// all are.
///
/// # Errors
///
/// Coordinates are degrees, of no zone, of several or wider than a grid; fixes have none; or memory ran out.
pub fn find_grid(
    alloc: Global,
    said: &mut Said,
    sheet: &Sheet<'_>,
    ledger: &Ledger,
    unrounded: Option<(f64, f64)>,
) -> Result<Grid, Refusal>
    ensures { IfErr result IsOfNoFix }
{
    match grid_of(alloc, said, sheet, &ledger.rows, unrounded) {
        Ok(grid) => Ok(grid),
        Err(stop) => Err(refusal_of(alloc, stop)),
    }
}
