// The percent polygons of a report.

ghost use Rattle.std.specs.Prelude.{◌≡◌, ◌↔◌, ◌≤◌, pos, All, IfErr, IfOk, IsTrue, length};
ghost use Rattle.range_plane.specs.Fix.{fix_limit};
ghost use Rattle.range_plane.specs.Polygon.{area2};
ghost use Rattle.page_levels.specs.Kept.{IsOtherRow, IsRowOfFirst};

use crate::fault::LevelFault;
use crate::kept::{first_kept, polygon_at};
use range_plane::{OutOfMemory, Point, Polygon};
use range_stats::PercentRow;
use std::alloc::Global;

// Whether a row has so many points and this polygon.
fn has_polygon(row: PercentRow, kept: usize, polygon: &Polygon) -> bool
    ensures { IsTrue result ↔ (row.kept ≡ kept) × (row.corners ≡ length polygon.now) × (pos row.area2 ≡ area2 polygon.now) }
{
    row.kept as usize == kept
        && row.corners as usize == polygon.corners().len()
        && row.area2 == polygon.area2()
}

// Whether a row is that of the points that its level keeps, of points by their distance from the mean of all.
fn is_row(alloc: Global, ranked: &[Point], row: PercentRow) -> Result<bool, OutOfMemory>
    requires { length ranked.now ≤ fix_limit }
    ensures { IfOk result (λ is_row. IsTrue is_row ↔ IsRowOfFirst ranked.now row) }
{
    let kept = first_kept(ranked, row.level).len();
    let polygon = polygon_at(alloc, ranked, row.level)?;
    Ok(has_polygon(row, kept, &polygon))
}

// Checks the percent polygons of a report.
pub(crate) fn check_percents(
    alloc: Global,
    ranked: &[Point],
    rows: &[PercentRow],
) -> Result<(), LevelFault>
    requires { length ranked.now ≤ fix_limit }
    ensures rows { IfOk result (λ done. All (IsRowOfFirst ranked.now) rows.now) }
    ensures fault { IfErr result (IsOtherRow ranked.now rows.now) }
{
    for row in rows {
        if !is_row(alloc, ranked, *row)? {
            return Err(LevelFault::OtherPercent { level: row.level });
        }
    }
    Ok(())
}
