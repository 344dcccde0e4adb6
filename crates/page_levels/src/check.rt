// Whether a report says of an animal what its fixes say.

ghost use Rattle.std.specs.Prelude.{◌≡◌, ◌↔◌, ◌≤◌, false, IfErr, IfOk, IsTrue, length, map};
ghost use Rattle.range_estimator.specs.Estimation.{IsTable};
ghost use Rattle.range_lanes.specs.Extent.{IsExtent};
ghost use Rattle.range_plane.specs.Fix.{fix_limit};
ghost use Rattle.range_plane.specs.Polygon.{IsPolygon};
ghost use Rattle.range_plane.specs.Row.{points_of};
ghost use Rattle.page_levels.specs.Same.{AreSameFixes, IsOther, corner_at, corner_position};

use crate::fault::LevelFault;
use page_report::{Corner, ReadAnimal};
use range_estimator::{Estimator, Row};
use range_lanes::{Extent, extremes};
use range_plane::{Columns, Fix, OutOfMemory, Point};
use std::alloc::{AllocError, Global};

// Whether a box is that of some points.
fn is_extent(points: &Columns, extent: Extent) -> bool
    ensures { IsTrue result ↔ IsExtent points.now.points extent }
{
    match extremes(points) {
        Some(own) => own == extent,
        None => false,
    }
}

// Whether rows are those of the fixes that an estimator took.
fn are_rows(estimator: &Estimator, rows: &[Row]) -> bool
    ensures { IsTrue result ↔ IsTable estimator.now.fixes rows.now }
{
    estimator.rows() == rows
}

// The corners of a report at points.
fn corners_at(alloc: Global, points: &[Point]) -> Result<Vec<Corner>, AllocError>
    ensures { IfOk result (λ corners. corners.items ≡ map corner_at points.now) }
{
    points
        .iter()
        .map(|point| Corner {
            easting: point.e,
            northing: point.n,
        })
        .collect(alloc)
}

// Whether corners are those of the polygon of the fixes that an estimator took.
fn are_corners(
    alloc: Global,
    estimator: &Estimator,
    corners: &[Corner],
) -> Result<bool, OutOfMemory>
    ensures { IfOk result (λ are. IsTrue are ↔ IsPolygon (points_of estimator.now.fixes) (map corner_position corners.now)) }
{
    let polygon = estimator.polygon(alloc)?;
    let own = corners_at(alloc, polygon.corners())?;
    Ok(own.as_slice() == corners)
}

// Checks what an estimator says of the fixes of an animal.
fn check_estimate(
    alloc: Global,
    estimator: &Estimator,
    animal: &ReadAnimal,
) -> Result<(), LevelFault>
    ensures same { IfOk result (λ done. AreSameFixes estimator.now.fixes animal.now) }
    ensures fault { IfErr result (IsOther estimator.now.fixes animal.now) }
{
    if !is_extent(estimator.columns(), animal.extent) {
        return Err(LevelFault::OtherExtent);
    }
    if !are_rows(estimator, &animal.rows) {
        return Err(LevelFault::OtherRow);
    }
    if !are_corners(alloc, estimator, &animal.corners)? {
        return Err(LevelFault::OtherCorner);
    }
    Ok(())
}

// Checks the fixes of an animal, and puts their points into columns.
pub(crate) fn check_fixes(
    alloc: Global,
    fixes: &[Fix],
    animal: &ReadAnimal,
) -> Result<Columns, LevelFault>
    requires { length fixes.now ≤ fix_limit }
    ensures points { IfOk result (λ columns. columns.points ≡ points_of fixes.now) }
    ensures same { IfOk result (λ columns. AreSameFixes fixes.now animal.now) }
    ensures fault { IfErr result (IsOther fixes.now animal.now) }
{
    if fixes.len() != animal.rows.len() {
        return Err(LevelFault::OtherCount);
    }
    let mut estimator = Estimator::new(alloc);
    estimator.take_block(fixes)?;
    check_estimate(alloc, &estimator, animal)?;
    let (_rows, columns) = estimator.into_parts();
    Ok(columns)
}
