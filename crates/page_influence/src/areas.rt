// The area of the polygon of all fixes but one, for each fix.

ghost use Rattle.std.specs.Prelude.{ℕ, ◌≡◌, ◌+◌, ◌≤◌, ◌<◌, IfOk, OnOk, length, slice_index};
ghost use Rattle.range_plane.specs.Fix.{fix_limit};
ghost use Rattle.page_influence.specs.Layers.{AreAreasWithout, IsPolygonWithout, IsSetAt};

use crate::corner_fixes::{corner_fixes, flags_of};
use crate::polygons::{area_of_others, polygon_of_rest};
use range_plane::{Columns, OutOfMemory, Point, Polygon};
use std::alloc::Global;

// Sets the area without each fix that stands for a corner: that of the other corners and of those of the rest.
fn set_areas(
    alloc: Global,
    corners: &[Point],
    inner: &[Point],
    fixes: &[usize],
    areas: &mut [u128],
) -> Result<(), OutOfMemory>
    requires few { length corners.now + length inner.now ≤ fix_limit }
    requires places { length fixes.now ≡ length corners.now }
    requires within { (k : ℕ) → k < length fixes.now
        → slice_index fixes.now k < length areas.old }
    ensures { OnOk result ((i : ℕ) → i < length areas.old
        → IsSetAt corners.now inner.now fixes.now areas.old areas.new i) }
{
    for (place, fix) in fixes.iter().enumerate() {
        areas[*fix] = area_of_others(alloc, corners, place, inner)?;
    }
    Ok(())
}

// The polygon of all fixes but these.
fn polygon_without(alloc: Global, points: &Columns, fixes: &[usize]) -> Result<Polygon, OutOfMemory>
    requires few { length points.now.points ≤ fix_limit }
    requires within { (k : ℕ) → k < length fixes.now
        → slice_index fixes.now k < length points.now.points }
    ensures { IfOk result (λ polygon. IsPolygonWithout points.now.points fixes.now polygon) }
{
    let flags = flags_of(alloc, points.len(), fixes)?;
    polygon_of_rest(alloc, points, &flags)
}

// For each fix the doubled area of the polygon of all others. Only a fix at a corner can change the polygon where it is
// left out. One fix stands for each corner: without it the polygon is that of the other corners and of all fixes that
// stand for none. Where a second fix is at that corner, it is one of these.
pub(crate) fn areas_without(alloc: Global, points: &Columns) -> Result<Vec<u128>, OutOfMemory>
    requires { length points.now.points ≤ fix_limit }
    ensures { IfOk result (λ areas. AreAreasWithout points.now.points areas.items) }
{
    let outer = polygon_without(alloc, points, &[])?;
    let fixes = corner_fixes(alloc, points, outer.corners())?;
    let inner = polygon_without(alloc, points, &fixes)?;
    let mut areas = Vec::new(alloc);
    areas.resize(points.len(), outer.area2())?;
    set_areas(alloc, outer.corners(), inner.corners(), &fixes, &mut areas)?;
    Ok(areas)
}
