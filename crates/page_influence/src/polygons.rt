// Polygons of some of the fixes.

ghost use Rattle.std.specs.Prelude.{◌≡◌, ◌+◌, ◌++◌, ◌≤◌, ◌<◌, List, IfOk, length};
ghost use Rattle.range_plane.specs.Fix.{fix_limit};
ghost use Rattle.range_plane.specs.Plane.{Position};
ghost use Rattle.range_plane.specs.Polygon.{IsPolygon};
ghost use Rattle.page_influence.specs.Influence.{IsAreaOf};
ghost use Rattle.page_influence.specs.Layers.{IsPolygonOfRest, other_corners};

use range_hull::OnlineHull;
use range_plane::{Columns, OutOfMemory, Point, Polygon};
use std::alloc::Global;

// The polygon of the fixes that have no flag.
pub(crate) fn polygon_of_rest(
    alloc: Global,
    points: &Columns,
    flags: &[bool],
) -> Result<Polygon, OutOfMemory>
    requires few { length points.now.points ≤ fix_limit }
    requires flags { length flags.now ≡ length points.now.points }
    ensures { IfOk result (λ polygon. IsPolygonOfRest points.now.points flags.now polygon) }
{
    let mut hull = OnlineHull::new(alloc);
    hull.reserve(points.len())?;
    for index in 0..points.len() {
        if !flags[index] {
            hull.insert(points.at(index));
        }
    }
    hull.polygon(alloc)
}

// Adds points to a hull that has room for them, the last first.
fn insert_all(hull: &mut OnlineHull, points: &[Point])
    requires room { length points.now ≤ hull.old.spare }
    requires few { hull.old.inserted + hull.old.skipped + length points.now ≤ fix_limit }
    ensures set { (S : List Position) → IsPolygon S hull.old.corners
        → IsPolygon (points.now ++ S) hull.new.corners }
    ensures counted { hull.new.inserted + hull.new.skipped
        ≡ hull.old.inserted + hull.old.skipped + length points.now }
    ensures spare { hull.old.spare ≤ hull.new.spare + length points.now }
{
    let mut left = points.len();
    while left > 0 {
        left -= 1;
        hull.insert(points[left]);
    }
}

// The doubled area of the polygon of all corners but the one at a place, and of those of the rest.
pub(crate) fn area_of_others(
    alloc: Global,
    corners: &[Point],
    place: usize,
    inner: &[Point],
) -> Result<u128, OutOfMemory>
    requires place { place < length corners.now }
    requires few { length corners.now + length inner.now ≤ fix_limit }
    ensures { IfOk result (IsAreaOf (other_corners corners.now place inner.now)) }
{
    let mut hull = OnlineHull::new(alloc);
    hull.reserve(corners.len() + inner.len())?;
    insert_all(&mut hull, inner);
    insert_all(&mut hull, &corners[place + 1..]);
    insert_all(&mut hull, &corners[..place]);
    Ok(hull.area2())
}
