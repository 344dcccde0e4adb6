// A point that is added to a hull, where a cover flag says whether it is covered.

ghost use Rattle.std.specs.Prelude.{◌≡◌, ◌+◌, ◌<◌, ◌≤◌, ◌∷◌, List, IsTrue, true, if◌then◌else◌};
ghost use Rattle.range_plane.specs.ConvexCover.{is_covered};
ghost use Rattle.range_plane.specs.Fix.{fix_limit};
ghost use Rattle.range_plane.specs.Plane.{Position};
ghost use Rattle.range_plane.specs.Polygon.{IsPolygon};

use range_hull::OnlineHull;
use range_plane::Point;
use std::alloc::Allocator;

/// Adds a point to a hull that has room for it; where it is known to be covered, by counting it alone. Where it is not
/// known, `covered` is false, and the point is tested.
pub fn add_point<A: Allocator>(hull: &mut OnlineHull<A>, p: Point, covered: bool)
    requires room { 0 < hull.old.spare }
    requires few { hull.old.inserted + hull.old.skipped < fix_limit }
    requires covered { covered ≡ true → IsTrue (is_covered hull.old.corners p) }
    ensures set { (S : List Position) → IsPolygon S hull.old.corners
        → IsPolygon (p ∷ S) hull.new.corners }
    ensures inserted { hull.new.inserted ≡ hull.old.inserted + (if covered then 0 else 1) }
    ensures points { hull.new.inserted + hull.new.skipped ≡ hull.old.inserted + hull.old.skipped
        + 1 }
    ensures covered { covered ≡ true → hull.new.corners ≡ hull.old.corners }
    ensures spare { hull.old.spare ≤ hull.new.spare + 1 }
{
    if covered {
        hull.skip(p);
    } else {
        hull.insert(p);
    }
}
