// The overlap of fixes with a range.

ghost use Rattle.std.specs.Prelude.{◌≡◌, List};
ghost use Rattle.range_plane.specs.Plane.{Position};
ghost use Rattle.range_plane.specs.Polygon.{IsPolygon};
ghost use Rattle.range_stats.specs.Overlap.{overlap};

use range_lanes::count_inside;
use range_plane::{Columns, Polygon};
use std::alloc::Allocator;

/// How many of the fixes the range covers, repeats counted. A fix on an edge or at a corner is covered.
pub fn overlap<A: Allocator, B: Allocator>(fixes: &Columns<A>, range: &Polygon<B>) -> u64
    ensures corners { result ≡ overlap fixes.now.points range.now }
    ensures set { (S : List Position) → IsPolygon S range.now
        → result ≡ overlap fixes.now.points S }
{
    count_inside(range, fixes)
}
