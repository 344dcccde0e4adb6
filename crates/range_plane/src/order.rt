// The order of points by easting, then by northing.

ghost use Rattle.std.specs.Bool.{OnFalse, OnTrue};
ghost use Rattle.std.specs.Prelude.{◌≡◌, ◌≤ℤ◌, pos};
ghost use Rattle.range_plane.specs.Order.{rank};
ghost use Rattle.range_plane.specs.Plane.{IsAtMost, IsBefore, IsWithinLimits};

use crate::point::{COORDINATE_LIMIT, Point};

// What one step of easting counts for in a rank: more than any northing.
const RANK_BASE: i64 = 2 * COORDINATE_LIMIT;

/// The rank of `p` in the order by easting, then by northing: points whose ranks rise stand in that order, and no
/// two points have one rank.
pub fn rank(p: Point) -> i64
    ensures value { result ≡ rank p }
    ensures not_negative { pos 0 ≤ℤ result }
    ensures within { IsWithinLimits p }
{
    p.e * RANK_BASE + p.n
}

// Whether `a` comes before `b`, by easting and then by northing: the sign of a difference, which can be
// used without a branch.
pub(crate) fn comes_before(a: Point, b: Point) -> bool
    ensures yes { OnTrue result (IsBefore a b) }
    ensures no { OnFalse result (IsAtMost b a) }
{
    rank(a) - rank(b) < 0
}
