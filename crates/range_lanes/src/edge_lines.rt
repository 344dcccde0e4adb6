// The lines through the edges of a polygon, and on which side of one eight points lie.

ghost use Rattle.std.specs.Prelude.{◌≡◌, ◌<◌, ◌≤◌, length, map};
ghost use Rattle.range_lanes.specs.EdgeLines.{AreLinesOf, IsLine, IsLineOf, side};

use crate::eight::Eight;
use crate::lanes::Lanes;
use range_plane::{Point, turn};

// The most corners of a polygon all of whose edges are tried, for eight points at once. In a polygon of more the edges
// that matter are searched for, a point at a time.
pub(crate) const LANE_CORNERS: usize = 36;

// A line: how far an edge along it goes to the east and to the north, and its turn at the origin.
#[derive(Clone, Copy)]
pub(crate) struct EdgeLine {
    east: i64,
    north: i64,
    at_origin: i64,
}

impl EdgeLine {
    // The line through `a` and `b`.
    fn through(a: Point, b: Point) -> EdgeLine
        ensures { IsLineOf a b result }
    {
        EdgeLine {
            east: b.e - a.e,
            north: b.n - a.n,
            at_origin: turn(a, b, Point { e: 0, n: 0 }),
        }
    }

    // On which side each point lies.
    #[inline(always)]
    pub(crate) fn sides(self, group: &Eight) -> Lanes
        requires { IsLine self }
        ensures { result ≡ map (side self) group.now }
    {
        let by_north = group.north_of(0).scaled(self.east);
        let by_east = group.east_of(0).scaled(self.north);
        by_north.minus(by_east).raised(self.at_origin)
    }
}

// Of each of a few corners the line of the edge that ends there. Those behind are spare.
pub(crate) fn lines_of(corners: &[Point]) -> [EdgeLine; LANE_CORNERS]
    requires some { 0 < length corners.now }
    requires few { length corners.now ≤ LANE_CORNERS }
    ensures { AreLinesOf corners.now result }
{
    let mut from = corners[corners.len() - 1];
    let mut lines = [EdgeLine::through(from, corners[0]); LANE_CORNERS];
    for i in 0..corners.len() {
        lines[i] = EdgeLine::through(from, corners[i]);
        from = corners[i];
    }
    lines
}
