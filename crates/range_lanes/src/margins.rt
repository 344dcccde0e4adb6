// Which of eight points a polygon of a few corners covers, by the side of each edge on which they lie.

ghost use Rattle.std.specs.Prelude.{◌≡◌, ◌<◌, ◌≤◌, length, map};
ghost use Rattle.std.specs.Simd.Lanes.{Each1};
ghost use Rattle.range_plane.specs.ConvexCover.{scalar_product, is_covered, is_on_segment};
ghost use Rattle.range_plane.specs.Plane.{turn, turn_limit};
ghost use Rattle.range_plane.specs.Polygon.{IsPolygon};
ghost use Rattle.range_lanes.specs.EdgeLines.{AreLinesOf};
ghost use Rattle.range_lanes.specs.Lanes.{IsBounded, is_not_negative};

use crate::edge_lines::{EdgeLine, LANE_CORNERS, lines_of};
use crate::eight::Eight;
use crate::lanes::Lanes;
use range_plane::Point;
use std::marker::Model;

// The edges of a polygon of a few corners. Contracts see the corners.
#[derive(Drop)]
pub(crate) struct Edges<'a> {
    corners: &'a [Point],
    lines: [EdgeLine; LANE_CORNERS],
}

impl<'a> Model for Edges<'a> {
    ghost use Rattle.std.specs.Prelude.{◌<◌, List, length};
    ghost use Rattle.range_plane.specs.Plane.{Position};
    ghost use Rattle.range_plane.specs.Polygon.{IsPolygon};
    ghost use Rattle.range_lanes.specs.EdgeLines.{AreLinesOf};

    ghost Value = { List Position };

    ghost view = { λ edges. edges.corners.now };

    ghost invariant = { λ edges. IsPolygon edges.corners.now edges.corners.now
        × (0 < length edges.corners.now)
        × AreLinesOf edges.corners.now edges.lines };
}

impl<'a> Edges<'a> {
    // The edges between these corners; of one corner the way from it to itself.
    pub(crate) fn of(corners: &'a [Point]) -> Edges<'a>
        requires polygon { IsPolygon corners.now corners.now }
        requires some { 0 < length corners.now }
        requires few { length corners.now ≤ LANE_CORNERS }
        ensures { result ≡ corners.now }
    {
        let lines = lines_of(corners);
        Edges { corners, lines }
    }

    // A number for each point, which is at least 0 exactly where the corners cover the point.
    #[inline(always)]
    pub(crate) fn margins(&self, group: &Eight) -> Lanes
        ensures { map is_not_negative result ≡ map (is_covered self.now) group.now }
    {
        let corners = self.corners;
        if corners.len() <= 2 {
            margins_of_segment(corners[0], corners[corners.len() - 1], group)
        } else {
            margins_of_lines(corners, &self.lines, group)
        }
    }
}

// A number for each point, which is at least 0 exactly where the point lies on the segment.
#[inline(always)]
fn margins_of_segment(a: Point, b: Point, group: &Eight) -> Lanes
    ensures { map is_not_negative result ≡ map (λ q. is_on_segment q a b) group.now }
{
    let turned = turns(a, b, group);
    let products = scalar_products(a, b, group);
    turned
        .negated()
        .negative_in_either(turned)
        .negative_in_either(products.negated())
}

// The same for three or more corners: below 0 exactly where the point lies on the right of some edge.
#[inline(always)]
fn margins_of_lines(corners: &[Point], lines: &[EdgeLine], group: &Eight) -> Lanes
    requires polygon { IsPolygon corners.now corners.now }
    requires many { 2 < length corners.now }
    requires lines { AreLinesOf corners.now lines.now }
    ensures { map is_not_negative result ≡ map (is_covered corners.now) group.now }
{
    let mut margins = lines[0].sides(group);
    for i in 1..corners.len() {
        margins = margins.negative_in_either(lines[i].sides(group));
    }
    margins
}

// `turn` of `a`, `b` and each point.
#[inline(always)]
fn turns(a: Point, b: Point, group: &Eight) -> Lanes
    ensures value { result ≡ map (turn a b) group.now }
    ensures small { Each1 (IsBounded turn_limit) result }
{
    let by_north = group.north_of(a.n).scaled(b.e - a.e);
    let by_east = group.east_of(a.e).scaled(b.n - a.n);
    by_north.minus(by_east)
}

// `scalar_product` of each point, `a` and `b`.
#[inline(always)]
fn scalar_products(a: Point, b: Point, group: &Eight) -> Lanes
    ensures value { result ≡ map (λ q. scalar_product q a b) group.now }
    ensures small { Each1 (IsBounded turn_limit) result }
{
    let along_e = group.east_of(a.e).times(group.east_of(b.e));
    let along_n = group.north_of(a.n).times(group.north_of(b.n));
    along_e.plus(along_n)
}
