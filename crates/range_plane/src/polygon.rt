// Minimum convex polygons.

ghost use Rattle.std.specs.Prelude.{◌≡◌, ◌≤◌, IfOk, length, pos};
ghost use Rattle.range_plane.specs.ConvexCover.{is_covered};
ghost use Rattle.range_plane.specs.Fix.{fix_limit};
ghost use Rattle.range_plane.specs.Polygon.{IsPolygon, area2};

use crate::area::area2;
use crate::edges::{covers, easternmost};
use crate::memory::OutOfMemory;
use crate::plain::corners_of;
use crate::point::Point;
use std::alloc::{Allocator, Global};
use std::marker::Model;

/// A minimum convex polygon by its corners, counterclockwise from the westernmost, of two such the
/// southern. It may have fewer than three.
#[derive(Drop)]
pub struct Polygon<A: Allocator = Global> {
    corners: Vec<Point, A>,
    // The index of the corner that comes last in order, by easting and then by northing.
    top: usize,
}

impl<A: Allocator> Model for Polygon<A> {
    ghost use Rattle.std.specs.Prelude.{List};
    ghost use Rattle.range_plane.specs.Edges.{IsTop};
    ghost use Rattle.range_plane.specs.Plane.{Position};
    ghost use Rattle.range_plane.specs.Polygon.{IsPolygon};

    ghost Value = { List Position };

    ghost view = { λ p. p.corners.items };

    ghost invariant = { λ p. IsPolygon p.corners.items p.corners.items
        × IsTop p.corners.items p.top };
}

impl<A: Allocator> Polygon<A> {
    /// The polygon of the set of these points, straight from the definitions: it takes about the fourth
    /// power of their number in steps, so it is for tests and small sets. Only the list of the corners
    /// takes memory.
    pub fn plain(alloc: A, points: &[Point]) -> Result<Polygon<A>, OutOfMemory>
        requires { length points.now ≤ fix_limit }
        ensures { IfOk result (λ polygon. IsPolygon points.now polygon) }
    {
        Ok(Polygon::of_corners(corners_of(alloc, points)?))
    }

    /// The polygon with these corners, in the list that is handed in. [`are_corners`](crate::are_corners)
    /// is the test of what it requires.
    pub fn of_corners(corners: Vec<Point, A>) -> Polygon<A>
        requires { IsPolygon corners.items corners.items }
        ensures { result ≡ corners.items }
    {
        let top = easternmost(&corners);
        Polygon { corners, top }
    }

    /// The corners, counterclockwise from the westernmost, of two such the southern.
    pub fn corners(&self) -> &[Point]
        ensures value { result.now ≡ self.now }
        ensures polygon { IsPolygon self.now self.now }
    {
        self.corners.as_slice()
    }

    /// The doubled area within the polygon, in squares of the unit: 0 below three corners.
    pub fn area2(&self) -> u128
        ensures { pos result ≡ area2 self.now }
    {
        area2(&self.corners)
    }

    /// Whether `q` lies within the polygon or on its boundary, in about as many steps as the number of
    /// corners has bits.
    pub fn covers(&self, q: Point) -> bool
        ensures { result ≡ is_covered self.now q }
    {
        covers(&self.corners, self.top, q)
    }
}
