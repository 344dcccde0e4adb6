// Points within the limits of the plane.

ghost use Rattle.std.specs.Int.RustNames.{unsigned_abs};
ghost use Rattle.std.specs.Prelude.{◌≡◌, ◌≤◌, SomeIff};
ghost use Rattle.range_plane.specs.ConvexCover.{scalar_product};
ghost use Rattle.range_plane.specs.Plane.{IsCoordinate, position, turn, turn_limit};

use std::marker::Model;

/// The greatest easting and northing of a point, in any unit: 2^27.
pub const COORDINATE_LIMIT: i64 = 134_217_728;

/// A point by its easting `e` and its northing `n`, whole numbers of one unit, each from 0 to
/// [`COORDINATE_LIMIT`].
#[derive(Clone, Copy, PartialEq, Eq, Debug)]
pub struct Point {
    pub e: i64,
    pub n: i64,
}

impl Model for Point {
    ghost use Rattle.range_plane.specs.Plane.{IsCoordinate, Position, position};

    ghost Value = { Position };

    ghost view = { λ p. position p.e p.n };

    ghost invariant = { λ p. IsCoordinate p.e × IsCoordinate p.n };

    ghost inverse = { λ p. record { e = p.e; n = p.n } };
}

impl Point {
    /// The point at these coordinates; `None` where one of them is outside the limits.
    pub fn new(e: i64, n: i64) -> Option<Point>
        ensures { SomeIff result (IsCoordinate e × IsCoordinate n) (position e n) }
    {
        let limits = 0..=COORDINATE_LIMIT;
        if limits.contains(&e) && limits.contains(&n) {
            Some(Point { e, n })
        } else {
            None
        }
    }
}

/// Twice the signed area of the triangle `a`, `b`, `c`, in squares of the unit: positive where the three go
/// counterclockwise, 0 where they are collinear.
pub fn turn(a: Point, b: Point, c: Point) -> i64
    ensures value { result ≡ turn a b c }
    ensures bound { unsigned_abs result ≤ turn_limit }
{
    (b.e - a.e) * (c.n - a.n) - (b.n - a.n) * (c.e - a.e)
}

// The scalar product of the vectors from `q` to `a` and from `q` to `b`.
pub(crate) fn scalar_product(q: Point, a: Point, b: Point) -> i64
    ensures { result ≡ scalar_product q a b }
{
    (a.e - q.e) * (b.e - q.e) + (a.n - q.n) * (b.n - q.n)
}
