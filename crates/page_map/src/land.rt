// Points of the ground.

ghost use Rattle.std.specs.Prelude.{◌≡◌, ◌↔◌, ◌^◌, IfSome, IsSome, IsTrue};
ghost use Rattle.range_plane.specs.Plane.{IsCoordinate};
ghost use Rattle.page_drawing.specs.Bounds.{IsWithin};

use range_plane::{Point, Scale};

/// How far a point of the ground may lie from the origin along an axis, in millimetres: 2^42, some four million kilometres.
pub const GROUND_LIMIT: i64 = 4_398_046_511_104;

/// A point of the ground by its easting and its northing, in whole millimetres, each at most [`GROUND_LIMIT`], with a minus or
/// without one.
#[derive(Clone, Copy)]
pub struct Ground {
    pub east: i64,
    pub north: i64,
    pub ghost east_within: { IsWithin (2 ^ 42) east },
    pub ghost north_within: { IsWithin (2 ^ 42) north },
}

/// What the whole units of a report are: metres or decimetres, with so many metres added to eastings and northings.
#[derive(Clone, Copy)]
pub struct Plane {
    pub unit: Scale,
    pub east: i32,
    pub north: i32,
}

// Whether a coordinate is within the limit.
fn is_within(coordinate: i64) -> bool
    ensures { IsTrue result ↔ IsWithin (2 ^ 42) coordinate }
{
    -GROUND_LIMIT <= coordinate && coordinate <= GROUND_LIMIT
}

impl Ground {
    /// The point at these coordinates; `None` where one of them is outside the limits.
    pub fn new(east: i64, north: i64) -> Option<Ground>
        ensures place { IfSome result (λ at. (at.east ≡ east) × (at.north ≡ north)) }
        ensures within { IsSome result ↔ (IsWithin (2 ^ 42) east × IsWithin (2 ^ 42) north) }
    {
        if is_within(east) && is_within(north) {
            Some(Ground { east, north })
        } else {
            None
        }
    }
}

// A coordinate in millimetres.
fn millimetres(unit: Scale, coordinate: i64) -> i64
    requires { IsCoordinate coordinate }
    ensures { IsWithin (2 ^ 40) result }
{
    match unit {
        Scale::Metre => 1000 * coordinate,
        Scale::Decimetre => 100 * coordinate,
    }
}

// A coordinate without so many metres.
fn without(coordinate: i64, metres: i32) -> i64
    requires { IsWithin (2 ^ 40) coordinate }
    ensures { IsWithin (2 ^ 42) result }
{
    coordinate - 1000 * i64::from(metres)
}

/// Where a point lies on the ground.
pub fn ground_of(plane: Plane, point: Point) -> Ground {
    Ground {
        east: without(millimetres(plane.unit, point.e), plane.east),
        north: without(millimetres(plane.unit, point.n), plane.north),
    }
}
