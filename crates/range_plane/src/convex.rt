// Whether points are, in their order, the corners of a polygon.

ghost use Rattle.std.specs.Prelude.{ℕ, ◌<◌, ◌≤◌, ◌↔◌, length, IsTrue};
ghost use Rattle.range_plane.specs.Edges.{at, TurnsLeftAt};
ghost use Rattle.range_plane.specs.Plane.{IsBefore};
ghost use Rattle.range_plane.specs.Polygon.{IsPolygon};

use crate::order::comes_before;
use crate::point::{Point, turn};

// Whether the point at `index` comes after the first.
fn follows_first(points: &[Point], index: usize) -> bool
    requires { index < length points.now }
    ensures { IsTrue result ↔ IsBefore (at points.now 0) (at points.now index) }
{
    comes_before(points[0], points[index])
}

// Whether the points at `index - 1` and `index` turn left, after the first point and after the one at
// `index - 2`.
fn turns_left(points: &[Point], index: usize) -> bool
    requires third { 1 < index }
    requires within { index < length points.now }
    ensures { IsTrue result ↔ TurnsLeftAt points.now index }
{
    let (last, next) = (points[index - 1], points[index]);
    turn(points[0], last, next) > 0 && turn(points[index - 2], last, next) > 0
}

// Whether the first point comes before every other.
fn begin_with_least(points: &[Point]) -> bool
    ensures { IsTrue result
        ↔ ((i : ℕ) → 1 ≤ i → i < length points.now → IsBefore (at points.now 0) (at points.now i)) }
{
    (1..points.len()).all(|i| follows_first(points, i))
}

// Whether the points turn left from the third on.
fn turn_left_throughout(points: &[Point]) -> bool
    ensures { IsTrue result ↔ ((i : ℕ) → 2 ≤ i → i < length points.now → TurnsLeftAt points.now i) }
{
    (2..points.len()).all(|i| turns_left(points, i))
}

/// Whether these points are, in this order, the corners of a polygon: the test of what
/// [`Polygon::of_corners`](crate::Polygon::of_corners) requires, in two passes over them.
pub fn are_corners(points: &[Point]) -> bool
    ensures { IsTrue result ↔ IsPolygon points.now points.now }
{
    // The others lie in half a turn round the first, so left turns round it pass none of them twice.
    begin_with_least(points) && turn_left_throughout(points)
}
