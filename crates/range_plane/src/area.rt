// The doubled area of a polygon.

ghost use Rattle.std.specs.Prelude.{◌≡◌, ◌≤ℤ◌, pos};
ghost use Rattle.range_plane.specs.Plane.{turn};
ghost use Rattle.range_plane.specs.Polygon.{TurnsLeft, area2};

use crate::point::{Point, turn};

// The doubled area of a triangle whose corners do not go clockwise.
fn triangle(a: Point, b: Point, c: Point) -> u64
    requires { pos 0 ≤ℤ turn a b c }
    ensures { pos result ≡ turn a b c }
{
    turn(a, b, c) as u64
}

// The doubled area within corners that turn left: that of the triangles from the first of them.
pub(crate) fn area2(corners: &[Point]) -> u128
    requires { TurnsLeft corners.now }
    ensures { pos result ≡ area2 corners.now }
{
    let mut area = 0;
    for i in 2..corners.len() {
        area += u128::from(triangle(corners[0], corners[i - 1], corners[i]));
    }
    area
}
