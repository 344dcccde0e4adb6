// The two chains of a hull, from its first corner in order to its last.

ghost use Rattle.std.specs.Bool.{OnFalse, OnTrue};
ghost use Rattle.std.specs.Int.RustNames.{unsigned_abs};
ghost use Rattle.std.specs.Prelude.{◌≡◌, ◌≤◌, pos, ◌≤ℤ◌, ◌<ℤ◌};
ghost use Rattle.range_plane.specs.Plane.{turn_limit};
ghost use Rattle.range_hull.specs.Chain.{bend};

use range_plane::{Point, turn};

#[derive(Clone, Copy)]
pub(crate) enum Side {
    // It turns left at each corner.
    Lower,
    // It turns right at each corner.
    Upper,
}

impl Side {
    // How far `a`, `b`, `c` bend the way that a chain of this side has to.
    pub(crate) fn bend(self, a: Point, b: Point, c: Point) -> i64
        ensures value { result ≡ bend self a b c }
        ensures bound { unsigned_abs result ≤ turn_limit }
    {
        let turned = turn(a, b, c);
        match self {
            Side::Lower => turned,
            Side::Upper => -turned,
        }
    }

    // Whether `b` lies on the edge from `a` to `c`, or on the side to which a chain of this side bends.
    pub(crate) fn has_within(self, a: Point, b: Point, c: Point) -> bool
        ensures yes { OnTrue result (bend self a b c ≤ℤ pos 0) }
        ensures no { OnFalse result (pos 0 <ℤ bend self a b c) }
    {
        self.bend(a, b, c) <= 0
    }
}
