// The box of a polygon's corners, and which of eight points lie in it.

ghost use Rattle.std.specs.Prelude.{◌≡◌, ◌<◌, Contains, length, map};
ghost use Rattle.std.specs.Int.{int_min, int_max};
ghost use Rattle.range_plane.specs.Plane.{IsInBox, Position, position};
ghost use Rattle.range_lanes.specs.Lanes.{is_in_box, is_not_negative};

use crate::eight::Eight;
use crate::lanes::Lanes;
use range_plane::Point;

// A box by its southwestern and its northeastern corner.
#[derive(Clone, Copy)]
pub(crate) struct CornerBox {
    low: Point,
    high: Point,
}

impl CornerBox {
    // The box of some corners.
    pub(crate) fn of(corners: &[Point]) -> CornerBox
        requires { 0 < length corners.now }
        ensures { (p : Position) → Contains corners.now p → IsInBox result.low result.high p }
    {
        let mut low = corners[0];
        let mut high = corners[0];
        for corner in corners {
            low = southwest(low, *corner);
            high = northeast(high, *corner);
        }
        CornerBox { low, high }
    }

    // A number for each point, which is at least 0 exactly where the point lies in the box.
    #[inline(always)]
    pub(crate) fn margins(&self, group: &Eight) -> Lanes
        ensures { map is_not_negative result
            ≡ map (is_in_box self.now.low self.now.high) group.now }
    {
        let (low, high) = (self.low, self.high);
        let from_west = group.east_of(low.e);
        let from_south = group.north_of(low.n);
        let past_east = group.east_of(high.e);
        let past_north = group.north_of(high.n);
        from_west
            .negative_in_either(from_south)
            .negative_in_either(past_east.negated())
            .negative_in_either(past_north.negated())
    }
}

// The point as far west as one of the two, and as far south.
fn southwest(a: Point, b: Point) -> Point
    ensures { result ≡ position (int_min a.e b.e) (int_min a.n b.n) }
{
    Point {
        e: a.e.min(b.e),
        n: a.n.min(b.n),
    }
}

// The point as far east as one of the two, and as far north.
fn northeast(a: Point, b: Point) -> Point
    ensures { result ≡ position (int_max a.e b.e) (int_max a.n b.n) }
{
    Point {
        e: a.e.max(b.e),
        n: a.n.max(b.n),
    }
}
