// The points of lines.

ghost use Rattle.std.specs.Prelude.{◌≡◌, option_map};
ghost use Rattle.page_boundary.specs.Points.{place_of, point_in};

use crate::numbers::{coordinate_in, cut, ring_in};
use page_map::Ground;

// A point, and the number of its ring.
#[derive(Clone, Copy)]
pub(crate) struct RingPoint {
    pub ring: u64,
    pub at: Ground,
}

// The point of a line.
#[tactic(auto, unfolding(crate::specs::Points::point_in))]
pub(crate) fn point_in(line: &[u8]) -> Option<RingPoint>
    ensures { option_map (λ point. (point.ring, place_of point.at)) result ≡ point_in line.now }
{
    let (ring, sides) = cut(line, b',')?;
    let (easting, northing) = cut(sides, b',')?;
    Some(RingPoint {
        ring: ring_in(ring)?,
        at: Ground::new(coordinate_in(easting)?, coordinate_in(northing)?)?,
    })
}
