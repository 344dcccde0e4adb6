// Where a point falls among the corners of two chains.

ghost use Rattle.range_pieces.specs.PointList.{points_in};
ghost use Rattle.range_hull.specs.Hull.{AreChains};
ghost use Rattle.range_hull.specs.Spot.{IsSpot};

use crate::spot::{Spot, spot_at, spot_in};
use range_pieces::{PointList, indices_in_both};
use range_plane::Point;
use std::alloc::Allocator;

// Where `p` falls in both chains of a hull. No turn is evaluated.
#[inline(always)]
pub(crate) fn spots_of<A: Allocator>(
    lower: &PointList<A>,
    upper: &PointList<A>,
    p: Point,
) -> (Spot, Spot)
    requires { AreChains (points_in lower.now) (points_in upper.now) }
    ensures lower { IsSpot lower.now.pieces p result.0 }
    ensures upper { IsSpot upper.now.pieces p result.1 }
{
    if lower.piece_count() != 1 || upper.piece_count() != 1 {
        return (spot_at(lower, lower.find(p)), spot_at(upper, upper.find(p)));
    }
    let (in_lower, in_upper) = indices_in_both(lower.piece(0), upper.piece(0), p);
    (spot_in(lower, in_lower), spot_in(upper, in_upper))
}
