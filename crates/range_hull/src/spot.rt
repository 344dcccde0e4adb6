// Where a point falls in a chain, and the corners on either side of it.

ghost use Rattle.std.specs.Prelude.{◌≡◌, ◌≤◌, length};
ghost use Rattle.range_pieces.specs.Pieces.{piece};
ghost use Rattle.range_pieces.specs.PointList.{Stands, index, points_in};
ghost use Rattle.range_hull.specs.Spot.{IsBeside};

use range_pieces::{Cursor, PointList};
use range_plane::Point;
use std::alloc::Allocator;

#[derive(Clone, Copy)]
pub(crate) struct Spot {
    pub(crate) at: Cursor,
    // The corner before, if there is one.
    pub(crate) before: Option<Point>,
    // The corner after, if there is one.
    pub(crate) after: Option<Point>,
}

// The spot at index `k` of the only piece.
#[inline(always)]
pub(crate) fn spot_in<A: Allocator>(chain: &PointList<A>, k: usize) -> Spot
    requires one { length chain.now.pieces ≡ 1 }
    requires within { k ≤ length (piece chain.now.pieces 0) }
    ensures stands { Stands chain.now.pieces result.at }
    ensures index { index chain.now.pieces result.at ≡ k }
    ensures beside { IsBeside (points_in chain.now) k result.before result.after }
{
    let points = chain.piece(0);
    Spot {
        at: chain.cursor_in(0, k),
        before: if k > 0 { Some(points[k - 1]) } else { None },
        after: if k < points.len() {
            Some(points[k])
        } else {
            None
        },
    }
}

// The spot at `c`.
pub(crate) fn spot_at<A: Allocator>(chain: &PointList<A>, c: Cursor) -> Spot
    requires { Stands chain.now.pieces c }
    ensures at { result.at ≡ c }
    ensures beside { IsBeside (points_in chain.now)
        (index chain.now.pieces c) result.before result.after }
{
    Spot {
        at: c,
        before: if chain.is_start(c) {
            None
        } else {
            Some(chain.get(chain.previous(c)))
        },
        after: if chain.is_end(c) {
            None
        } else {
            Some(chain.get(c))
        },
    }
}
