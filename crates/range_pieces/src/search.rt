// Where a point falls in pieces that rise, by binary search.

ghost use Rattle.std.specs.Prelude.{ℕ, ◌≡◌, ◌⊎◌, ◌<◌, ◌≤ℤ◌, ◌<ℤ◌, length};
ghost use Rattle.range_plane.specs.Order.{rank};
ghost use Rattle.range_plane.specs.Plane.{Position};
ghost use Rattle.range_pieces.specs.Pieces.{IsCut, all_points};
ghost use Rattle.range_pieces.specs.PointList.{FallsAt, IsRising};
ghost use Rattle.range_pieces.specs.RisingPoints.{IsBetween, Rises, first_of};

use crate::shelf::Shelf;
use range_plane::{Point, rank};
use std::alloc::Allocator;

// Among more points than these three probes at a time are quicker than one.
const MANY: usize = 32;

// `count` where `q` comes before `p`, else 0, made without a branch, of which every second one would be
// predicted wrong.
#[inline(always)]
fn count_before(count: usize, q: Point, p: Point) -> usize
    ensures { ((result ≡ count) × (rank q <ℤ rank p)) ⊎ ((result ≡ 0) × (rank p ≤ℤ rank q)) }
{
    count * usize::from(rank(q) - rank(p) < 0)
}

// Points that rise, by their indices.
trait Rising {
    ghost count: { Self → ℕ };

    ghost point_at: { Self → ℕ → Position };

    // The point at index `i`.
    fn point(&self, i: usize) -> Point
        requires { i < count self.now }
        ensures { result ≡ point_at self.now i };
}

// The points of a list.
#[derive(Drop)]
struct Listed<'a> {
    points: &'a [Point],
}

impl Rising for Listed<'_> {
    ghost use Rattle.std.specs.Prelude.{length};
    ghost use Rattle.range_plane.specs.Edges.{at};

    ghost count = { λ l. length l.points.now };

    ghost point_at = { λ l. at l.points.now };

    #[inline(always)]
    fn point(&self, i: usize) -> Point {
        self.points[i]
    }
}

// The first point of each piece.
#[derive(Drop)]
struct Firsts<'a, A: Allocator> {
    shelf: &'a Shelf<A>,
    ghost cut: { IsCut shelf.now.pieces 0 0 },
}

impl<A: Allocator> Rising for Firsts<'_, A> {
    ghost use Rattle.std.specs.Prelude.{length};
    ghost use Rattle.range_pieces.specs.RisingPoints.{first_of};

    ghost count = { λ f. length f.shelf.now.pieces };

    ghost point_at = { λ f. first_of f.shelf.now.pieces };

    #[inline(always)]
    fn point(&self, i: usize) -> Point {
        self.shelf.first_of(i)
    }
}

// The index of the last of so many points that comes before `p`, or of the first. Three probes at a time wait
// for memory together, while there are many.
#[inline(always)]
fn last_before<L: Rising>(list: &L, count: usize, p: Point) -> usize
    requires all { count ≡ L.count list.now }
    requires some { 0 < count }
    requires rising { Rises (L.point_at list.now) count }
    ensures { IsBetween (L.point_at list.now) count p result 1 }
{
    let mut low = 0;
    let mut size = count;
    while size > MANY {
        let quarter = size / 4;
        let first = count_before(quarter, list.point(low + quarter), p);
        let second = count_before(quarter, list.point(low + 2 * quarter), p);
        let third = count_before(quarter, list.point(low + 3 * quarter), p);
        low += first + second + third;
        size -= 3 * quarter;
    }
    while size > 1 {
        let half = size / 2;
        low += count_before(half, list.point(low + half), p);
        size -= half;
    }
    low
}

// The index at which `p` falls among points that rise.
pub(crate) fn index_in(points: &[Point], p: Point) -> usize
    requires rising { IsRising points.now }
    requires some { 0 < length points.now }
    ensures { FallsAt points.now p result }
{
    let low = last_before(&Listed { points }, points.len(), p);
    low + count_before(1, points[low], p)
}

/// The indices at which `p` falls in two lists that rise. The searches take turns, so that neither waits for the other.
pub fn indices_in_both(first: &[Point], second: &[Point], p: Point) -> (usize, usize)
    requires rising { IsRising first.now × IsRising second.now }
    requires some { (0 < length first.now) × (0 < length second.now) }
    ensures first { FallsAt first.now p result.0 }
    ensures second { FallsAt second.now p result.1 }
{
    let mut in_first = 0;
    let mut first_size = first.len();
    let mut in_second = 0;
    let mut second_size = second.len();
    while first_size > 1 || second_size > 1 {
        let half = first_size / 2;
        in_first += count_before(half, first[in_first + half], p);
        first_size -= half;
        let half = second_size / 2;
        in_second += count_before(half, second[in_second + half], p);
        second_size -= half;
    }
    (
        in_first + count_before(1, first[in_first], p),
        in_second + count_before(1, second[in_second], p),
    )
}

// The last piece that begins before `p`, or the first.
pub(crate) fn piece_of<A: Allocator>(shelf: &Shelf<A>, p: Point) -> usize
    requires cut { IsCut shelf.now.pieces 0 0 }
    requires rising { IsRising (all_points shelf.now.pieces) }
    requires some { 0 < length shelf.now.pieces }
    ensures { IsBetween (first_of shelf.now.pieces) (length shelf.now.pieces) p result 1 }
{
    last_before(&Firsts { shelf }, shelf.count(), p)
}
