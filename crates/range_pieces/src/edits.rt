// What a point changes in pieces: it opens, splits and joins them.

ghost use Rattle.std.specs.Prelude.{◌≡◌, ◌⊎◌, ◌+◌, ◌<◌, ◌≤◌, ◌∷◌, ◌++◌, length};
ghost use Rattle.range_pieces.specs.Pieces.{IsCut, piece, capacity_of, all_points, most_pieces, offset, exchange};
ghost use Rattle.range_pieces.specs.PointList.{Stands, index};

use crate::cursor::Cursor;
use crate::piece::PIECE_SIZE;
use crate::shelf::Shelf;
use range_plane::Point;
use std::alloc::Allocator;

// Where a full piece is cut in two.
const HALF: usize = PIECE_SIZE / 2;

// Joins neighbours that fit into one piece, among the pieces from `lo` up to `hi`.
pub(crate) fn join_small<A: Allocator>(shelf: &mut Shelf<A>, lo: usize, hi: usize)
    requires { IsCut shelf.old.pieces lo hi }
    ensures points { all_points shelf.new.pieces ≡ all_points shelf.old.pieces }
    ensures cut { IsCut shelf.new.pieces 0 0 }
    ensures total { length shelf.new.pieces + shelf.new.free ≡ length shelf.old.pieces
        + shelf.old.free }
{
    let mut at = hi;
    while at > lo {
        at -= 1;
        if at + 1 < shelf.count() && shelf.len_of(at) + shelf.len_of(at + 1) <= PIECE_SIZE {
            shelf.join(at);
        }
    }
}

// Puts `p` between piece `i` and the one before it: into one of them, or into a piece of its own.
pub(crate) fn insert_between<A: Allocator>(shelf: &mut Shelf<A>, i: usize, p: Point)
    requires cut { IsCut shelf.old.pieces 0 0 }
    requires within { i ≤ length shelf.old.pieces }
    requires room { length (all_points shelf.old.pieces)
        < capacity_of (length shelf.old.pieces + shelf.old.free) }
    ensures points { all_points shelf.new.pieces
        ≡ exchange (all_points shelf.old.pieces) p (offset shelf.old.pieces i)
        (offset shelf.old.pieces i) }
    ensures cut { IsCut shelf.new.pieces 0 0 }
    ensures total { length shelf.new.pieces + shelf.new.free ≡ length shelf.old.pieces
        + shelf.old.free }
{
    if i > 0 {
        let end = shelf.len_of(i - 1);
        if end < PIECE_SIZE {
            shelf.insert(i - 1, end, p);
            return;
        }
    }
    if i < shelf.count() && shelf.len_of(i) < PIECE_SIZE {
        shelf.insert(i, 0, p);
        return;
    }
    shelf.open(i, p);
}

// The half in which `index` of piece `i` lies once that is cut in two, and the index there.
fn in_halves(i: usize, index: usize) -> (usize, usize)
    requires { i ≤ most_pieces }
    ensures { ((result.0 ≡ i) × (result.1 ≡ index) × (index ≤ HALF))
        ⊎ ((result.0 ≡ i + 1) × (result.1 + HALF ≡ index)) }
{
    if index <= HALF {
        (i, index)
    } else {
        (i + 1, index - HALF)
    }
}

// Puts `p` into piece `i`, before the point at `index`, or into one of its halves.
pub(crate) fn insert_within<A: Allocator>(shelf: &mut Shelf<A>, i: usize, index: usize, p: Point)
    requires cut { IsCut shelf.old.pieces 0 0 }
    requires piece { i < length shelf.old.pieces }
    requires within { index ≤ length (piece shelf.old.pieces i) }
    requires room { length (all_points shelf.old.pieces)
        < capacity_of (length shelf.old.pieces + shelf.old.free) }
    requires few { length shelf.old.pieces ≤ most_pieces }
    ensures points { all_points shelf.new.pieces
        ≡ exchange (all_points shelf.old.pieces) p (offset shelf.old.pieces i
        + index) (offset shelf.old.pieces i + index) }
    ensures cut { IsCut shelf.new.pieces 0 0 }
    ensures total { length shelf.new.pieces + shelf.new.free ≡ length shelf.old.pieces
        + shelf.old.free }
{
    if shelf.len_of(i) < PIECE_SIZE {
        shelf.insert(i, index, p);
        return;
    }
    shelf.split(i, HALF);
    let (half, at) = in_halves(i, index);
    shelf.insert(half, at, p);
    join_small(shelf, i.saturating_sub(1), i + 2);
}

// Puts `p` in place of the points of piece `i` from `from` up to `to`.
pub(crate) fn replace_within<A: Allocator>(
    shelf: &mut Shelf<A>,
    i: usize,
    from: usize,
    to: usize,
    p: Point,
)
    requires cut { IsCut shelf.old.pieces 0 0 }
    requires piece { i < length shelf.old.pieces }
    requires order { from < to }
    requires within { to ≤ length (piece shelf.old.pieces i) }
    requires few { length shelf.old.pieces ≤ most_pieces }
    ensures points { all_points shelf.new.pieces
        ≡ exchange (all_points shelf.old.pieces) p (offset shelf.old.pieces i
        + from) (offset shelf.old.pieces i + to) }
    ensures cut { IsCut shelf.new.pieces 0 0 }
    ensures total { length shelf.new.pieces + shelf.new.free ≡ length shelf.old.pieces
        + shelf.old.free }
{
    shelf.replace(i, from, to, p);
    if from + 1 < to {
        join_small(shelf, i.saturating_sub(1), i + 1);
    }
}

// Puts `p` in place of the points from index `from` of piece `i` up to index `to` of the later piece `k`.
pub(crate) fn replace_across<A: Allocator>(
    shelf: &mut Shelf<A>,
    i: usize,
    from: usize,
    k: usize,
    to: usize,
    p: Point,
)
    requires cut { IsCut shelf.old.pieces 0 0 }
    requires order { i < k }
    requires piece { k < length shelf.old.pieces }
    requires from { from < length (piece shelf.old.pieces i) }
    requires to { to < length (piece shelf.old.pieces k) }
    requires few { length shelf.old.pieces ≤ most_pieces }
    ensures points { all_points shelf.new.pieces
        ≡ exchange (all_points shelf.old.pieces) p (offset shelf.old.pieces i
        + from) (offset shelf.old.pieces k + to) }
    ensures cut { IsCut shelf.new.pieces 0 0 }
    ensures total { length shelf.new.pieces + shelf.new.free ≡ length shelf.old.pieces
        + shelf.old.free }
{
    shelf.end_with(i, from, p);
    shelf.drop_first(k, to);
    shelf.remove(i + 1, k);
    join_small(shelf, i.saturating_sub(1), i + 2);
}

// Puts `p` in place of all points from index `from` of piece `i` on.
pub(crate) fn replace_rest<A: Allocator>(shelf: &mut Shelf<A>, i: usize, from: usize, p: Point)
    requires cut { IsCut shelf.old.pieces 0 0 }
    requires piece { i < length shelf.old.pieces }
    requires from { from < length (piece shelf.old.pieces i) }
    requires few { length shelf.old.pieces ≤ most_pieces }
    ensures points { all_points shelf.new.pieces
        ≡ exchange (all_points shelf.old.pieces) p (offset shelf.old.pieces i
        + from) (length (all_points shelf.old.pieces)) }
    ensures cut { IsCut shelf.new.pieces 0 0 }
    ensures total { length shelf.new.pieces + shelf.new.free ≡ length shelf.old.pieces
        + shelf.old.free }
{
    shelf.end_with(i, from, p);
    shelf.remove(i + 1, shelf.count());
    join_small(shelf, i.saturating_sub(1), i + 2);
}

// Puts `p` in place of the points between two positions.
pub(crate) fn replace_between<A: Allocator>(
    shelf: &mut Shelf<A>,
    from: Cursor,
    to: Cursor,
    p: Point,
)
    requires cut { IsCut shelf.old.pieces 0 0 }
    requires from { Stands shelf.old.pieces from }
    requires to { Stands shelf.old.pieces to }
    requires order { index shelf.old.pieces from ≤ index shelf.old.pieces to }
    requires room { length (all_points shelf.old.pieces)
        < capacity_of (length shelf.old.pieces + shelf.old.free) }
    requires few { length shelf.old.pieces ≤ most_pieces }
    ensures points { all_points shelf.new.pieces
        ≡ exchange (all_points shelf.old.pieces) p (index shelf.old.pieces from)
        (index shelf.old.pieces to) }
    ensures cut { IsCut shelf.new.pieces 0 0 }
    ensures total { length shelf.new.pieces + shelf.new.free ≡ length shelf.old.pieces
        + shelf.old.free }
{
    if from.piece < to.piece {
        if to.piece < shelf.count() {
            replace_across(shelf, from.piece, from.within, to.piece, to.within, p);
            return;
        }
        replace_rest(shelf, from.piece, from.within, p);
        return;
    }
    if from.within < to.within {
        replace_within(shelf, from.piece, from.within, to.within, p);
        return;
    }
    if from.within == 0 {
        insert_between(shelf, from.piece, p);
        return;
    }
    insert_within(shelf, from.piece, from.within, p);
}
