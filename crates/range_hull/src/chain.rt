// A chain of corners, and a point that is added to it.

ghost use Rattle.std.specs.Bool.{OnFalse, OnTrue};
ghost use Rattle.std.specs.Prelude.{◌≡◌, ◌+◌, ◌-◌, ◌<◌, ◌≤◌, pos, ◌+ℤ◌, ◌-ℤ◌, ◌≤ℤ◌, ◌<ℤ◌, ◌++◌, length, reverse, OnOk};
ghost use Rattle.range_plane.specs.Edges.{at};
ghost use Rattle.range_plane.specs.Order.{rank};
ghost use Rattle.range_plane.specs.Plane.{IsWithinLimits};
ghost use Rattle.range_pieces.specs.PointList.{Stands, index, points_in};
ghost use Rattle.range_hull.specs.Area.{open_edge, with_sign, sweep_of, sweep_after, sweep_before};
ghost use Rattle.range_hull.specs.Chain.{Extends, IsBeyond, IsChain, LiesWithin, bend};
ghost use Rattle.range_hull.specs.Hull.{inner_corners};
ghost use Rattle.range_hull.specs.Outside.{IsTested};
ghost use Rattle.range_hull.specs.Spot.{IsSpot};
ghost use Rattle.range_hull.specs.Tally.{most_turns};

use crate::side::Side;
use crate::spot::Spot;
use crate::tally::Tally;
use range_pieces::{Cursor, PointList};
use range_plane::{OutOfMemory, Point, rank};
use std::alloc::Allocator;

// Whether `p`, which falls at `spot`, lies within `chain`. The turn for it is not counted.
pub(crate) fn lies_within<A: Allocator>(
    side: Side,
    chain: &PointList<A>,
    spot: Spot,
    p: Point,
) -> bool
    requires { IsSpot chain.now.pieces p spot }
    ensures within { OnTrue result (LiesWithin side (points_in chain.now) p) }
    ensures beyond { OnFalse result (IsBeyond side (points_in chain.now) p) }
{
    let Some(next) = spot.after else {
        return false;
    };
    if rank(next) == rank(p) {
        return true;
    }
    let Some(before) = spot.before else {
        return false;
    };
    side.has_within(before, p, next)
}

// Whether `p`, which falls at `spot`, lies outside of `chain`.
#[inline(always)]
fn lies_outside<A: Allocator>(
    side: Side,
    chain: &PointList<A>,
    spot: Spot,
    p: Point,
    tally: &mut Tally,
) -> bool
    requires spot { IsSpot chain.now.pieces p spot }
    requires few { tally.old.turns < most_turns }
    ensures { IsTested side (points_in chain.now) (index chain.now.pieces spot.at) p result
        tally.old tally.new }
{
    let Some(after) = spot.after else {
        return true;
    };
    if rank(after) == rank(p) {
        return false;
    }
    let Some(before) = spot.before else {
        return true;
    };
    tally.bulges(side, before, p, after)
}

// The index after the corners before `c` that stay once `p` stands there.
fn kept_before<A: Allocator>(
    side: Side,
    chain: &PointList<A>,
    c: Cursor,
    p: Point,
    tally: &mut Tally,
) -> Cursor
    requires stands { Stands chain.now.pieces c }
    requires few { tally.old.turns + index chain.now.pieces c ≤ most_turns }
    ensures stands { Stands chain.now.pieces result }
    ensures bound { index chain.now.pieces result ≤ index chain.now.pieces c }
    ensures starts { 0 < index chain.now.pieces c → 0 < index chain.now.pieces result }
    ensures bends { let L = points_in chain.now in let k = index chain.now.pieces result in
        2 ≤ k → pos 0 <ℤ bend side (at L (k - 2)) (at L (k - 1)) p }
    ensures dents { let L = points_in chain.now in let k = index chain.now.pieces result in
        k < index chain.now.pieces c → bend side (at L (k - 1)) (at L k) p ≤ℤ pos 0 }
    ensures turns { tally.new.turns + index chain.now.pieces result ≤ tally.old.turns
        + index chain.now.pieces c + 1 }
    ensures rises { tally.old.turns ≤ tally.new.turns }
    ensures swept { let L = points_in chain.now in let i = index chain.now.pieces c in 0 < i
        → pos tally.new.area -ℤ sweep_before side L p (index chain.now.pieces result)
        ≡ pos tally.old.area -ℤ sweep_before side L p i }
    ensures none { index chain.now.pieces c ≡ 0 → tally.new.area ≡ tally.old.area }
{
    let mut kept = c;
    while !chain.is_start(kept) {
        let last = chain.previous(kept);
        if chain.is_start(last) {
            return kept;
        }
        let before = chain.get(chain.previous(last));
        if !tally.dents(side, before, chain.get(last), p) {
            return kept;
        }
        kept = last;
    }
    kept
}

// The index before the first corner from `c` on that stays once `p` stands before it.
fn kept_after<A: Allocator>(
    side: Side,
    chain: &PointList<A>,
    c: Cursor,
    p: Point,
    tally: &mut Tally,
) -> Cursor
    requires stands { Stands chain.now.pieces c }
    requires few { tally.old.turns + length (points_in chain.now) ≤ most_turns
        + index chain.now.pieces c }
    ensures stands { Stands chain.now.pieces result }
    ensures bound { index chain.now.pieces c ≤ index chain.now.pieces result }
    ensures within { index chain.now.pieces result ≤ length (points_in chain.now) }
    ensures stops { let L = points_in chain.now in index chain.now.pieces c < length L
        → index chain.now.pieces result < length L }
    ensures bends { let L = points_in chain.now in let k = index chain.now.pieces result in
        k + 1 < length L → pos 0 <ℤ bend side p (at L k) (at L (k + 1)) }
    ensures dents { let L = points_in chain.now in let k = index chain.now.pieces result in
        index chain.now.pieces c < k → bend side p (at L (k - 1)) (at L k) ≤ℤ pos 0 }
    ensures turns { tally.new.turns + index chain.now.pieces c ≤ tally.old.turns
        + index chain.now.pieces result + 1 }
    ensures rises { tally.old.turns ≤ tally.new.turns }
    ensures swept { let L = points_in chain.now in let i = index chain.now.pieces c in
        i < length L
        → pos tally.new.area -ℤ sweep_after side L p (index chain.now.pieces result)
        ≡ pos tally.old.area -ℤ sweep_after side L p i }
    ensures none { index chain.now.pieces c ≡ length (points_in chain.now)
        → tally.new.area ≡ tally.old.area }
{
    let mut kept = c;
    while !chain.is_end(kept) {
        let next = chain.next(kept);
        if chain.is_end(next) {
            return kept;
        }
        if !tally.dents(side, p, chain.get(kept), chain.get(next)) {
            return kept;
        }
        kept = next;
    }
    kept
}

// Makes `chain` the chain of its points and `p`, which falls at `spot`. It takes no memory.
#[inline(always)]
pub(crate) fn extend<A: Allocator>(
    side: Side,
    chain: &mut PointList<A>,
    spot: Spot,
    p: Point,
    tally: &mut Tally,
)
    requires chain { IsChain side (points_in chain.old) }
    requires spot { IsSpot chain.old.pieces p spot }
    requires room { 0 < chain.old.spare }
    requires few { tally.old.turns + length (points_in chain.old) + 4 ≤ most_turns }
    ensures chain { Extends side (points_in chain.old) p (points_in chain.new) }
    ensures limits { IsWithinLimits p }
    ensures spare { chain.old.spare ≤ chain.new.spare + 1 }
    ensures turns { tally.new.turns + length (points_in chain.new) ≤ tally.old.turns
        + length (points_in chain.old) + 4 }
    ensures rises { tally.old.turns ≤ tally.new.turns }
    ensures swept { let L = points_in chain.old in
        pos tally.new.area +ℤ sweep_of side L
        +ℤ with_sign side (open_edge (at L 0) (at L (length L - 1)) p) ≡ pos tally.old.area
        +ℤ sweep_of side (points_in chain.new) }
{
    let c = spot.at;
    if !lies_outside(side, chain, spot, p, tally) {
        return;
    }
    let from = kept_before(side, chain, c, p, tally);
    let to = kept_after(side, chain, c, p, tally);
    chain.replace_run(from, to, p);
}

// Appends the corners between the ends of `chain`, the last of them first.
pub(crate) fn push_back<A: Allocator, B: Allocator>(
    corners: &mut Vec<Point, B>,
    chain: &PointList<A>,
) -> Result<(), OutOfMemory>
    ensures { OnOk result (corners.new.items ≡ corners.old.items
        ++ reverse (inner_corners (points_in chain.now))) }
{
    if chain.len() < 2 {
        return Ok(());
    }
    let mut next = chain.previous(chain.end());
    for _ in 2..chain.len() {
        next = chain.previous(next);
        corners.push(chain.get(next))?;
    }
    Ok(())
}
