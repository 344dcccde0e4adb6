// The hull of points that come one at a time.

ghost use Rattle.std.specs.Prelude.{◌≡◌, ◌+◌, ◌*◌, ◌<◌, ◌≤◌, pos, List, [], ◌∷◌, length, IfOk, IsOk, IsTrue, OnOk};
ghost use Rattle.range_plane.specs.ConvexCover.{is_covered};
ghost use Rattle.range_plane.specs.Fix.{fix_limit};
ghost use Rattle.range_plane.specs.Plane.{Position};
ghost use Rattle.range_plane.specs.Polygon.{IsPolygon, area2};

use crate::chain::{extend, lies_within, push_back};
use crate::side::Side;
use crate::spot_search::spots_of;
use crate::tally::Tally;
use range_pieces::PointList;
use range_plane::{OutOfMemory, Point, Polygon};
use std::alloc::{Allocator, Global};
use std::marker::Model;

/// The minimum convex polygon of points that come one at a time, at most
/// [`FIX_LIMIT`](range_plane::FIX_LIMIT) of them. It is kept as two chains of corners from the westernmost
/// to the easternmost (Andrew 1979), which a point changes in place. `reserve` and `polygon` alone take
/// memory.
#[derive(Drop)]
pub struct OnlineHull<A: Allocator = Global> {
    // The corners along the south, by easting and then by northing.
    lower: PointList<A>,
    // The corners along the north, in the same order; both chains have the same ends.
    upper: PointList<A>,
    inserted: u32,
    skipped: u32,
    tally: Tally,
}

impl<A: Allocator> Model for OnlineHull<A> {
    ghost use Rattle.std.specs.Prelude.{min};
    ghost use Rattle.range_pieces.specs.PointList.{points_in};
    ghost use Rattle.range_hull.specs.Hull.{Hull, IsSoundHull, corners_of};

    ghost Value = { Hull };

    ghost view = { λ h. record {
      corners = corners_of (points_in h.lower) (points_in h.upper);
      inserted = h.inserted;
      skipped = h.skipped;
      turns = h.tally.turns;
      spare = min h.lower.spare h.upper.spare;
    } };

    ghost invariant = { λ h. IsSoundHull (points_in h.lower)
        (points_in h.upper) h.inserted h.skipped h.tally };
}

impl<A: Allocator> OnlineHull<A> {
    /// The hull of no points. It takes no memory.
    pub fn new(alloc: A) -> OnlineHull<A>
    where
        A: Copy,
        ensures { result ≡ record {
          corners = [];
          inserted = 0;
          skipped = 0;
          turns = 0;
          spare = 0;
        } }
    {
        OnlineHull {
            lower: PointList::new(alloc),
            upper: PointList::new(alloc),
            inserted: 0,
            skipped: 0,
            tally: Tally::new(),
        }
    }

    /// Takes memory for `k` inserts, if there is no room for them yet. Room that is there stays.
    pub fn reserve(&mut self, k: usize) -> Result<(), OutOfMemory>
    where
        A: Copy,
        ensures room { OnOk result (k ≤ self.new.spare) }
        ensures unchanged { self.new ≡ record self.old { spare = self.new.spare } }
        ensures spare { self.old.spare ≤ self.new.spare }
        ensures succeeds { k ≤ self.old.spare → IsOk result }
    {
        self.lower.reserve(k)?;
        self.upper.reserve(k)?;
        Ok(())
    }

    /// How many inserts there is room for.
    pub fn spare(&self) -> usize
        ensures { result ≡ self.now.spare }
    {
        self.lower.spare().min(self.upper.spare())
    }

    /// Adds `p`, which may be covered, or repeated. It takes no memory, and about as many steps as the
    /// number of corners has bits, beside those for corners that are removed and for the move of a few
    /// hundred corners behind `p`. It evaluates at most eight turns, and one more for each corner that it removes.
    pub fn insert(&mut self, p: Point)
        requires room { 0 < self.old.spare }
        requires few { self.old.inserted + self.old.skipped < fix_limit }
        ensures corners { IsPolygon (p ∷ self.old.corners) self.new.corners }
        ensures set { (S : List Position) → IsPolygon S self.old.corners
            → IsPolygon (p ∷ S) self.new.corners }
        ensures inserted { self.new.inserted ≡ self.old.inserted + 1 }
        ensures skipped { self.new.skipped ≡ self.old.skipped }
        ensures spare { self.old.spare ≤ self.new.spare + 1 }
        ensures rises { self.old.turns ≤ self.new.turns }
        ensures turns { self.new.turns + length self.new.corners ≤ self.old.turns
            + length self.old.corners + 8 }
    {
        let (in_lower, in_upper) = spots_of(&self.lower, &self.upper, p);
        extend(Side::Lower, &mut self.lower, in_lower, p, &mut self.tally);
        extend(Side::Upper, &mut self.upper, in_upper, p, &mut self.tally);
        self.inserted += 1;
    }

    /// Counts `p`, which the corners cover, and leaves the polygon as it is.
    pub fn skip(&mut self, p: Point)
        requires covered { IsTrue (is_covered self.old.corners p) }
        requires few { self.old.inserted + self.old.skipped < fix_limit }
        ensures counted { self.new ≡ record self.old { skipped = self.old.skipped + 1 } }
        ensures set { (S : List Position) → IsPolygon S self.old.corners
            → IsPolygon (p ∷ S) self.new.corners }
    {
        self.skipped += 1;
    }

    /// Whether the polygon covers `p`, in about as many steps as the number of corners has bits. It evaluates
    /// at most two turns, which `turns` does not count.
    pub fn covers(&self, p: Point) -> bool
        ensures { result ≡ is_covered self.now.corners p }
    {
        let (in_lower, in_upper) = spots_of(&self.lower, &self.upper, p);
        lies_within(Side::Lower, &self.lower, in_lower, p)
            && lies_within(Side::Upper, &self.upper, in_upper, p)
    }

    /// How many points were inserted or skipped.
    pub fn points(&self) -> u32
        ensures { result ≡ self.now.inserted + self.now.skipped }
    {
        self.inserted + self.skipped
    }

    /// How many points were inserted.
    pub fn inserted(&self) -> u32
        ensures { result ≡ self.now.inserted }
    {
        self.inserted
    }

    /// How many corners the polygon has.
    pub fn corner_count(&self) -> u32
        ensures { result ≡ length self.now.corners }
    {
        let between = self.upper.len().saturating_sub(2);
        (self.lower.len() + between) as u32
    }

    /// The doubled area within the polygon, in squares of the unit: 0 below three corners.
    pub fn area2(&self) -> u128
        ensures { pos result ≡ area2 self.now.corners }
    {
        self.tally.area()
    }

    /// How often inserts evaluated `turn`, for a decision or for an area. What `covers` evaluates is not counted.
    pub fn turns(&self) -> u64
        ensures value { result ≡ self.now.turns }
        ensures bound { result ≤ 8 * self.now.inserted }
    {
        self.tally.turns()
    }

    /// The polygon of the points so far, in a list of its own.
    pub fn polygon<B: Allocator>(&self, alloc: B) -> Result<Polygon<B>, OutOfMemory>
        ensures { IfOk result (λ polygon. polygon ≡ self.now.corners) }
    {
        Ok(Polygon::of_corners(self.corners(alloc)?))
    }

    // The corners counterclockwise, the least first.
    fn corners<B: Allocator>(&self, alloc: B) -> Result<Vec<Point, B>, OutOfMemory>
        ensures value { IfOk result (λ corners. corners.items ≡ self.now.corners) }
        ensures polygon { IfOk result (λ corners. IsPolygon corners.items corners.items) }
    {
        let mut corners = self.lower.to_vec(alloc)?;
        push_back(&mut corners, &self.upper)?;
        Ok(corners)
    }
}
