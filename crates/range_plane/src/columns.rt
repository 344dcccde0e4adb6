// Lists of points, kept in two columns of numbers.

ghost use Rattle.std.specs.Prelude.{◌≡◌, ◌↔◌, ◌+◌, ◌∷◌, ◌++◌, ◌≤◌, ◌<◌, All, IsOk, IsTrue, length, map, slice_get, Some, OnOk, OnErr, []};
ghost use Rattle.range_plane.specs.Plane.{IsCoordinate, position};

use crate::memory::OutOfMemory;
use crate::point::Point;
use std::alloc::{Allocator, Global};
use std::marker::Model;

/// A list of points, kept as a column of eastings and a column of northings, so that a loop over many
/// points reads each column straight through. `reserve` and `push` alone take memory.
#[derive(Drop)]
pub struct Columns<A: Allocator = Global> {
    // The easting of each point.
    eastings: Vec<i64, A>,
    // The northing of each point.
    northings: Vec<i64, A>,
}

impl<A: Allocator> Model for Columns<A> {
    ghost use Rattle.std.specs.Prelude.{◌≡◌, ◌-◌, All, min, vec_len, vec_capacity};
    ghost use Rattle.std.specs.Simd.Lanes.{zip2};
    ghost use Rattle.range_plane.specs.Columns.{Contents};
    ghost use Rattle.range_plane.specs.Plane.{IsCoordinate, position};

    ghost Value = { Contents };

    ghost view = { λ c. record {
      points = zip2 position c.eastings.items c.northings.items;
      spare = min (vec_capacity c.eastings - vec_len c.eastings)
          (vec_capacity c.northings - vec_len c.northings);
    } };

    ghost invariant = { λ c.
        (vec_len c.eastings ≡ vec_len c.northings)
        × All IsCoordinate c.eastings.items
        × All IsCoordinate c.northings.items };
}

impl<A: Allocator> Columns<A> {
    /// No points. It takes no memory.
    pub fn new(alloc: A) -> Columns<A>
    where
        A: Copy,
        ensures points { result.points ≡ [] }
        ensures spare { result.spare ≡ 0 }
    {
        Columns {
            eastings: Vec::new(alloc),
            northings: Vec::new(alloc),
        }
    }

    #[tactic(auto, using(crate::proofs::ZippedPoints::length_of_zipped))]
    pub fn len(&self) -> usize
        ensures { result ≡ length self.now.points }
    {
        self.eastings.len()
    }

    pub fn is_empty(&self) -> bool
        ensures { IsTrue result ↔ (self.now.points ≡ []) }
    {
        self.len() == 0
    }

    /// How many points can be pushed by `push_reserved`.
    pub fn spare(&self) -> usize
        ensures { result ≡ self.now.spare }
    {
        let for_eastings = self.eastings.capacity() - self.eastings.len();
        let for_northings = self.northings.capacity() - self.northings.len();
        for_eastings.min(for_northings)
    }

    /// The point at index `i`.
    #[tactic(auto, using(crate::proofs::ZippedPoints::length_of_zipped, crate::proofs::ZippedPoints::zipped_at, crate::proofs::ZippedPoints::coordinate_at, crate::proofs::Bounds::coordinate_is))]
    pub fn at(&self, i: usize) -> Point
        requires { i < length self.now.points }
        ensures { slice_get self.now.points i ≡ Some result }
    {
        Point {
            e: self.eastings[i],
            n: self.northings[i],
        }
    }

    /// The easting of each point.
    #[tactic(auto, using(crate::proofs::ZippedPoints::eastings_of_zipped))]
    pub fn eastings(&self) -> &[i64]
        ensures value { result.now ≡ map (λ p. p.e) self.now.points }
        ensures limits { All IsCoordinate result.now }
    {
        self.eastings.as_slice()
    }

    /// The northing of each point.
    #[tactic(auto, using(crate::proofs::ZippedPoints::northings_of_zipped))]
    pub fn northings(&self) -> &[i64]
        ensures value { result.now ≡ map (λ p. p.n) self.now.points }
        ensures limits { All IsCoordinate result.now }
    {
        self.northings.as_slice()
    }

    /// Takes memory for `k` more points, if there is no room for them yet.
    pub fn reserve(&mut self, k: usize) -> Result<(), OutOfMemory>
        ensures points { self.new.points ≡ self.old.points }
        ensures ok { OnOk result (k ≤ self.new.spare) }
        ensures spare { self.old.spare ≤ self.new.spare }
        ensures succeeds { k ≤ self.old.spare → IsOk result }
    {
        self.eastings.reserve(k)?;
        self.northings.reserve(k)?;
        Ok(())
    }

    /// Pushes a point where there is room for it, and takes no memory.
    #[tactic(auto, using(crate::proofs::ZippedPoints::zipped_push, crate::proofs::Bounds::coordinate_is))]
    pub fn push_reserved(&mut self, p: Point)
        requires { 1 ≤ self.old.spare }
        ensures points { self.new.points ≡ self.old.points ++ p ∷ [] }
        ensures spare { self.old.spare ≤ self.new.spare + 1 }
    {
        self.eastings.push_reserved(p.e);
        self.northings.push_reserved(p.n);
    }

    /// Pushes a point, and takes memory where there is no room for it.
    pub fn push(&mut self, p: Point) -> Result<(), OutOfMemory>
        ensures ok { OnOk result (self.new.points ≡ self.old.points ++ p ∷ []) }
        ensures err { OnErr result ((self.new.points ≡ self.old.points)
            × (self.old.spare ≤ self.new.spare)) }
        ensures spare { self.old.spare ≤ self.new.spare + 1 }
        ensures succeeds { 1 ≤ self.old.spare → IsOk result }
    {
        self.reserve(1)?;
        self.push_reserved(p);
        Ok(())
    }

    /// Takes all points out. The memory stays, for the next points.
    pub fn clear(&mut self)
        ensures points { self.new.points ≡ [] }
        ensures spare { self.old.spare ≤ self.new.spare }
    {
        self.eastings.clear();
        self.northings.clear();
    }
}
