// A piece: a few points in one piece of memory.

ghost use Rattle.std.specs.Prelude.{◌≡◌, ◌+◌, ◌-◌, ◌<◌, ◌≤◌, [], ◌∷◌, ◌++◌, length, take, drop, IfOk};
ghost use Rattle.range_plane.specs.Edges.{at};
ghost use Rattle.range_pieces.specs.Pieces.{exchange};

use range_plane::{OutOfMemory, Point};
use std::alloc::Allocator;
use std::marker::Model;

/// How many points a piece holds at most.
pub const PIECE_SIZE: usize = 256;

// At most `PIECE_SIZE` points, with the memory for that many.
#[derive(Drop)]
pub(crate) struct Piece<A: Allocator> {
    points: Vec<Point, A>,
    // The first of the points, if there are any, where a search over many pieces finds it at once.
    first: Point,
}

impl<A: Allocator> Model for Piece<A> {
    ghost use Rattle.std.specs.Prelude.{◌≡◌, ◌<◌, ◌≤◌, List, vec_len, vec_capacity};
    ghost use Rattle.range_plane.specs.Edges.{at};
    ghost use Rattle.range_plane.specs.Plane.{Position};
    ghost use Rattle.range_pieces.specs.Pieces.{piece_size};

    ghost Value = { List Position };

    ghost view = { λ b. b.points.items };

    ghost invariant = { λ b.
        (vec_len b.points ≤ piece_size)
        × (piece_size ≤ vec_capacity b.points)
        × (0 < vec_len b.points → b.first ≡ at b.points.items 0) };
}

impl<A: Allocator> Piece<A> {
    // A piece of no points, with memory for `PIECE_SIZE`.
    pub(crate) fn new(alloc: A) -> Result<Piece<A>, OutOfMemory>
        ensures { IfOk result (λ piece. piece ≡ []) }
    {
        Ok(Piece {
            points: Vec::with_capacity(alloc, PIECE_SIZE)?,
            first: Point { e: 0, n: 0 },
        })
    }

    pub(crate) fn len(&self) -> usize
        ensures value { result ≡ length self.now }
        ensures bound { result ≤ PIECE_SIZE }
    {
        self.points.len()
    }

    pub(crate) fn points(&self) -> &[Point]
        ensures { result.now ≡ self.now }
    {
        self.points.as_slice()
    }

    // The first point.
    pub(crate) fn first(&self) -> Point
        requires { 0 < length self.now }
        ensures { result ≡ at self.now 0 }
    {
        self.first
    }

    // Puts `p` before the point at `index`.
    pub(crate) fn insert(&mut self, index: usize, p: Point)
        requires within { index ≤ length self.old }
        requires room { length self.old < PIECE_SIZE }
        ensures { self.new ≡ take index self.old ++ p ∷ drop index self.old }
    {
        let _ = self.points.insert(index, p);
        if index == 0 {
            self.first = p;
        }
    }

    // Puts `p` in place of the points from `from` up to `to`.
    pub(crate) fn replace(&mut self, from: usize, to: usize, p: Point)
        requires order { from < to }
        requires within { to ≤ length self.old }
        ensures { self.new ≡ exchange self.old p from to }
    {
        self.first = if from == 0 { p } else { self.first };
        self.points[from] = p;
        if from + 1 < to {
            let rest = self.points.len() - to;
            self.points.copy_within(to.., from + 1);
            self.points.truncate(from + 1 + rest);
        }
    }

    // Puts `p` in place of all points from `from` on.
    pub(crate) fn end_with(&mut self, from: usize, p: Point)
        requires { from < length self.old }
        ensures { self.new ≡ take from self.old ++ p ∷ [] }
    {
        self.points[from] = p;
        self.points.truncate(from + 1);
        if from == 0 {
            self.first = p;
        }
    }

    // Takes out the first `n` points.
    pub(crate) fn drop_first(&mut self, n: usize)
        requires { n < length self.old }
        ensures { self.new ≡ drop n self.old }
    {
        self.first = self.points[n];
        let rest = self.points.len() - n;
        self.points.copy_within(n.., 0);
        self.points.truncate(rest);
    }

    // Appends the points of `other`.
    pub(crate) fn append(&mut self, other: &Piece<A>)
        requires fits { length self.old + length other.now ≤ PIECE_SIZE }
        requires some { 0 < length self.old }
        ensures { self.new ≡ self.old ++ other.now }
    {
        let _ = self.points.extend_from_slice(&other.points);
    }

    // Moves the points from `at` on into `other`, in place of what that holds.
    pub(crate) fn split_into(&mut self, at: usize, other: &mut Piece<A>)
        requires { at < length self.old }
        ensures first { self.new ≡ take at self.old }
        ensures second { other.new ≡ drop at self.old }
    {
        other.first = self.points[at];
        other.points.clear();
        let _ = other.points.extend_from_slice(&self.points[at..]);
        self.points.truncate(at);
    }

    // Makes `p` the only point.
    pub(crate) fn hold(&mut self, p: Point)
        ensures { self.new ≡ p ∷ [] }
    {
        self.points.clear();
        let _ = self.points.push(p);
        self.first = p;
    }
}
