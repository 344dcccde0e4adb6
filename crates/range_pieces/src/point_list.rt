// A list of points in pieces.

ghost use Rattle.std.specs.Bool.{OnFalse};
ghost use Rattle.std.specs.Prelude.{◌≡◌, ◌↔◌, ◌+◌, ◌-◌, ◌*◌, ◌/◌, ◌<◌, ◌≤◌, [], length, max, IfOk, IsOk, IsTrue, OnOk};
ghost use Rattle.range_plane.specs.Edges.{at};
ghost use Rattle.range_pieces.specs.Pieces.{piece, all_points, offset, exchange};
ghost use Rattle.range_pieces.specs.PointList.{FallsAt, IsRising, Stands, index, points_in};

use crate::cursor::Cursor;
use crate::edits::replace_between;
use crate::piece::PIECE_SIZE;
use crate::search::{index_in, piece_of};
use crate::shelf::{MOST_PIECES, Shelf};
use range_plane::{OutOfMemory, Point};
use std::alloc::{Allocator, Global};
use std::marker::Model;

// More points are never kept.
const MOST_POINTS: usize = MOST_PIECES / 2 * PIECE_SIZE;

/// A list of points, kept in pieces of at most [`PIECE_SIZE`], of which any two neighbours hold more than
/// that together. A point that is inserted moves the points of one piece, or of three, and one in
/// `PIECE_SIZE` / 2 of them, or fewer, the list of pieces. `reserve` alone takes memory.
#[derive(Drop)]
pub struct PointList<A: Allocator = Global> {
    shelf: Shelf<A>,
    len: usize,
    // How many points there is room for, however they are cut into pieces.
    most: usize,
}

impl<A: Allocator> Model for PointList<A> {
    ghost use Rattle.std.specs.Prelude.{◌+◌, ◌-◌, length};
    ghost use Rattle.range_pieces.specs.Pieces.{capacity_of};
    ghost use Rattle.range_pieces.specs.PointList.{Content, IsSoundList};

    ghost Value = { Content };

    ghost view = { λ c. record {
      pieces = c.shelf.pieces;
      held = length c.shelf.pieces + c.shelf.free;
      spare = capacity_of (length c.shelf.pieces + c.shelf.free) - c.len;
    } };

    ghost invariant = { λ c. IsSoundList c.shelf c.len c.most };
}

impl<A: Allocator> PointList<A> {
    /// A list of no points. It takes no memory.
    pub fn new(alloc: A) -> PointList<A>
    where
        A: Copy,
        ensures { result ≡ record { pieces = []; held = 0; spare = 0 } }
    {
        PointList {
            shelf: Shelf::new(alloc),
            len: 0,
            most: 0,
        }
    }

    pub fn len(&self) -> usize
        ensures { result ≡ length (points_in self.now) }
    {
        self.len
    }

    /// How many points can be inserted without memory.
    pub fn spare(&self) -> usize
        ensures { result ≡ self.now.spare }
    {
        self.most - self.len
    }

    /// Takes memory for `k` more points, if there is none for them yet: one piece, where all points then
    /// fit into one, and else pieces for twice as many points.
    pub fn reserve(&mut self, k: usize) -> Result<(), OutOfMemory>
    where
        A: Copy,
        ensures room { OnOk result (k ≤ self.new.spare) }
        ensures unchanged { self.new.pieces ≡ self.old.pieces }
        ensures spare { self.old.spare ≤ self.new.spare }
        ensures succeeds { k ≤ self.old.spare → (self.new ≡ self.old) × IsOk result }
        ensures memory { self.new.held
            ≤ max self.old.held (2 * ((length (points_in self.old) + k) / PIECE_SIZE + 1)) }
        ensures one_piece { length (points_in self.old) + k ≤ PIECE_SIZE
            → self.new.held ≤ max self.old.held 1 }
    {
        if k <= self.spare() {
            return Ok(());
        }
        if k > MOST_POINTS || self.len > MOST_POINTS - k {
            return Err(OutOfMemory);
        }
        let pieces = (self.len + k).div_ceil(PIECE_SIZE);
        let total = if pieces > 1 { 2 * pieces } else { pieces };
        let taken = self.shelf.reserve(total);
        let there = self.shelf.count() + self.shelf.free();
        self.most = PIECE_SIZE * there.min(1).max(there / 2);
        taken
    }

    /// How many pieces there are.
    pub fn piece_count(&self) -> usize
        ensures { result ≡ length self.now.pieces }
    {
        self.shelf.count()
    }

    /// The points of piece `i`.
    pub fn piece(&self, i: usize) -> &[Point]
        requires { i < length self.now.pieces }
        ensures points { result.now ≡ piece self.now.pieces i }
        ensures some { 0 < length (piece self.now.pieces i) }
        ensures only { length self.now.pieces ≡ 1 → points_in self.now ≡ result.now }
    {
        self.shelf.points_of(i)
    }

    /// The position before the first point.
    pub fn start(&self) -> Cursor
        ensures stands { Stands self.now.pieces result }
        ensures index { index self.now.pieces result ≡ 0 }
    {
        let _ = &self.shelf;
        Cursor {
            piece: 0,
            within: 0,
        }
    }

    /// The position after the last point.
    pub fn end(&self) -> Cursor
        ensures stands { Stands self.now.pieces result }
        ensures index { index self.now.pieces result ≡ length (points_in self.now) }
    {
        Cursor {
            piece: self.shelf.count(),
            within: 0,
        }
    }

    /// The position behind the first `within` points of piece `i`.
    pub fn cursor_in(&self, i: usize, within: usize) -> Cursor
        requires piece { i < length self.now.pieces }
        requires within { within ≤ length (piece self.now.pieces i) }
        ensures stands { Stands self.now.pieces result }
        ensures index { index self.now.pieces result ≡ offset self.now.pieces i + within }
    {
        if within < self.shelf.len_of(i) {
            Cursor { piece: i, within }
        } else {
            Cursor {
                piece: i + 1,
                within: 0,
            }
        }
    }

    /// The points in a list of their own.
    pub fn to_vec<B: Allocator>(&self, alloc: B) -> Result<Vec<Point, B>, OutOfMemory>
        ensures { IfOk result (λ points. points.items ≡ points_in self.now) }
    {
        let mut points = Vec::with_capacity(alloc, self.len)?;
        for i in 0..self.shelf.count() {
            points.extend_from_slice(self.shelf.points_of(i))?;
        }
        Ok(points)
    }

    pub fn is_start(&self, c: Cursor) -> bool
        requires { Stands self.now.pieces c }
        ensures { IsTrue result ↔ (index self.now.pieces c ≡ 0) }
    {
        let _ = &self.shelf;
        c.piece == 0 && c.within == 0
    }

    pub fn is_end(&self, c: Cursor) -> bool
        requires { Stands self.now.pieces c }
        ensures value { IsTrue result
            ↔ (index self.now.pieces c ≡ length (points_in self.now)) }
        ensures within { OnFalse result (index self.now.pieces c
            < length (points_in self.now)) }
    {
        c.piece == self.shelf.count()
    }

    /// The point after `c`.
    pub fn get(&self, c: Cursor) -> Point
        requires stands { Stands self.now.pieces c }
        requires within { index self.now.pieces c < length (points_in self.now) }
        ensures { result ≡ at (points_in self.now) (index self.now.pieces c) }
    {
        self.shelf.points_of(c.piece)[c.within]
    }

    /// The position one point on.
    pub fn next(&self, c: Cursor) -> Cursor
        requires stands { Stands self.now.pieces c }
        requires within { index self.now.pieces c < length (points_in self.now) }
        ensures stands { Stands self.now.pieces result }
        ensures index { index self.now.pieces result ≡ index self.now.pieces c + 1 }
    {
        let last = self.shelf.len_of(c.piece) - 1;
        if c.within < last {
            Cursor {
                piece: c.piece,
                within: c.within + 1,
            }
        } else {
            Cursor {
                piece: c.piece + 1,
                within: 0,
            }
        }
    }

    /// The position one point back.
    pub fn previous(&self, c: Cursor) -> Cursor
        requires stands { Stands self.now.pieces c }
        requires within { 0 < index self.now.pieces c }
        ensures stands { Stands self.now.pieces result }
        ensures index { index self.now.pieces result + 1 ≡ index self.now.pieces c }
        ensures within { index self.now.pieces result < length (points_in self.now) }
    {
        if c.within > 0 {
            Cursor {
                piece: c.piece,
                within: c.within - 1,
            }
        } else {
            let piece = c.piece - 1;
            Cursor {
                piece,
                within: self.shelf.len_of(piece) - 1,
            }
        }
    }

    /// The position at which `p` falls: the points before it come before `p`, and no others.
    pub fn find(&self, p: Point) -> Cursor
        requires { IsRising (points_in self.now) }
        ensures stands { Stands self.now.pieces result }
        ensures index { FallsAt (points_in self.now) p (index self.now.pieces result) }
    {
        if self.shelf.count() == 0 {
            return self.start();
        }
        let piece = piece_of(&self.shelf, p);
        let within = index_in(self.shelf.points_of(piece), p);
        self.cursor_in(piece, within)
    }

    /// Puts `p` in place of the points from `from` up to `to`. It takes no memory.
    pub fn replace_run(&mut self, from: Cursor, to: Cursor, p: Point)
        requires from { Stands self.old.pieces from }
        requires to { Stands self.old.pieces to }
        requires order { index self.old.pieces from ≤ index self.old.pieces to }
        requires room { 0 < self.old.spare }
        ensures points { points_in self.new
            ≡ exchange (points_in self.old) p (index self.old.pieces from)
            (index self.old.pieces to) }
        ensures spare { self.old.spare ≤ self.new.spare + 1 }
        ensures memory { self.new.held ≡ self.old.held }
    {
        let removed = run_len(&self.shelf, from, to);
        replace_between(&mut self.shelf, from, to, p);
        self.len = self.len + 1 - removed;
    }
}

// How many points there are between two positions.
fn run_len<A: Allocator>(shelf: &Shelf<A>, from: Cursor, to: Cursor) -> usize
    requires from { Stands shelf.now.pieces from }
    requires to { Stands shelf.now.pieces to }
    requires order { index shelf.now.pieces from ≤ index shelf.now.pieces to }
    requires few { length (all_points shelf.now.pieces) < usize.MAX }
    ensures { index shelf.now.pieces from + result ≡ index shelf.now.pieces to }
{
    if from.piece == to.piece {
        return to.within - from.within;
    }
    let mut passed = shelf.len_of(from.piece) - from.within;
    for i in from.piece + 1..to.piece {
        passed += shelf.len_of(i);
    }
    passed + to.within
}
