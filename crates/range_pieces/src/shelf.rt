// Pieces in their order, and free ones.

ghost use Rattle.std.specs.Prelude.{◌≡◌, ◌+◌, ◌-◌, ◌<◌, ◌≤◌, [], ◌∷◌, ◌++◌, length, take, drop, slice_set, IsOk, OnOk};
ghost use Rattle.range_plane.specs.Edges.{at};
ghost use Rattle.range_pieces.specs.Pieces.{piece, exchange};

use crate::piece::{PIECE_SIZE, Piece};
use range_plane::{OutOfMemory, Point};
use std::alloc::Allocator;
use std::marker::Model;

/// More pieces are never made.
pub(crate) const MOST_PIECES: usize = 1 << 53;

// Pieces in their order, and free ones, which stand ready for what comes. `reserve` alone takes memory.
#[derive(Drop)]
pub(crate) struct Shelf<A: Allocator> {
    pieces: Vec<Piece<A>, A>,
    // What they hold is of no account. Both lists have room for all pieces.
    free: Vec<Piece<A>, A>,
}

impl<A: Allocator> Model for Shelf<A> {
    ghost use Rattle.std.specs.Prelude.{◌+◌, ◌≤◌, vec_len, vec_capacity};
    ghost use Rattle.range_pieces.specs.Shelf.{Shelved};

    ghost Value = { Shelved };

    ghost view = { λ s. record { pieces = s.pieces.items; free = vec_len s.free } };

    ghost invariant = { λ s.
        (vec_len s.pieces + vec_len s.free ≤ vec_capacity s.pieces)
        × (vec_len s.pieces + vec_len s.free ≤ vec_capacity s.free) };
}

impl<A: Allocator> Shelf<A> {
    pub(crate) fn new(alloc: A) -> Shelf<A>
    where
        A: Copy,
        ensures { result ≡ record { pieces = []; free = 0 } }
    {
        Shelf {
            pieces: Vec::new(alloc),
            free: Vec::new(alloc),
        }
    }

    pub(crate) fn count(&self) -> usize
        ensures { result ≡ length self.now.pieces }
    {
        self.pieces.len()
    }

    pub(crate) fn free(&self) -> usize
        ensures { result ≡ self.now.free }
    {
        self.free.len()
    }

    pub(crate) fn len_of(&self, i: usize) -> usize
        requires { i < length self.now.pieces }
        ensures value { result ≡ length (piece self.now.pieces i) }
        ensures bound { result ≤ PIECE_SIZE }
    {
        self.pieces[i].len()
    }

    pub(crate) fn points_of(&self, i: usize) -> &[Point]
        requires { i < length self.now.pieces }
        ensures { result.now ≡ piece self.now.pieces i }
    {
        self.pieces[i].points()
    }

    // The first point of piece `i`.
    pub(crate) fn first_of(&self, i: usize) -> Point
        requires piece { i < length self.now.pieces }
        requires some { 0 < length (piece self.now.pieces i) }
        ensures { result ≡ at (piece self.now.pieces i) 0 }
    {
        self.pieces[i].first()
    }

    // Takes memory until there are `total` pieces.
    pub(crate) fn reserve(&mut self, total: usize) -> Result<(), OutOfMemory>
    where
        A: Copy,
        ensures total { OnOk result (total ≤ length self.new.pieces + self.new.free) }
        ensures unchanged { self.new ≡ record self.old { free = self.new.free } }
        ensures more { self.old.free ≤ self.new.free }
        ensures enough { total ≤ length self.old.pieces + self.old.free → (self.new ≡ self.old)
            × IsOk result }
        ensures few { length self.old.pieces + self.old.free ≤ total
            → length self.new.pieces + self.new.free ≤ total }
    {
        let there = self.pieces.len() + self.free.len();
        if total <= there {
            return Ok(());
        }
        self.pieces.reserve(total - self.pieces.len())?;
        self.free.reserve(total - self.free.len())?;
        let alloc = *self.pieces.allocator();
        for _ in there..total {
            let piece = Piece::new(alloc)?;
            let _ = self.free.push(piece);
        }
        Ok(())
    }

    // Puts a piece of `p` alone before piece `i`.
    pub(crate) fn open(&mut self, i: usize, p: Point)
        requires within { i ≤ length self.old.pieces }
        requires room { 0 < self.old.free }
        ensures pieces { self.new.pieces ≡ take i self.old.pieces
            ++ (p ∷ []) ∷ drop i self.old.pieces }
        ensures free { self.new.free + 1 ≡ self.old.free }
    {
        if let Some(mut piece) = self.free.pop() {
            piece.hold(p);
            let _ = self.pieces.insert(i, piece);
        }
    }

    // Cuts piece `i` in two at `at`.
    pub(crate) fn split(&mut self, i: usize, at: usize)
        requires piece { i < length self.old.pieces }
        requires within { at < length (piece self.old.pieces i) }
        requires room { 0 < self.old.free }
        ensures pieces { self.new.pieces ≡ take i self.old.pieces
            ++ take at (piece self.old.pieces i) ∷ drop at (piece self.old.pieces i) ∷ drop (i
            + 1) self.old.pieces }
        ensures free { self.new.free + 1 ≡ self.old.free }
    {
        if let Some(mut second) = self.free.pop() {
            self.pieces[i].split_into(at, &mut second);
            let _ = self.pieces.insert(i + 1, second);
        }
    }

    // Makes one piece of piece `i` and the next.
    pub(crate) fn join(&mut self, i: usize)
        requires within { i + 1 < length self.old.pieces }
        requires some { 0 < length (piece self.old.pieces i) }
        requires fits { length (piece self.old.pieces i) + length (piece self.old.pieces (i + 1))
            ≤ PIECE_SIZE }
        ensures pieces { self.new.pieces ≡ take i self.old.pieces
            ++ (piece self.old.pieces i ++ piece self.old.pieces (i + 1)) ∷ drop (i
            + 2) self.old.pieces }
        ensures free { self.new.free ≡ self.old.free + 1 }
    {
        let second = self.pieces.remove(i + 1);
        self.pieces[i].append(&second);
        let _ = self.free.push(second);
    }

    // Takes out the pieces from `from` up to `to`.
    pub(crate) fn remove(&mut self, from: usize, to: usize)
        requires order { from ≤ to }
        requires within { to ≤ length self.old.pieces }
        ensures pieces { self.new.pieces ≡ take from self.old.pieces ++ drop to self.old.pieces }
        ensures free { self.new.free + from ≡ self.old.free + to }
    {
        let rest = self.pieces.len() - to;
        if from < to {
            for k in 0..rest {
                self.pieces.swap(from + k, to + k);
            }
            for _ in from..to {
                if let Some(piece) = self.pieces.pop() {
                    let _ = self.free.push(piece);
                }
            }
        }
    }

    // Puts `p` into piece `i`, before the point at `index`.
    pub(crate) fn insert(&mut self, i: usize, index: usize, p: Point)
        requires piece { i < length self.old.pieces }
        requires within { index ≤ length (piece self.old.pieces i) }
        requires room { length (piece self.old.pieces i) < PIECE_SIZE }
        ensures { self.new ≡ record self.old {
          pieces = slice_set self.old.pieces i
              (exchange (piece self.old.pieces i) p index index);
        } }
    {
        self.pieces[i].insert(index, p);
    }

    // Puts `p` in place of the points of piece `i` from `from` up to `to`.
    pub(crate) fn replace(&mut self, i: usize, from: usize, to: usize, p: Point)
        requires piece { i < length self.old.pieces }
        requires order { from < to }
        requires within { to ≤ length (piece self.old.pieces i) }
        ensures { self.new ≡ record self.old {
          pieces = slice_set self.old.pieces i
              (exchange (piece self.old.pieces i) p from to);
        } }
    {
        self.pieces[i].replace(from, to, p);
    }

    // Puts `p` in place of all points of piece `i` from `from` on.
    pub(crate) fn end_with(&mut self, i: usize, from: usize, p: Point)
        requires piece { i < length self.old.pieces }
        requires within { from < length (piece self.old.pieces i) }
        ensures { self.new ≡ record self.old {
          pieces = slice_set self.old.pieces i (take from (piece self.old.pieces i)
              ++ p ∷ []);
        } }
    {
        self.pieces[i].end_with(from, p);
    }

    // Takes the first `n` points out of piece `i`.
    pub(crate) fn drop_first(&mut self, i: usize, n: usize)
        requires piece { i < length self.old.pieces }
        requires within { n < length (piece self.old.pieces i) }
        ensures { self.new ≡ record self.old
            { pieces = slice_set self.old.pieces i (drop n (piece self.old.pieces i)) } }
    {
        self.pieces[i].drop_first(n);
    }
}
