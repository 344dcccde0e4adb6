// The turns that a hull's inserts evaluate, counted, and the area that they bring it.

ghost use Rattle.std.specs.Bool.{OnFalse, OnTrue};
ghost use Rattle.std.specs.Int.RustNames.{unsigned_abs};
ghost use Rattle.std.specs.Prelude.{◌≡◌, ◌+◌, ◌*◌, ◌<◌, ◌≤◌, pos, ◌+ℤ◌, ◌-ℤ◌, ◌≤ℤ◌, ◌<ℤ◌};
ghost use Rattle.range_plane.specs.Plane.{turn_limit};
ghost use Rattle.range_hull.specs.Chain.{bend};
ghost use Rattle.range_hull.specs.Tally.{most_turns};

use crate::side::Side;
use range_plane::Point;
use std::marker::Model;

// How often inserts evaluated `turn`, and the doubled area within the chains. Each turn that changes a chain
// is the doubled area of the triangle that the chain gains.
#[derive(Drop)]
pub(crate) struct Tally {
    turns: u64,
    area: u128,
}

impl Model for Tally {
    ghost use Rattle.std.specs.Prelude.{◌*◌, ◌≤◌};
    ghost use Rattle.range_plane.specs.Plane.{turn_limit};
    ghost use Rattle.range_hull.specs.Tally.{Count};

    ghost Value = { Count };

    ghost view = { λ t. record { turns = t.turns; area = t.area } };

    ghost invariant = { λ t. t.area ≤ t.turns * turn_limit };
}

impl Tally {
    pub(crate) fn new() -> Tally
        ensures { result ≡ record { turns = 0; area = 0 } }
    {
        Tally { turns: 0, area: 0 }
    }

    pub(crate) fn turns(&self) -> u64
        ensures { result ≡ self.now.turns }
    {
        self.turns
    }

    pub(crate) fn area(&self) -> u128
        ensures { result ≡ self.now.area }
    {
        self.area
    }

    // How far `a`, `b`, `c` bend the way that a chain of this side has to. Every turn of an insertion is
    // evaluated here.
    fn bend(&mut self, side: Side, a: Point, b: Point, c: Point) -> i64
        requires { self.old.turns < most_turns }
        ensures value { result ≡ bend side a b c }
        ensures bound { unsigned_abs result ≤ turn_limit }
        ensures counted { self.new ≡ record self.old { turns = self.old.turns + 1 } }
        ensures room { self.new.area + turn_limit ≤ self.new.turns * turn_limit }
    {
        self.turns += 1;
        side.bend(a, b, c)
    }

    // Whether `b` lies outside of the chain, past the edge from `a` to `c`, so that it becomes a corner.
    pub(crate) fn bulges(&mut self, side: Side, a: Point, b: Point, c: Point) -> bool
        requires { self.old.turns < most_turns }
        ensures yes { OnTrue result (pos 0 <ℤ bend side a b c) }
        ensures no { OnFalse result (bend side a b c ≤ℤ pos 0) }
        ensures turns { self.new.turns ≡ self.old.turns + 1 }
        ensures gained { OnTrue result (pos self.new.area ≡ pos self.old.area +ℤ bend side a b c) }
        ensures none { OnFalse result (self.new.area ≡ self.old.area) }
    {
        let bend = self.bend(side, a, b, c);
        if bend > 0 {
            self.area += u128::from(bend.unsigned_abs());
        }
        bend > 0
    }

    // Whether the corner `b` falls inside of the chain, or onto it, once it goes from `a` to `c`.
    pub(crate) fn dents(&mut self, side: Side, a: Point, b: Point, c: Point) -> bool
        requires { self.old.turns < most_turns }
        ensures yes { OnTrue result (bend side a b c ≤ℤ pos 0) }
        ensures no { OnFalse result (pos 0 <ℤ bend side a b c) }
        ensures turns { self.new.turns ≡ self.old.turns + 1 }
        ensures gained { OnTrue result (pos self.new.area ≡ pos self.old.area -ℤ bend side a b c) }
        ensures none { OnFalse result (self.new.area ≡ self.old.area) }
    {
        let bend = self.bend(side, a, b, c);
        if bend <= 0 {
            self.area += u128::from(bend.unsigned_abs());
        }
        bend <= 0
    }
}
