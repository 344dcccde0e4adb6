// The table of incremental area analysis, which grows by a fix at a time.

ghost use Rattle.std.specs.Prelude.{◌≡◌, ◌+◌, ◌<◌, ◌≤◌, ◌∷◌, ◌++◌, [], true, IsTrue, OnOk, count_by, if◌then◌else◌, length, map, not};
ghost use Rattle.range_plane.specs.ConvexCover.{is_covered};
ghost use Rattle.range_plane.specs.Fix.{fix_limit};
ghost use Rattle.range_plane.specs.Row.{points_of};
ghost use Rattle.range_estimator.specs.Table.{IsSoundTable, fixes_in, spare_of};

use crate::row::Row;
use range_cover::add_point;
use range_hull::OnlineHull;
use range_plane::{Columns, Fix, OutOfMemory};
use std::alloc::Allocator;

// The points of fixes, the table of these, and the hull of the points.
#[derive(Drop)]
pub(crate) struct Table<A: Allocator> {
    pub(crate) columns: Columns<A>,
    pub(crate) rows: Vec<Row, A>,
    pub(crate) hull: OnlineHull<A>,
}

impl<A: Allocator> Table<A> {
    // Makes room for `k` more fixes.
    pub(crate) fn reserve(&mut self, k: usize) -> Result<(), OutOfMemory>
    where
        A: Copy,
        ensures room { OnOk result (k ≤ spare_of self.new) }
        ensures points { self.new.columns.points ≡ self.old.columns.points }
        ensures rows { self.new.rows.items ≡ self.old.rows.items }
        ensures hull { self.new.hull ≡ record self.old.hull { spare = self.new.hull.spare } }
    {
        self.columns.reserve(k)?;
        self.rows.reserve(k)?;
        self.hull.reserve(k)
    }

    // Takes a fix. Where the polygon covers it, `covered` may say so.
    fn take(&mut self, fix: Fix, covered: bool)
        requires sound { IsSoundTable self.old }
        requires room { 0 < spare_of self.old }
        requires few { length (fixes_in self.old) < fix_limit }
        requires covered { covered ≡ true → IsTrue (is_covered self.old.hull.corners fix.at) }
        ensures sound { IsSoundTable self.new }
        ensures fixes { fixes_in self.new ≡ fixes_in self.old ++ fix ∷ [] }
        ensures tested { self.new.hull.inserted
            ≡ self.old.hull.inserted + (if covered then 0 else 1) }
        ensures covered { covered ≡ true → self.new.hull.corners ≡ self.old.hull.corners }
        ensures spare { spare_of self.old ≤ spare_of self.new + 1 }
    {
        self.columns.push_reserved(fix.at);
        add_point(&mut self.hull, fix.at, covered);
        let corners = self.hull.corner_count();
        self.rows.push_reserved(Row {
            second: fix.second,
            corners,
            area2: self.hull.area2(),
        });
    }

    // Takes the fixes of a block, of which the flags say which ones the polygon covers as it stands.
    pub(crate) fn take_flagged(&mut self, block: &[Fix], flags: &[bool])
        requires sound { IsSoundTable self.old }
        requires room { length block.now ≤ spare_of self.old }
        requires few { length (fixes_in self.old) + length block.now ≤ fix_limit }
        requires flags { flags.now ≡ map (is_covered self.old.hull.corners) (points_of block.now) }
        ensures sound { IsSoundTable self.new }
        ensures fixes { fixes_in self.new ≡ fixes_in self.old ++ block.now }
        ensures tested { self.new.hull.inserted
            ≡ self.old.hull.inserted
            + count_by (λ p. not (is_covered self.old.hull.corners p)) (points_of block.now) }
        ensures untested { self.new.hull.inserted ≡ self.old.hull.inserted
            → self.new.hull.corners ≡ self.old.hull.corners }
    {
        for (i, fix) in block.iter().enumerate() {
            self.take(*fix, flags[i]);
        }
    }
}
