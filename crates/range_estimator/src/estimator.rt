// The estimator of a file.

ghost use Rattle.std.specs.Prelude.{◌≡◌, ◌+◌, ◌≤◌, ◌++◌, [], false, true, IfOk, OnErr, OnOk, count_by, length, not};
ghost use Rattle.range_plane.specs.ConvexCover.{is_covered};
ghost use Rattle.range_plane.specs.Fix.{fix_limit};
ghost use Rattle.range_plane.specs.Polygon.{IsPolygon};
ghost use Rattle.range_plane.specs.Row.{points_of};
ghost use Rattle.range_estimator.specs.Estimation.{IsEstimate};

use crate::block_points::load;
use crate::row::Row;
use crate::table::Table;
use range_cover::CoverCache;
use range_hull::OnlineHull;
use range_plane::{Columns, Fix, OutOfMemory, Polygon};
use std::alloc::{Allocator, Global};
use std::marker::Model;

/// The estimator of one file: it takes the fixes in their order, a block at a time, at most
/// [`FIX_LIMIT`](range_plane::FIX_LIMIT) of them, and keeps their minimum convex polygon and the table of
/// incremental area analysis. A block for which it lacks memory stops it for good. `take_block` and
/// `polygon` alone take memory.
#[derive(Drop)]
pub struct Estimator<A: Allocator + Copy = Global> {
    table: Table<A>,
    // The points of the last block.
    points: Columns<A>,
    cache: CoverCache<A>,
    stopped: bool,
}

impl<A: Allocator + Copy> Model for Estimator<A> {
    ghost use Rattle.std.specs.Prelude.{◌≡◌, ◌≤◌, IfSome, length};
    ghost use Rattle.range_plane.specs.Fix.{fix_limit};
    ghost use Rattle.range_estimator.specs.Estimation.{Estimation};
    ghost use Rattle.range_estimator.specs.Table.{IsSoundTable, fixes_in};

    ghost Value = { Estimation };

    ghost view = { λ e. record {
      fixes = fixes_in e.table;
      rows = e.table.rows.items;
      corners = e.table.hull.corners;
      tested = e.table.hull.inserted;
      stopped = e.stopped;
    } };

    ghost invariant = { λ e.
        IsSoundTable e.table
        × IfSome e.cache.copy (λ corners. corners ≡ e.table.hull.corners)
        × (length (fixes_in e.table) ≤ fix_limit) };
}

impl<A: Allocator + Copy> Estimator<A> {
    /// The estimator of no fixes. It takes no memory.
    pub fn new(alloc: A) -> Estimator<A>
        ensures value { result
            ≡ record { fixes = []; rows = []; corners = []; tested = 0; stopped = false } }
        ensures estimate { IsEstimate result.fixes result.rows result.corners }
    {
        Estimator {
            table: Table {
                columns: Columns::new(alloc),
                rows: Vec::new(alloc),
                hull: OnlineHull::new(alloc),
            },
            points: Columns::new(alloc),
            cache: CoverCache::new(alloc),
            stopped: false,
        }
    }

    /// Takes the next fixes of the file. Only those that the polygon does not cover as it stands before the
    /// block are tested for a new corner. Where memory runs out, no fix is taken and the estimator stops.
    pub fn take_block(&mut self, block: &[Fix]) -> Result<(), OutOfMemory>
        requires running { self.old.stopped ≡ false }
        requires few { length self.old.fixes + length block.now ≤ fix_limit }
        ensures fixes { OnOk result (self.new.fixes ≡ self.old.fixes ++ block.now) }
        ensures tested { OnOk result (self.new.tested
            ≡ self.old.tested
            + count_by (λ p. not (is_covered self.old.corners p)) (points_of block.now)) }
        ensures running { OnOk result (self.new.stopped ≡ false) }
        ensures refused { OnErr result (self.new ≡ record self.old { stopped = true }) }
        ensures estimate { IsEstimate self.new.fixes self.new.rows self.new.corners }
    {
        if self.table.reserve(block.len()).is_err()
            || load(&mut self.points, block).is_err()
            || self.cache.flag(&self.table.hull, &self.points).is_err()
        {
            self.stopped = true;
            return Err(OutOfMemory);
        }
        let tested = self.table.hull.inserted();
        self.table.take_flagged(block, self.cache.flags());
        if self.table.hull.inserted() != tested {
            self.cache.forget();
        }
        Ok(())
    }

    /// The row of each fix: that of the first n fixes at index n - 1.
    pub fn rows(&self) -> &[Row]
        ensures value { result.now ≡ self.now.rows }
        ensures estimate { IsEstimate self.now.fixes self.now.rows self.now.corners }
    {
        self.table.rows.as_slice()
    }

    /// The minimum convex polygon of all fixes, in a list of its own.
    pub fn polygon<B: Allocator>(&self, alloc: B) -> Result<Polygon<B>, OutOfMemory>
        ensures value { IfOk result (λ polygon. polygon ≡ self.now.corners) }
        ensures polygon { IfOk result (λ polygon. IsPolygon (points_of self.now.fixes) polygon) }
    {
        self.table.hull.polygon(alloc)
    }

    /// The point of each fix, in order.
    pub fn columns(&self) -> &Columns<A>
        ensures { result.now.points ≡ points_of self.now.fixes }
    {
        &self.table.columns
    }

    /// The row of each fix and the point of each, without a copy.
    pub fn into_parts(self) -> (Vec<Row, A>, Columns<A>)
        ensures rows { result.0.items ≡ self.rows }
        ensures points { result.1.points ≡ points_of self.fixes }
        ensures estimate { IsEstimate self.fixes self.rows self.corners }
        ensures few { length self.fixes ≤ fix_limit }
    {
        (self.table.rows, self.table.columns)
    }

    /// Whether memory ran out for a block. A stopped estimator takes no more.
    pub fn stopped(&self) -> bool
        ensures { result ≡ self.now.stopped }
    {
        self.stopped
    }

    /// How many fixes were tested for a new corner: those that the polygon before their block does not
    /// cover.
    pub fn tested(&self) -> u32
        ensures { result ≡ self.now.tested }
    {
        self.table.hull.inserted()
    }
}
