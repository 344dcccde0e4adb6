// Points by their distance from the mean of all.

ghost use Rattle.std.specs.Prelude.{◌≡◌, ◌≤◌, ℕ, All, Contains, IfOk, List, length, take};
ghost use Rattle.std.specs.List.{AllZip};
ghost use Rattle.range_plane.specs.Fix.{fix_limit};
ghost use Rattle.range_plane.specs.Plane.{Position};
ghost use Rattle.range_stats.specs.Percent.{IsFirstRow, IsHullOf, IsPercentRow, IsRanking, kept_count};

use crate::batches::add_points;
use crate::cuts::{kept_count, push_cut};
use crate::distances::distance_keys;
use crate::percents::PercentRow;
use range_hull::OnlineHull;
use range_plane::{Columns, OutOfMemory};
use std::alloc::{Allocator, Global};
use std::marker::Model;

/// Points by their distance from the mean of all, ranked for some levels: the points that one of these levels
/// keeps come before all others, and its percent polygon is that of the first so many.
#[derive(Drop)]
pub struct Ranking<'a, A: Allocator = Global, B: Allocator = Global> {
    fixes: &'a Columns<B>,
    // The indices of the points, in the order in which they are ranked.
    indices: Vec<u32, A>,
}

impl<'a, A: Allocator, B: Allocator> Model for Ranking<'a, A, B> {
    ghost use Rattle.std.specs.Prelude.{◌≤◌, List, length};
    ghost use Rattle.range_plane.specs.Fix.{fix_limit};
    ghost use Rattle.range_plane.specs.Plane.{Position};
    ghost use Rattle.range_stats.specs.Keys.{AreIndices, points_at};

    ghost Value = { List Position };

    ghost view = { λ r. points_at r.fixes.now.points r.indices.items };

    ghost invariant = { λ r. AreIndices r.fixes.now.points r.indices.items
        × (length r.indices.items ≤ fix_limit) };
}

impl<'a, A: Allocator, B: Allocator> Ranking<'a, A, B> {
    /// Ranks the points for the levels by their distance from their mean, and points as near as each other by
    /// their indices. The levels stand in any order.
    pub fn new(
        alloc: A,
        fixes: &'a Columns<B>,
        levels: &[u8],
    ) -> Result<Ranking<'a, A, B>, OutOfMemory>
    where
        A: Copy,
        requires { length fixes.now.points ≤ fix_limit }
        ensures { IfOk result (IsRanking fixes.now.points levels.now) }
    {
        let mut keys = distance_keys(alloc, fixes)?;
        let mut indices = Vec::with_capacity(alloc, keys.len())?;
        push_cut(&mut indices, &mut keys, levels, fixes.len());
        Ok(Ranking { fixes, indices })
    }

    /// The percent polygon at a level, which is one of those that the points were ranked for. The hull that it
    /// is made with, and points that are added to it at once, take memory from `alloc`.
    pub fn row<C: Allocator>(&self, alloc: C, level: u8) -> Result<PercentRow, OutOfMemory>
    where
        C: Copy,
        requires { level ≤ 100 }
        ensures kept { IfOk result (λ row. row.kept ≡ kept_count level (length self.now)) }
        ensures row { (points : List Position) (levels : List ℕ) → IsRanking points levels self.now
            → Contains levels level → IfOk result (IsPercentRow points level) }
    {
        let mut hull = OnlineHull::new(alloc);
        self.row_at(alloc, &mut hull, 0, level)
    }

    /// The percent polygons at the levels that the points were ranked for, in their order. Levels that rise share
    /// one hull, to which each adds the points that the one before it does not keep. The hull, points that are added
    /// to it at once, and the rows take memory from `alloc`.
    pub fn rows<C: Allocator>(
        &self,
        alloc: C,
        levels: &[u8],
    ) -> Result<Vec<PercentRow, C>, OutOfMemory>
    where
        C: Copy,
        requires { All (λ level. level ≤ 100) levels.now }
        ensures { (points : List Position) → IsRanking points levels.now self.now
            → IfOk result (λ rows. AllZip (IsPercentRow points) levels.now rows.items) }
    {
        let mut rows = Vec::with_capacity(alloc, levels.len())?;
        let mut hull = OnlineHull::new(alloc);
        let mut done = 0;
        for level in levels {
            let kept = kept_count(*level, self.indices.len());
            if kept < done {
                hull = OnlineHull::new(alloc);
                done = 0;
            }
            let row = self.row_at(alloc, &mut hull, done, *level)?;
            rows.push(row)?;
            done = kept;
        }
        Ok(rows)
    }

    // Reads the row of a level off a hull of the first `done` points, to which those up to what the level keeps are
    // added.
    fn row_at<C: Allocator>(
        &self,
        alloc: C,
        hull: &mut OnlineHull<C>,
        done: usize,
        level: u8,
    ) -> Result<PercentRow, OutOfMemory>
    where
        C: Copy,
        requires level { level ≤ 100 }
        requires done { done ≤ kept_count level (length self.now) }
        requires hull { IsHullOf (take done self.now) hull.old }
        ensures row { IfOk result (IsFirstRow self.now level) }
        ensures hull { IfOk result
            (λ row. IsHullOf (take (kept_count level (length self.now)) self.now) hull.new) }
    {
        let kept = kept_count(level, self.indices.len());
        add_points(alloc, hull, self.fixes, &self.indices[done..kept])?;
        Ok(PercentRow {
            level,
            kept: kept as u32,
            corners: hull.corner_count(),
            area2: hull.area2(),
        })
    }
}
