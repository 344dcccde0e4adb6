// Many points that are added to a hull, batch by batch.

ghost use Rattle.std.specs.Prelude.{◌≡◌, ◌+◌, ◌++◌, ◌≤◌, ℕ, IfOk, List, OnOk, Some, false, get_or, length, slice_get, true};
ghost use Rattle.range_plane.specs.ConvexCover.{is_covered};
ghost use Rattle.range_plane.specs.Fix.{fix_limit};
ghost use Rattle.range_plane.specs.Plane.{Position};
ghost use Rattle.range_plane.specs.Polygon.{IsPolygon};
ghost use Rattle.range_stats.specs.Keys.{AreIndices, points_at};
ghost use Rattle.range_stats.specs.Percent.{IsHullOf};

use range_cover::{CoverCache, add_point};
use range_hull::OnlineHull;
use range_plane::{Columns, OutOfMemory};
use std::alloc::Allocator;

// How many points are flagged at once. docs/PERFORMANCE.md has what other numbers cost.
const BATCH: usize = 512;

// The most corners of a hull for which a batch is flagged. Where there are more, flags cost more than the tests that they
// spare.
const FLAGGED_CORNERS: u32 = 2048;

// Adds the points at the indices to a hull, in batches. The last come first, since they cover most of the others: the
// farthest are among those that a level keeps and no lower one.
pub(crate) fn add_points<A: Allocator + Copy, B: Allocator>(
    alloc: A,
    hull: &mut OnlineHull<A>,
    fixes: &Columns<B>,
    indices: &[u32],
) -> Result<(), OutOfMemory>
    requires indices { AreIndices fixes.now.points indices.now }
    requires polygon { IsPolygon hull.old.corners hull.old.corners }
    requires few { hull.old.inserted + hull.old.skipped + length indices.now ≤ fix_limit }
    ensures { (S : List Position) → IsHullOf S hull.old
        → IfOk result (λ done. IsHullOf (points_at fixes.now.points indices.now ++ S) hull.new) }
{
    let mut left = indices.len();
    while left > 0 {
        let start = left.saturating_sub(BATCH);
        add_batch(alloc, hull, fixes, &indices[start..left])?;
        left = start;
    }
    Ok(())
}

// The points at the indices, in columns.
fn columns_of<A: Allocator + Copy, B: Allocator>(
    alloc: A,
    fixes: &Columns<B>,
    indices: &[u32],
) -> Result<Columns<A>, OutOfMemory>
    requires { AreIndices fixes.now.points indices.now }
    ensures { IfOk result (λ cols. cols.points ≡ points_at fixes.now.points indices.now) }
{
    let mut cols = Columns::new(alloc);
    cols.reserve(indices.len())?;
    for index in indices {
        cols.push_reserved(fixes.at(*index as usize));
    }
    Ok(cols)
}

// Adds a batch of points, those at the indices. Where the polygon has few corners, those that it covers before the batch
// are counted alone.
fn add_batch<A: Allocator + Copy, B: Allocator>(
    alloc: A,
    hull: &mut OnlineHull<A>,
    fixes: &Columns<B>,
    indices: &[u32],
) -> Result<(), OutOfMemory>
    requires indices { AreIndices fixes.now.points indices.now }
    requires polygon { IsPolygon hull.old.corners hull.old.corners }
    requires few { hull.old.inserted + hull.old.skipped + length indices.now ≤ fix_limit }
    ensures counted { OnOk result (hull.new.inserted + hull.new.skipped
        ≡ hull.old.inserted + hull.old.skipped + length indices.now) }
    ensures set { OnOk result ((S : List Position) → IsPolygon S hull.old.corners
        → IsPolygon (points_at fixes.now.points indices.now ++ S) hull.new.corners) }
{
    let batch = columns_of(alloc, fixes, indices)?;
    hull.reserve(batch.len())?;
    if hull.corner_count() > FLAGGED_CORNERS {
        add_flagged(hull, &batch, &[]);
        return Ok(());
    }
    let mut cache = CoverCache::new(alloc);
    cache.flag(hull, &batch)?;
    add_flagged(hull, &batch, cache.flags());
    Ok(())
}

// Adds points, the last of them first. One whose cover flag is true is known to be covered by the polygon as it stands, and is
// counted alone; the others, and those that have no flag, are tested.
fn add_flagged<A: Allocator, B: Allocator>(
    hull: &mut OnlineHull<A>,
    batch: &Columns<B>,
    flags: &[bool],
)
    requires polygon { IsPolygon hull.old.corners hull.old.corners }
    requires few { hull.old.inserted + hull.old.skipped + length batch.now.points ≤ fix_limit }
    requires room { length batch.now.points ≤ hull.old.spare }
    requires flags { (i : ℕ) (p : Position) → get_or flags.now i false ≡ true
        → slice_get batch.now.points i ≡ Some p → is_covered hull.old.corners p ≡ true }
    ensures counted { hull.new.inserted + hull.new.skipped
        ≡ hull.old.inserted + hull.old.skipped + length batch.now.points }
    ensures set { (S : List Position) → IsPolygon S hull.old.corners
        → IsPolygon (batch.now.points ++ S) hull.new.corners }
{
    let mut left = batch.len();
    while left > 0 {
        left -= 1;
        let known = left < flags.len() && flags[left];
        add_point(hull, batch.at(left), known);
    }
}
