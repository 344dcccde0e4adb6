// Percent polygons.

ghost use Rattle.std.specs.Prelude.{◌≡◌, ◌≤◌, IfOk, length};
ghost use Rattle.range_plane.specs.Fix.{fix_limit};
ghost use Rattle.range_stats.specs.Percent.{IsPercentRow, kept_count};

use crate::rankings::Ranking;
use range_plane::{Columns, OutOfMemory};
use std::alloc::Allocator;

/// A percent polygon: its level, how many points it keeps, and how many corners and which doubled area, in
/// squares of the unit, their minimum convex polygon has.
#[derive(Clone, Copy, PartialEq, Eq, Debug)]
pub struct PercentRow {
    pub level: u8,
    pub kept: u32,
    pub corners: u32,
    pub area2: u128,
}

/// The minimum convex polygon of the `level` per cent of the points, rounded up, that lie nearest to the
/// mean of all; of points as near as each other, the earlier are kept. For several levels of the same points
/// make a [`Ranking`] once.
pub fn percent<A: Allocator, B: Allocator>(
    alloc: A,
    fixes: &Columns<B>,
    level: u8,
) -> Result<PercentRow, OutOfMemory>
where
    A: Copy,
    requires level { level ≤ 100 }
    requires few { length fixes.now.points ≤ fix_limit }
    ensures kept { IfOk result (λ row. row.kept ≡ kept_count level (length fixes.now.points)) }
    ensures row { IfOk result (IsPercentRow fixes.now.points level) }
{
    Ranking::new(alloc, fixes, &[level])?.row(alloc, level)
}
