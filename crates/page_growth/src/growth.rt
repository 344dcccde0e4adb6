// How the area at a level grew.

use crate::areas::Prefixes;
use crate::since::since_when;
use range_estimator::Row;
use range_plane::{OutOfMemory, Point};
use std::alloc::Global;

/// How the area at a level grew. Areas are doubled, in squares of the unit.
#[derive(Clone, Copy, PartialEq, Eq, Debug)]
pub struct LevelGrowth {
    pub level: u8,
    /// Of all fixes.
    pub area2: u128,
    /// Of the first three quarters of the fixes, rounded down.
    pub by_fixes: u128,
    /// Of the fixes of the first three quarters of the time.
    pub by_days: u128,
    /// From when on it stayed at 95 per cent or more of that of all: the end of one of the parts of the time. None where there is
    /// no area.
    pub since: Option<u64>,
}

// The second with which the first three quarters of the time end.
fn end_of_three_quarters(first: u64, last: u64) -> u64 {
    let span = u128::from(last.saturating_sub(first));
    let passed = u64::try_from(span.saturating_mul(3) / 4).unwrap_or(0);
    first.saturating_add(passed)
}

// How many of so many fixes the first three quarters are.
fn three_quarters(fixes: usize) -> usize {
    let fixes = fixes as u128;
    usize::try_from(fixes.saturating_mul(3) / 4).unwrap_or(0)
}

/// How the area at a level grew, of fixes of which each has its row; rows are in the order of their seconds. `None` where there is
/// no fix.
///
/// It makes the polygon of the first fixes anew for three quarters of the time and of the fixes, and for the end of each part of the
/// time.
///
/// # Errors
///
/// Memory ran out.
pub fn growth_at(
    alloc: Global,
    level: u8,
    rows: &[Row],
    fixes: &[Point],
) -> Result<Option<LevelGrowth>, OutOfMemory> {
    let (Some(first), Some(last)) = (rows.first(), rows.last()) else {
        return Ok(None);
    };
    let prefixes = Prefixes { rows, fixes, level };
    let area2 = prefixes.area_of_first(alloc, rows.len())?;
    let before = prefixes.count_up_to(end_of_three_quarters(first.second, last.second));
    Ok(Some(LevelGrowth {
        level,
        area2,
        by_fixes: prefixes.area_of_first(alloc, three_quarters(rows.len()))?,
        by_days: prefixes.area_of_first(alloc, before)?,
        since: since_when(alloc, &prefixes, first.second, last.second, area2)?,
    }))
}
