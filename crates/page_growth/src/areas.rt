// The area at a level of the first fixes of an animal.

ghost use Rattle.std.specs.Prelude.{◌≤◌};

use range_estimator::Row;
use range_plane::{Columns, FIX_LIMIT, OutOfMemory, Point};
use range_stats::percent;
use std::alloc::Global;

/// The fixes of an animal, each with its row, and a level.
#[derive(Clone, Copy)]
pub(crate) struct Prefixes<'a> {
    pub rows: &'a [Row],
    pub fixes: &'a [Point],
    pub level: u8,
}

// The first of some fixes, in columns.
fn columns_of(alloc: Global, fixes: &[Point]) -> Result<Columns, OutOfMemory> {
    let mut columns = Columns::new(alloc);
    for fix in fixes {
        columns.push(*fix)?;
    }
    Ok(columns)
}

impl<'a> Prefixes<'a> {
    // The doubled area of the polygon at a level below 100 of the first fixes, so many.
    fn percent_of_first(&self, alloc: Global, count: usize) -> Result<u128, OutOfMemory> {
        let fixes = self.fixes.get(..count).unwrap_or(self.fixes);
        let columns = columns_of(alloc, fixes)?;
        if columns.len() > FIX_LIMIT as usize || self.level > 100 {
            return Ok(0);
        }
        Ok(percent(alloc, &columns, self.level)?.area2)
    }

    /// The doubled area of the polygon at the level of the first fixes, so many. That of all fixes is in the row of the last of
    /// them.
    pub(crate) fn area_of_first(&self, alloc: Global, count: usize) -> Result<u128, OutOfMemory> {
        if self.level < 100 {
            return self.percent_of_first(alloc, count);
        }
        match self.rows.get(count.saturating_sub(1)) {
            Some(row) if count > 0 => Ok(row.area2),
            _ => Ok(0),
        }
    }

    /// How many fixes there are up to a second.
    pub(crate) fn count_up_to(&self, second: u64) -> usize {
        self.rows.iter().filter(|row| row.second <= second).count()
    }
}
