// Points in columns.

use range_plane::{Columns, OutOfMemory, Point};
use std::alloc::Global;

// Some points, in columns.
pub(crate) fn columns_of(alloc: Global, points: &[Point]) -> Result<Columns, OutOfMemory> {
    let mut columns = Columns::new(alloc);
    for point in points {
        columns.push(*point)?;
    }
    Ok(columns)
}
