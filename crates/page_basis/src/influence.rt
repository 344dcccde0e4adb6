// The fix that makes the most of the area of an animal.

use crate::columns::columns_of;
use page_influence::least_without;
use page_report::ReadAnimal;
use range_plane::{FIX_LIMIT, OutOfMemory, Point};
use std::alloc::Global;

/// Of polygons with more corners it is not looked for, since that takes time by the square of their number.
pub const MOST_CORNERS: usize = 256;

/// The fix without which the polygon of all others is least, by its second, and the doubled area of that.
#[derive(Clone, Copy, PartialEq, Eq, Debug)]
pub struct OneFix {
    pub second: u64,
    pub area2: u128,
}

// The fix that makes the most of the area of an animal, whose fixes are these; none where there is one fix alone, or too many
// corners.
pub(crate) fn one_fix(
    alloc: Global,
    animal: &ReadAnimal,
    fixes: &[Point],
) -> Result<Option<OneFix>, OutOfMemory> {
    let columns = columns_of(alloc, fixes)?;
    if animal.corners.len() > MOST_CORNERS || columns.len() > FIX_LIMIT as usize {
        return Ok(None);
    }
    let Some(found) = least_without(alloc, &columns)? else {
        return Ok(None);
    };
    Ok(
        animal.rows.get(found.index).map(|row| OneFix {
            second: row.second,
            area2: found.area2,
        }),
    )
}
