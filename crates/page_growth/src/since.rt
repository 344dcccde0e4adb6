// From when on an area stayed near the last one.

use crate::areas::Prefixes;
use range_plane::OutOfMemory;
use std::alloc::Global;

/// In how many equal parts of the time the area is looked at.
pub const PARTS: u64 = 20;

// Whether an area is 95 per cent or more of the last one.
fn is_within(last: u128, area2: u128) -> bool {
    last.saturating_sub(last / 20) <= area2
}

// The second with which so many parts of the time from a second to another end.
pub(crate) fn end_of_part(first: u64, last: u64, part: u64) -> u64 {
    let span = u128::from(last.saturating_sub(first));
    let passed = span.saturating_mul(u128::from(part)) / u128::from(PARTS);
    first.saturating_add(u64::try_from(passed).unwrap_or(0))
}

// Whether the area of the fixes up to a second is 95 per cent or more of the last one.
fn holds_at(
    alloc: Global,
    prefixes: &Prefixes,
    second: u64,
    area2: u128,
) -> Result<bool, OutOfMemory> {
    let count = prefixes.count_up_to(second);
    Ok(is_within(area2, prefixes.area_of_first(alloc, count)?))
}

/// The end of the first of the parts of the time from a second to another, such that at its end and at that of each later one the
/// area was 95 per cent or more of the final one, which is this. `None` where there is no area.
pub(crate) fn since_when(
    alloc: Global,
    prefixes: &Prefixes,
    first: u64,
    last: u64,
    area2: u128,
) -> Result<Option<u64>, OutOfMemory> {
    if area2 == 0 {
        return Ok(None);
    }
    let mut since = last;
    for later in 1..PARTS {
        let end = end_of_part(first, last, PARTS - later);
        if !holds_at(alloc, prefixes, end, area2)? {
            break;
        }
        since = end;
    }
    Ok(Some(since))
}
