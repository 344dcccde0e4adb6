// What is drawn of an animal.

use range_estimator::Row;

// An animal with its number, from 1 on, its name, its rows, and the number of the first fix from which on the area stayed at 95
// per cent or more.
#[derive(Clone, Copy)]
pub(crate) struct Curve<'a> {
    pub number: u64,
    pub name: &'a [u8],
    pub rows: &'a [Row],
    pub within: Option<usize>,
}

// A doubled area of 64 bits; no area of a report is greater.
pub(crate) fn short(area2: u128) -> u64 {
    u64::try_from(area2).unwrap_or(u64::MAX)
}

// The doubled area of all fixes.
pub(crate) fn last_area(rows: &[Row]) -> u64 {
    match rows.last() {
        Some(row) => short(row.area2),
        None => 0,
    }
}
