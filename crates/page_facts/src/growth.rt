// How the area of a range grew with the number of fixes.

ghost use Rattle.std.specs.Prelude.{◌≡◌, ◌≤◌, length, map};
ghost use Rattle.page_facts.specs.Growth.{added, area_of_first, before_within, growth_of, is_within, last_area, within};

use range_estimator::Row;

/// How an area grew. Areas are doubled, in squares of the unit.
#[derive(Clone, Copy, PartialEq, Eq, Debug)]
pub struct Growth {
    /// Of all fixes.
    pub area2: u128,
    /// The number of the first fix from which on the area stayed at 95 per cent or more of that; none where there is no area.
    pub within: Option<usize>,
    /// How much of it the last tenth of the fixes added.
    pub tenth: u128,
    /// And the last quarter.
    pub quarter: u128,
}

// Whether an area is 95 per cent or more of the last one.
fn is_within(last: u128, row: &Row) -> bool
    ensures { result ≡ is_within last row.now.area2 }
{
    last - last / 20 <= row.area2
}

// The area of so many fixes.
fn area_of_first(rows: &[Row], count: usize) -> u128
    ensures { result ≡ area_of_first (map (λ row. row.area2) rows.now) count }
{
    if count == 0 {
        return 0;
    }
    match rows.get(count - 1) {
        Some(row) => row.area2,
        None => 0,
    }
}

// How many rows stand before the first from which on all are within 95 per cent.
fn before_within(last: u128, rows: &[Row]) -> usize
    ensures most { result ≤ length rows.now }
    ensures value { result ≡ before_within last (map (λ row. row.area2) rows.now) }
{
    let mut before = 0;
    for (place, row) in rows.iter().enumerate() {
        if !is_within(last, row) {
            before = place + 1;
        }
    }
    before
}

// The number of the first fix from which on all are within 95 per cent.
fn within(last: u128, rows: &[Row]) -> Option<usize>
    ensures { result ≡ within last (map (λ row. row.area2) rows.now) }
{
    if last == 0 {
        None
    } else {
        Some(before_within(last, rows) + 1)
    }
}

// How much the fixes behind so many added.
fn added(last: u128, rows: &[Row], count: usize) -> u128
    ensures { result ≡ added last (map (λ row. row.area2) rows.now) count }
{
    last.saturating_sub(area_of_first(rows, count))
}

/// How the area of some rows grew.
pub(crate) fn growth_of(rows: &[Row]) -> Growth
    ensures { result ≡ growth_of (map (λ row. row.area2) rows.now) }
{
    let last = area_of_first(rows, rows.len());
    let fixes = rows.len() as u128;
    Growth {
        area2: last,
        within: within(last, rows),
        tenth: added(last, rows, (9 * fixes / 10) as usize),
        quarter: added(last, rows, (3 * fixes / 4) as usize),
    }
}
