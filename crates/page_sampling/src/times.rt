// When fixes were: the longest gap, and in how few days half of them are.

use range_estimator::Row;
use std::alloc::{AllocError, Global};

/// How long a period is, in seconds: 24 hours, counted from the first fix on.
pub const PERIOD: u64 = 86_400;

/// The time between two fixes, by their seconds.
#[derive(Clone, Copy, PartialEq, Eq, Debug)]
pub struct Gap {
    pub from: u64,
    pub to: u64,
}

/// Periods of 24 hours from the first fix to the last.
#[derive(Clone, Copy, PartialEq, Eq, Debug)]
pub struct Periods {
    /// How many there are.
    pub all: u64,
    /// In how few of them half of the fixes are.
    pub half: usize,
}

// The longer of two gaps, of such as are as long the first.
fn longer(longest: Option<Gap>, gap: Gap) -> Option<Gap> {
    match longest {
        Some(own) if gap.to.saturating_sub(gap.from) <= own.to.saturating_sub(own.from) => longest,
        _ => Some(gap),
    }
}

/// The longest time between a fix and the next, of such as are as long the first; `None` of fewer than two fixes.
pub fn longest_gap(rows: &[Row]) -> Option<Gap> {
    let mut longest: Option<Gap> = None;
    let mut former: Option<u64> = None;
    for row in rows {
        if let Some(from) = former {
            let gap = Gap {
                from,
                to: row.second,
            };
            longest = longer(longest, gap);
        }
        former = Some(row.second);
    }
    longest
}

// The number of the period of a second, counted from 0.
fn period_of(first: u64, second: u64) -> u64 {
    second.saturating_sub(first) / PERIOD
}

// How many fixes each period has that has some; rows are in the order of their seconds.
fn counts_of(alloc: Global, first: u64, rows: &[Row]) -> Result<Vec<usize>, AllocError> {
    let mut counts = Vec::new(alloc);
    let mut former = 0;
    let mut count: usize = 0;
    for row in rows {
        let period = period_of(first, row.second);
        if period != former {
            counts.push(count)?;
            count = 0;
        }
        former = period;
        count = count.saturating_add(1);
    }
    counts.push(count)?;
    Ok(counts)
}

// How many of the greatest counts it takes to have half of so many fixes.
fn fewest(counts: &[usize], fixes: usize) -> usize {
    let mut taken: usize = 0;
    let mut periods: usize = 0;
    for count in counts {
        if taken >= fixes.saturating_sub(taken) {
            break;
        }
        taken = taken.saturating_add(*count);
        periods = periods.saturating_add(1);
    }
    periods
}

/// The periods of fixes, whose rows are in the order of their seconds; `None` where there is no fix.
///
/// # Errors
///
/// Memory ran out.
pub fn periods_of(alloc: Global, rows: &[Row]) -> Result<Option<Periods>, AllocError> {
    let (Some(first), Some(last)) = (rows.first(), rows.last()) else {
        return Ok(None);
    };
    let mut counts = counts_of(alloc, first.second, rows)?;
    counts.sort_unstable();
    counts.reverse();
    Ok(Some(Periods {
        all: period_of(first.second, last.second).saturating_add(1),
        half: fewest(&counts, rows.len()),
    }))
}
