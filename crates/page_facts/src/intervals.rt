// The intervals between fixes.

ghost use Rattle.std.specs.Prelude.{◌≡◌, IfOk, map, max};
ghost use Rattle.std.specs.List.{reduce};
ghost use Rattle.page_facts.specs.Facts.{IsTwiceMedian, intervals_behind, intervals_of, twice_middle};

use range_estimator::Row;
use std::alloc::{AllocError, Global};

// The intervals between fixes behind one of this second.
fn intervals_behind(alloc: Global, first: u64, rows: &[Row]) -> Result<Vec<u64>, AllocError>
    ensures { IfOk result (λ own. own.items ≡ intervals_behind first (map (λ row. row.second) rows.now)) }
{
    let mut former = first;
    let mut intervals = Vec::new(alloc);
    for row in rows {
        intervals.push(row.second.saturating_sub(former))?;
        former = row.second;
    }
    Ok(intervals)
}

/// The intervals between fixes.
pub(crate) fn intervals_of(alloc: Global, rows: &[Row]) -> Result<Vec<u64>, AllocError>
    ensures { IfOk result (λ own. own.items ≡ intervals_of (map (λ row. row.second) rows.now)) }
{
    match rows {
        [first, behind @ ..] => intervals_behind(alloc, first.second, behind),
        [] => Ok(Vec::new(alloc)),
    }
}

/// The longest interval.
pub(crate) fn longest(intervals: &[u64]) -> Option<u64>
    ensures { result ≡ reduce max intervals.now }
{
    intervals.iter().copied().max()
}

// Twice the middle of numbers in order.
fn twice_middle(sorted: &[u64]) -> Option<u128>
    ensures { result ≡ twice_middle sorted.now }
{
    let upper = sorted.get(sorted.len() / 2)?;
    let lower = sorted.get((sorted.len() - 1) / 2)?;
    Some(u128::from(*lower) + u128::from(*upper))
}

/// Twice the median of intervals.
pub(crate) fn twice_median(intervals: Vec<u64>) -> Result<Option<u128>, AllocError>
    ensures { IfOk result (IsTwiceMedian intervals.items) }
{
    let mut sorted = intervals;
    sorted.sort()?;
    Ok(twice_middle(&sorted))
}
