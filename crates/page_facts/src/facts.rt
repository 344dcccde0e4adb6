// The facts of an animal.

ghost use Rattle.std.specs.Prelude.{◌≡◌, ◌==◌, IfOk, map};
ghost use Rattle.std.specs.List.{find};
ghost use Rattle.page_facts.specs.Facts.{IsTwiceMedian, at_level, facts_with, intervals_of, second_at, seconds_of, within_second};
ghost use Rattle.page_report.specs.Reading.{said};

use crate::growth::{Growth, growth_of};
use crate::intervals::{intervals_of, longest, twice_median};
use page_report::ReadAnimal;
use range_estimator::Row;
use range_stats::PercentRow;
use std::alloc::{AllocError, Global};

/// What the fixes of an animal come to. Times are seconds.
#[derive(Clone, Copy, PartialEq, Eq, Debug)]
pub struct Facts {
    pub fixes: usize,
    /// When the first fix was.
    pub first: Option<u64>,
    pub last: Option<u64>,
    /// Twice the median of the intervals; none of one fix.
    pub median2: Option<u128>,
    /// The longest interval.
    pub longest: Option<u64>,
    pub growth: Growth,
    /// The second of the fix from which on the area stayed at 95 per cent or more of the last one.
    pub within_second: Option<u64>,
}

// The second of the fix of a number from 1 on.
fn second_at(rows: &[Row], number: usize) -> Option<u64>
    ensures { result ≡ second_at (map (λ row. row.second) rows.now) number }
{
    if number == 0 {
        return None;
    }
    match rows.get(number - 1) {
        Some(row) => Some(row.second),
        None => None,
    }
}

// The second of the fix from which on the area stayed.
fn within_second(rows: &[Row], within: Option<usize>) -> Option<u64>
    ensures { result ≡ within_second (map (λ row. row.second) rows.now) within }
{
    match within {
        Some(number) => second_at(rows, number),
        None => None,
    }
}

// The facts of an animal of which the median is known.
fn facts_with(animal: &ReadAnimal, intervals: &[u64], median2: Option<u128>) -> Facts
    requires { intervals.now ≡ intervals_of (seconds_of (said animal.now)) }
    ensures { result ≡ facts_with (said animal.now) median2 }
{
    let rows = animal.rows.as_slice();
    let growth = growth_of(rows);
    Facts {
        fixes: rows.len(),
        first: second_at(rows, 1),
        last: second_at(rows, rows.len()),
        median2,
        longest: longest(intervals),
        growth,
        within_second: within_second(rows, growth.within),
    }
}

/// The facts of an animal.
///
/// # Errors
///
/// Memory ran out.
pub fn facts_of(alloc: Global, animal: &ReadAnimal) -> Result<Facts, AllocError>
    ensures facts { IfOk result (λ own. own ≡ facts_with (said animal.now) own.median2) }
    ensures median { IfOk result (λ own. IsTwiceMedian (intervals_of (seconds_of (said animal.now))) own.median2) }
{
    let intervals = intervals_of(alloc, &animal.rows)?;
    let median2 = twice_median(intervals.clone()?)?;
    Ok(facts_with(animal, &intervals, median2))
}

/// The second of the fix of an animal with a number, from 1 on.
pub fn second_of_fix(animal: &ReadAnimal, number: usize) -> Option<u64>
    ensures { result ≡ second_at (seconds_of (said animal.now)) number }
{
    second_at(&animal.rows, number)
}

/// The percent polygon of an animal at a level.
pub fn at_level(animal: &ReadAnimal, level: u8) -> Option<PercentRow>
    ensures { result ≡ at_level (said animal.now) level }
{
    animal
        .percents
        .iter()
        .find(|percent| percent.level == level)
        .copied()
}
