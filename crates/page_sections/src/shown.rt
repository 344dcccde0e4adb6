// What a page shows.

ghost use Rattle.std.specs.Prelude.{◌<◌, ◌^◌};

use crate::reasons::Cause;
use page_basis::Basis;
use page_report::Report;
use page_tables::Told;
use range_stats::PercentRow;
use split_clock::Clock;
use std::alloc::{AllocError, Global};

/// What the fixes were in.
#[derive(Clone, Copy, PartialEq, Eq, Debug)]
pub enum Source {
    Export,
    /// A table in memory, such as a data frame.
    Data,
}

/// What a page shows of a report.
#[derive(Clone, Copy)]
pub struct Shown<'a> {
    pub report: &'a Report,
    /// What is told of each animal, in the order of the report.
    pub told: &'a [Told],
    /// What the area of each rests on, in the same order.
    pub basis: &'a [Basis],
    /// Why fixes were left out, in the order of the counts of what is told.
    pub causes: &'a [Cause],
    pub source: Source,
    /// Whether seconds are dates, those of UTC since 1970.
    pub dated: bool,
    pub clock: &'a Clock,
    /// The name of the zone of that clock.
    pub zone: &'a [u8],
}

// The most that the double of an area of a report is, and more.
const MOST_AREA: u128 = (1 << 100) - 1;

// A doubled area of a report, of which none is greater than what can be written.
pub(crate) fn area(area2: u128) -> u128
    ensures { result < 2 ^ 100 }
{
    area2.min(MOST_AREA)
}

// The words for what the fixes were in.
pub(crate) fn source_words(source: Source) -> &'static [u8] {
    match source {
        Source::Export => b"export",
        Source::Data => b"data",
    }
}

// The levels of a report, which are those of its first animal.
pub(crate) fn levels_of(report: &Report) -> &[PercentRow] {
    match report.animals.first() {
        Some(animal) => &animal.percents,
        None => &[],
    }
}

/// The levels of a report, from the highest on.
///
/// # Errors
///
/// Memory ran out.
pub fn falling_levels(alloc: Global, report: &Report) -> Result<Vec<u8>, AllocError> {
    let mut levels = Vec::new(alloc);
    for own in levels_of(report) {
        levels.push(own.level)?;
    }
    levels.sort()?;
    levels.reverse();
    Ok(levels)
}
