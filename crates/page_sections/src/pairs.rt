// Pairs of animals that meet: of whom one has a fix in the range of the other.

use page_facts::count_of;
use page_report::Report;
use std::alloc::{AllocError, Global};

// A million, of which shares are compared.
const MILLION: u128 = 1_000_000;

/// Two animals that meet, by their places.
#[derive(Clone, Copy, PartialEq, Eq, PartialOrd, Ord, Debug)]
pub(crate) struct Meeting {
    /// How far the greater of both shares is from all, in millionths: pairs are sorted by this first.
    pub(crate) apart: u64,
    pub(crate) one: usize,
    pub(crate) other: usize,
}

// How many fixes of an animal lie in the range of another.
pub(crate) fn count(report: &Report, animal: usize, range: usize) -> u64 {
    match count_of(report, animal, range) {
        Some(count) => count as u64,
        None => 0,
    }
}

// The share of the fixes of an animal that lies in the range of another, in millionths, rounded down.
fn share(report: &Report, animal: usize, range: usize) -> u64 {
    let fixes = u128::from(count(report, animal, animal));
    if fixes == 0 {
        return 0;
    }
    let share = MILLION * u128::from(count(report, animal, range)) / fixes;
    share.min(MILLION) as u64
}

// A pair, if it meets.
fn pair_if(report: &Report, one: usize, other: usize) -> Option<Meeting> {
    if count(report, one, other) == 0 && count(report, other, one) == 0 {
        return None;
    }
    let greater = share(report, one, other).max(share(report, other, one));
    Some(Meeting {
        apart: (MILLION as u64).saturating_sub(greater),
        one,
        other,
    })
}

// Adds the pairs of an animal and those behind it.
fn add_meetings(found: &mut Vec<Meeting>, report: &Report, one: usize) -> Result<(), AllocError> {
    for other in one.saturating_add(1)..report.animals.len() {
        if let Some(own) = pair_if(report, one, other) {
            found.push(own)?;
        }
    }
    Ok(())
}

// All pairs that meet, those with the greatest shares first.
pub(crate) fn meetings_of(alloc: Global, report: &Report) -> Result<Vec<Meeting>, AllocError> {
    let mut found = Vec::new(alloc);
    for one in 0..report.animals.len() {
        add_meetings(&mut found, report, one)?;
    }
    found.sort()?;
    Ok(found)
}

// How many pairs so many animals have.
pub(crate) fn pairs_of(animals: usize) -> u64 {
    let animals = animals as u128;
    let pairs = animals * animals.saturating_sub(1) / 2;
    u64::try_from(pairs).unwrap_or(u64::MAX)
}
