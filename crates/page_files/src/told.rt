// What is told of each animal, and of all.

use crate::known::{Known, Tally};
use page_facts::facts_of;
use page_report::{ReadAnimal, Report};
use page_sections::{Cause, Totals, Unused};
use page_tables::Told;
use split_counts::ALL_REASONS;
use std::alloc::{AllocError, Global};

// Why fixes may have been left out, in the order in which it is told.
fn all_causes(alloc: Global) -> Result<Vec<Cause>, AllocError> {
    let mut causes = Vec::new(alloc);
    for reason in ALL_REASONS {
        causes.push(Cause::Made(reason))?;
    }
    causes.push(Cause::Use)?;
    Ok(causes)
}

// Whether fixes of an animal of a report were left out for a cause.
fn occurs(report: &Report, known: &Known, cause: Cause) -> bool {
    report
        .animals
        .iter()
        .enumerate()
        .any(|(place, animal)| known.left_of(place, animal, cause) > 0)
}

// Why fixes of animals of a report were left out.
pub(crate) fn causes_of(
    alloc: Global,
    report: &Report,
    known: &Known,
) -> Result<Vec<Cause>, AllocError> {
    let mut causes = Vec::new(alloc);
    for cause in all_causes(alloc)? {
        if occurs(report, known, cause) {
            causes.push(cause)?;
        }
    }
    Ok(causes)
}

// How many fixes of an animal were left out for each of some causes.
fn lefts_of(
    alloc: Global,
    known: &Known,
    place: usize,
    animal: &ReadAnimal,
    causes: &[Cause],
) -> Result<Vec<u64>, AllocError> {
    let mut left = Vec::new(alloc);
    for cause in causes {
        left.push(known.left_of(place, animal, *cause))?;
    }
    Ok(left)
}

// What is told of the animal at a place.
fn told_of(
    alloc: Global,
    known: &Known,
    place: usize,
    animal: &ReadAnimal,
    causes: &[Cause],
) -> Result<Told, AllocError> {
    Ok(Told {
        facts: facts_of(alloc, animal)?,
        records: known.records_of(place, animal),
        left: lefts_of(alloc, known, place, animal, causes)?,
    })
}

// What is told of each animal of a report.
pub(crate) fn told_of_all(
    alloc: Global,
    report: &Report,
    known: &Known,
    causes: &[Cause],
) -> Result<Vec<Told>, AllocError> {
    let mut told = Vec::new(alloc);
    for (place, animal) in report.animals.iter().enumerate() {
        told.push(told_of(alloc, known, place, animal, causes)?)?;
    }
    Ok(told)
}

// How many fixes of all animals were left out for each cause.
pub(crate) fn lefts_of_all(
    alloc: Global,
    report: &Report,
    known: &Known,
) -> Result<Vec<(Cause, u64)>, AllocError> {
    let mut left = Vec::new(alloc);
    for cause in all_causes(alloc)? {
        left.push((cause, known.left_of_all(report, cause)))?;
    }
    Ok(left)
}

// How many fixes there were, and how many of them were left out, if it is known.
pub(crate) fn totals_of<'a>(known: &'a Known<'a>, left: &'a [(Cause, u64)]) -> Option<Totals<'a>> {
    match known.records_of_all() {
        Some(records) => Some(Totals { records, left }),
        None => None,
    }
}

// Whether a name is that of an animal that a report does not have.
fn is_unused(report: &Report, name: &[u8]) -> bool {
    !name.is_empty()
        && !report
            .animals
            .iter()
            .any(|animal| animal.name.as_slice() == name)
}

// The animals of a record that a report does not have, in the order of their names.
fn unused_in<'a>(
    alloc: Global,
    report: &Report,
    tally: &'a Tally,
) -> Result<Vec<Unused<'a>>, AllocError> {
    let mut unused = Vec::new(alloc);
    for (name, counts) in tally.iter() {
        if is_unused(report, name) {
            let records = u64::try_from(counts.records).unwrap_or(u64::MAX);
            unused.push(Unused { name, records })?;
        }
    }
    unused.sort_by_key(|own| own.name)?;
    Ok(unused)
}

// The animals that a report does not have, as far as they are known.
pub(crate) fn unused_of<'a>(
    alloc: Global,
    report: &Report,
    known: &'a Known<'a>,
) -> Result<Vec<Unused<'a>>, AllocError> {
    match known {
        Known::ByRecord(_record, tally) => unused_in(alloc, report, tally),
        _ => Ok(Vec::new(alloc)),
    }
}
