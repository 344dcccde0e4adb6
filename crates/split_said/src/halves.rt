// Filters that leave out more than half of an animal's fixes.

ghost use Rattle.std.specs.Prelude.{IfErr};
ghost use Rattle.split_refusal.specs.Refused.{IsOfNoFix};

use crate::stop::{Stop, refusal_of, refused};
use crate::words::{push, push_number};
use range_plane::OutOfMemory;
use split_counts::count_of;
use split_reading::{Row, Told};
use split_refusal::{Kind, Refusal};
use split_tracks::Reason;
use std::alloc::{AllocError, Global};

// A filter that may not leave out more than half of an animal's fixes: its option, and why it leaves fixes out.
#[derive(Clone, Copy)]
struct Halving {
    option: &'static str,
    reason: Reason,
    other: Option<Reason>,
}

const FILTERS: [Halving; 3] = [
    Halving {
        option: "--max-dop",
        reason: Reason::Dop,
        other: Some(Reason::NoDop),
    },
    Halving {
        option: "--fix-type",
        reason: Reason::Type,
        other: None,
    },
    Halving {
        option: "--max-speed",
        reason: Reason::Speed,
        other: None,
    },
];

// The animal of a record that has a fix.
fn animal_of(row: &Row) -> Option<usize> {
    let Told::Fix(_) = row.told else {
        return None;
    };
    usize::try_from(row.animal?).ok()
}

/// How many fixes each animal has, of so many animals.
///
/// # Errors
///
/// Memory ran out.
pub fn fix_counts(alloc: Global, rows: &[Row], animals: usize) -> Result<Vec<usize>, OutOfMemory> {
    let mut counts = vec![in alloc; 0usize; animals]?;
    for row in rows {
        if let Some(animal) = animal_of(row) {
            if let Some(count) = counts.get_mut(animal) {
                *count = count.saturating_add(1);
            }
        }
    }
    Ok(counts)
}

// That an option leaves out so many of an animal's fixes.
fn half_text(
    alloc: Global,
    option: &str,
    name: &[u8],
    left: usize,
    fixes: usize,
) -> Result<Vec<u8>, AllocError> {
    let mut text = Vec::new(alloc);
    push(&mut text, option)?;
    push(&mut text, " leaves out ")?;
    push_number(&mut text, left)?;
    push(&mut text, " of ")?;
    push_number(&mut text, fixes)?;
    push(&mut text, " fixes of ")?;
    text.extend_from_slice(name)?;
    push(
        &mut text,
        ", more than half: name another value, or remove the fixes that are wrong",
    )?;
    Ok(text)
}

// How many records of an animal are left out for a reason.
fn left_for(counts: &[usize], animals: usize, animal: usize, reason: Reason) -> usize {
    match (u32::try_from(animals), u32::try_from(animal)) {
        (Ok(animals), Ok(animal)) => count_of(counts, animals, Some(animal), reason),
        _ => 0,
    }
}

// How many records of an animal a filter leaves out.
fn left_by(counts: &[usize], animals: usize, animal: usize, filter: Halving) -> usize {
    let left = left_for(counts, animals, animal, filter.reason);
    match filter.other {
        Some(other) => left.saturating_add(left_for(counts, animals, animal, other)),
        None => left,
    }
}

// Refuses a filter that leaves out more than half of the fixes of an animal.
fn check_animal(
    alloc: Global,
    names: &[Vec<u8>],
    counts: &[usize],
    animal: usize,
    fixes: usize,
) -> Result<(), Stop> {
    for filter in FILTERS {
        let left = left_by(counts, names.len(), animal, filter);
        if left.saturating_mul(2) > fixes {
            let name = names.get(animal).map_or(b"".as_slice(), Vec::as_slice);
            let text = half_text(alloc, filter.option, name, left, fixes);
            return Err(refused(alloc, Kind::Option, None, text));
        }
    }
    Ok(())
}

// The same of each animal.
fn check(alloc: Global, names: &[Vec<u8>], fixes: &[usize], counts: &[usize]) -> Result<(), Stop> {
    for (animal, count) in fixes.iter().enumerate() {
        check_animal(alloc, names, counts, animal, *count)?;
    }
    Ok(())
}

/// Refuses a filter by dilution of precision, type or speed that leaves out more than half of the fixes of an animal: it is more
/// likely that the value is wrong, or one fix, than that so many are. `fixes` are those of [`fix_counts`], and `counts` those of
/// records that are left out.
///
/// # Errors
///
/// There is such a filter, or memory ran out.
pub fn check_halves(
    alloc: Global,
    names: &[Vec<u8>],
    fixes: &[usize],
    counts: &[usize],
) -> Result<(), Refusal>
    ensures { IfErr result IsOfNoFix }
{
    match check(alloc, names, fixes, counts) {
        Ok(()) => Ok(()),
        Err(stop) => Err(refusal_of(alloc, stop)),
    }
}
