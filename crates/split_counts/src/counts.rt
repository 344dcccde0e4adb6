// How many records are left out, by animal and reason.

ghost use Rattle.std.specs.Prelude.{◌≡◌, IfOk};
ghost use Rattle.split_counts.specs.Counts.{IsCountOf, is_one_of, left_counts, reason_place, slot_of};

use range_plane::OutOfMemory;
use split_tracks::{Fate, Reason};
use std::alloc::Allocator;

/// How many reasons there are.
pub const REASONS: usize = 14;

/// All reasons, in their order.
pub const ALL_REASONS: [Reason; REASONS] = [
    Reason::Animal,
    Reason::Coordinates,
    Reason::Zero,
    Reason::Sensor,
    Reason::Outlier,
    Reason::Class,
    Reason::NoDop,
    Reason::Dop,
    Reason::Type,
    Reason::Before,
    Reason::After,
    Reason::Grid,
    Reason::Speed,
    Reason::Every,
];

/// The place of a reason among all, in the order in which a record's first is found: below [`REASONS`].
pub fn reason_place(reason: Reason) -> usize
    ensures { result ≡ reason_place reason }
{
    match reason {
        Reason::Animal => 0,
        Reason::Coordinates => 1,
        Reason::Zero => 2,
        Reason::Sensor => 3,
        Reason::Outlier => 4,
        Reason::Class => 5,
        Reason::NoDop => 6,
        Reason::Dop => 7,
        Reason::Type => 8,
        Reason::Before => 9,
        Reason::After => 10,
        Reason::Grid => 11,
        Reason::Speed => 12,
        Reason::Every => 13,
    }
}

// Whether records of this animal are counted: it is one of so many, or none.
fn is_one_of(animals: u32, animal: Option<u32>) -> bool
    ensures { result ≡ is_one_of animals animal }
{
    match animal {
        Some(animal) => animal < animals,
        None => true,
    }
}

// Where the count of an animal and a reason stands.
fn slot_of(animals: u32, animal: Option<u32>, reason: Reason) -> usize
    ensures { result ≡ slot_of animals animal reason }
{
    match animal {
        Some(animal) => animal as usize * REASONS + reason_place(reason),
        None => animals as usize * REASONS + reason_place(reason),
    }
}

/// How many records of each animal are left out for each reason, where there are so many animals: of those of animal `a`
/// for the reason at place `r` of [`Reason`] at `a * REASONS + r`; records that name no animal stand behind those of all
/// animals. A record of any other animal is in no count.
///
/// # Errors
///
/// Memory ran out.
pub fn left_counts<A: Allocator>(
    alloc: A,
    fates: &[Fate],
    animals: u32,
) -> Result<Vec<usize, A>, OutOfMemory>
    ensures counts { IfOk result (λ counts. counts.items ≡ left_counts animals fates.now) }
{
    let mut counts = vec![in alloc; 0usize; (animals as usize + 1) * REASONS]?;
    for fate in fates {
        match *fate {
            Fate::LeftOut { animal, reason } => {
                if is_one_of(animals, animal) {
                    counts[slot_of(animals, animal, reason)] += 1;
                }
            }
            Fate::InTrack { .. } => {}
        }
    }
    Ok(counts)
}

/// How many records of an animal, or of none, are left out for a reason, by the counts of so many animals. 0 for an
/// animal that is not one of them.
pub fn count_of(counts: &[usize], animals: u32, animal: Option<u32>, reason: Reason) -> usize
    ensures { IsCountOf animals counts.now animal reason result }
{
    if is_one_of(animals, animal) {
        match counts.get(slot_of(animals, animal, reason)) {
            Some(count) => *count,
            None => 0,
        }
    } else {
        0
    }
}
