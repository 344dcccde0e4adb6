// The fates of records, once a filter leaves some out.

ghost use Rattle.std.specs.Prelude.{◌≡◌, ◌∷◌, [], OnErr, OnOk};
ghost use Rattle.split_pace.specs.Leave.{fates_after, left_fate, without};

use crate::filter::{Filter, left_records, reason_of};
use range_plane::OutOfMemory;
use split_tracks::{Fate, Reason, tracks_of};
use std::alloc::Allocator;

// The fate of a record that a filter leaves out.
fn left_fate(reason: Reason, fate: Fate) -> Fate
    ensures { result ≡ left_fate reason fate }
{
    match fate {
        Fate::InTrack { animal, .. } => Fate::LeftOut {
            animal: Some(animal),
            reason,
        },
        Fate::LeftOut { .. } => fate,
    }
}

// Leaves out the record of this number, if there is one.
fn leave_one(fates: &mut [Fate], reason: Reason, number: u32)
    ensures { fates.new ≡ fates_after reason (number ∷ []) fates.old }
{
    let number = number as usize;
    if 0 < number && number <= fates.len() {
        fates[number - 1] = left_fate(reason, fates[number - 1]);
    }
}

// Leaves out the records of these numbers.
fn leave_all(fates: &mut [Fate], reason: Reason, numbers: &[u32])
    ensures { fates.new ≡ fates_after reason numbers.now fates.old }
{
    for number in numbers {
        leave_one(fates, reason, *number);
    }
}

/// Leaves out the records that a filter does not keep in the tracks of so many animals. All other fates stay, and after an
/// error all do.
///
/// # Errors
///
/// Memory ran out.
pub fn leave_out<A: Allocator + Copy>(
    alloc: A,
    fates: &mut [Fate],
    animals: u32,
    filter: Filter<'_>,
) -> Result<(), OutOfMemory>
    ensures done { OnOk result (fates.new ≡ without filter.entry animals fates.old) }
    ensures stays { OnErr result (fates.new ≡ fates.old) }
{
    let tracks = tracks_of(alloc, fates, animals)?;
    let left = left_records(alloc, &tracks, filter)?;
    leave_all(fates, reason_of(filter), &left);
    Ok(())
}
