// What a split leaves out, as its record says it.

ghost use Rattle.std.specs.Prelude.{◌≡◌, ◌++◌, IfOk, List, OnOk, length, map, true};
ghost use Rattle.split_counts.specs.Counts.{is_one_of, left_counts};
ghost use Rattle.split_tracks.specs.declared.fate.Fate.{Fate};
ghost use Rattle.split_output.specs.Left.{left_of, left_out};
ghost use Rattle.split_output.specs.Record.{SayLeft};

use crate::ranked::by_name;
use range_plane::OutOfMemory;
use split_chain::Split;
use split_counts::{ALL_REASONS, count_of};
use split_record::Left;
use std::alloc::Global;

// Appends what is left out of an animal, or of none, by the counts of so many animals.
fn push_left_of<'a>(
    left: &mut Vec<Left<'a>>,
    counts: &[usize],
    animals: u32,
    name: &'a [u8],
    animal: Option<u32>,
) -> Result<(), OutOfMemory>
    requires { is_one_of animals animal ≡ true }
    ensures { OnOk result ((fates : List Fate) → counts.now ≡ left_counts animals fates
        → map left_out left.new.items ≡ map left_out left.old.items ++ left_of fates name.now animal) }
{
    for reason in ALL_REASONS {
        let count = count_of(counts, animals, animal, reason);
        if count > 0 {
            left.push(Left {
                name,
                count,
                reason,
            })?;
        }
    }
    Ok(())
}

/// What is left out: first of records that name no animal, and then by the names of files.
///
/// # Errors
///
/// Memory ran out.
pub(crate) fn all_left<'a>(alloc: Global, split: &'a Split) -> Result<Vec<Left<'a>>, OutOfMemory>
    ensures { IfOk result (λ left. (fates : List Fate)
        → split.now.counts.items ≡ left_counts (length split.now.files.items) fates
        → SayLeft split.now fates (map left_out left.items)) }
{
    let Ok(animals) = u32::try_from(split.files.len()) else {
        return Err(OutOfMemory);
    };
    let ranked = by_name(alloc, split, animals)?;
    let mut left = Vec::new(alloc);
    push_left_of(&mut left, &split.counts, animals, b"", None)?;
    for (name, animal) in ranked.iter() {
        push_left_of(&mut left, &split.counts, animals, name, Some(*animal))?;
    }
    Ok(left)
}
