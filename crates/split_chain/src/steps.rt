// The steps from what records say to tracks, or their refusals.

ghost use Rattle.std.specs.Prelude.{◌≡◌, ◌<◌, ◌^◌, ◌⊎◌, IfErr, IfOk, Ok, OnOk, Some, length, map};
ghost use Rattle.split_chain.specs.Chain.{filtered_by, records_with, text_in, tracks_with};
ghost use Rattle.split_chain.specs.Refused.{IsOffGridBy};
ghost use Rattle.split_counts.specs.Counts.{left_counts};
ghost use Rattle.split_export.specs.Export.{bytes_of};
ghost use Rattle.split_export.specs.Files.{entries_of_all};
ghost use Rattle.split_fates.specs.Fates.{fates_of};
ghost use Rattle.split_names.specs.Names.{file_names};
ghost use Rattle.split_reading.specs.Words.{texts};
ghost use Rattle.split_refusal.specs.Refused.{IsOfNoFix, Names};

use crate::read::shown;
use indexmap::IndexSet;
use range_plane::Scale;
use split_counts::left_counts;
use split_fates::{Choice, FatesFault, fates_of};
use split_names::{NamesFault, file_names};
use split_pace::{Filter, leave_out};
use split_reading::{Row, Told};
use split_record::fates_text;
use split_refusal::{Refusal, refused_names, refused_no_place, refused_off_grid};
use split_said::fix_counts;
use split_tracks::{Entry, Fate, tracks_of};
use std::alloc::Global;

// The refusal of a fix that is used and off the grid.
fn off_grid(alloc: Global, rows: &[Row], record: u32, unit: Scale) -> Refusal
    ensures { Names (Some «record») result }
{
    let row = rows.get((record as usize).saturating_sub(1));
    if let Some(
        Row {
            told: Told::Fix(fix),
            ..
        },
    ) = row
    {
        return match fix.metres {
            Some((easting, northing)) => refused_off_grid(alloc, record, easting, northing, unit),
            None => refused_no_place(alloc, record),
        };
    }
    Refusal::out_of_memory(alloc)
}

/// What becomes of each record.
///
/// # Errors
///
/// Why the table is refused.
pub(crate) fn fates_by(alloc: Global, choice: &Choice, rows: &[Row]) -> Result<Vec<Fate>, Refusal>
    ensures fates { IfOk result (λ fates. fates_of choice.now rows.now ≡ Ok fates.items) }
    ensures refused { IfErr result (λ refusal. IsOffGridBy choice.now rows.now refusal ⊎ IsOfNoFix refusal) }
{
    match fates_of(alloc, choice, rows) {
        Ok(fates) => Ok(fates),
        Err(FatesFault::OffGrid { record }) => Err(off_grid(alloc, rows, record, choice.unit)),
        Err(_) => Err(Refusal::out_of_memory(alloc)),
    }
}

// The refusal of names.
fn names_refusal(alloc: Global, names: &[Vec<u8>], fault: NamesFault) -> Refusal
    ensures { IsOfNoFix result }
{
    match shown(alloc, names) {
        Ok(names) => refused_names(alloc, fault, &names),
        Err(_) => Refusal::out_of_memory(alloc),
    }
}

/// The names of the files of the animals.
///
/// # Errors
///
/// Why the table is refused.
pub(crate) fn names_by(alloc: Global, animals: &IndexSet<Vec<u8>>) -> Result<Vec<Vec<u8>>, Refusal>
    ensures names { IfOk result (λ own. file_names (texts animals.now) ≡ Ok (bytes_of own.items)) }
    ensures refused { IfErr result IsOfNoFix }
{
    let names = animals.as_slice();
    match file_names(alloc, names) {
        Ok(own) => Ok(own),
        Err(fault) => Err(names_refusal(alloc, names, fault)),
    }
}

/// How many fixes rows have of each animal, of as many animals as there are names.
///
/// # Errors
///
/// Memory ran out.
pub(crate) fn fixes_by(
    alloc: Global,
    rows: &[Row],
    names: &[Vec<u8>],
) -> Result<Vec<usize>, Refusal>
    ensures { IfErr result IsOfNoFix }
{
    match fix_counts(alloc, rows, names.len()) {
        Ok(counts) => Ok(counts),
        Err(_) => Err(Refusal::out_of_memory(alloc)),
    }
}

/// The tracks of so many animals as there are names.
///
/// # Errors
///
/// Memory ran out.
pub(crate) fn tracks_by(
    alloc: Global,
    fates: &[Fate],
    names: &[Vec<u8>],
) -> Result<Vec<Vec<Entry>>, Refusal>
    ensures tracks { IfOk result (λ tracks. entries_of_all tracks.items ≡ tracks_with (bytes_of names.now) fates.now) }
    ensures count { IfOk result (λ tracks. length names.now ≡ length tracks.items) }
    ensures few { IfOk result (λ tracks. length (bytes_of names.now) < 2 ^ 32) }
    ensures refused { IfErr result IsOfNoFix }
{
    let Ok(animals) = u32::try_from(names.len()) else {
        return Err(Refusal::out_of_memory(alloc));
    };
    match tracks_of(alloc, fates, animals) {
        Ok(tracks) => Ok(tracks),
        Err(_) => Err(Refusal::out_of_memory(alloc)),
    }
}

/// What became of each record, as text, if that is wished.
///
/// # Errors
///
/// Memory ran out.
pub(crate) fn records_by(
    alloc: Global,
    is_wished: bool,
    names: &[Vec<u8>],
    fates: &[Fate],
) -> Result<Option<Vec<u8>>, Refusal>
    ensures records { IfOk result (λ records. text_in records ≡ records_with is_wished (bytes_of names.now) fates.now) }
    ensures refused { IfErr result IsOfNoFix }
{
    if !is_wished {
        return Ok(None);
    }
    match fates_text(alloc, names, fates) {
        Ok(text) => Ok(Some(text)),
        Err(_) => Err(Refusal::out_of_memory(alloc)),
    }
}

/// Leaves out the records that a filter leaves out of the tracks of as many animals as there are names, if there is a filter.
///
/// # Errors
///
/// Memory ran out.
pub(crate) fn leave_out_by(
    alloc: Global,
    fates: &mut Vec<Fate>,
    names: &[Vec<u8>],
    filter: Option<Filter<'_>>,
) -> Result<(), Refusal>
    ensures done { OnOk result (fates.new.items ≡ filtered_by filter.entry (length (bytes_of names.now)) fates.old.items) }
    ensures refused { IfErr result IsOfNoFix }
{
    let Some(filter) = filter else {
        return Ok(());
    };
    let Ok(animals) = u32::try_from(names.len()) else {
        return Err(Refusal::out_of_memory(alloc));
    };
    match leave_out(alloc, fates, animals, filter) {
        Ok(()) => Ok(()),
        Err(_) => Err(Refusal::out_of_memory(alloc)),
    }
}

/// How many records are left out, by animal and reason, of as many animals as there are names.
///
/// # Errors
///
/// Memory ran out.
pub(crate) fn counts_by(
    alloc: Global,
    fates: &[Fate],
    names: &[Vec<u8>],
) -> Result<Vec<usize>, Refusal>
    ensures counts { IfOk result (λ counts. counts.items ≡ left_counts (length (bytes_of names.now)) fates.now) }
    ensures refused { IfErr result IsOfNoFix }
{
    let Ok(animals) = u32::try_from(names.len()) else {
        return Err(Refusal::out_of_memory(alloc));
    };
    match left_counts(alloc, fates, animals) {
        Ok(counts) => Ok(counts),
        Err(_) => Err(Refusal::out_of_memory(alloc)),
    }
}
