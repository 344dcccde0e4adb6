// What is said of tracks.

ghost use Rattle.std.specs.Prelude.{IfErr};
ghost use Rattle.split_refusal.specs.Refused.{IsOfNoFix};

use crate::apart::ask_apart;
use crate::copies::ask_copies;
use crate::extent::tell_columns;
use crate::far::ask_far_fixes;
use crate::figures::push_two_digits;
use crate::grid::Grid;
use crate::metres::check_metres;
use crate::not_read::tell_not_read;
use crate::order::animals_in_order;
use crate::said::Said;
use crate::scale::check_scale;
use crate::sheet::Sheet;
use crate::stop::{Stop, nothing_left, refusal_of};
use crate::times::tell_times;
use crate::words::{push, push_number, push_quoted};
use crate::years::ask_years;
use indexmap::IndexSet;
use range_plane::{FIX_LIMIT, OutOfMemory, Scale};
use split_refusal::Refusal;
use split_tracks::{Entry, Fate, Reason};
use std::alloc::{AllocError, Global};

// How many metres a fix may be moved until that is said.
const TOLD_MOVE: f64 = 0.000001;

// The tracks of animals, the names of their files, and the animals that have tracks, in the order of first records.
#[derive(Clone, Copy)]
pub(crate) struct Herd<'a> {
    pub tracks: &'a [Vec<Entry>],
    pub names: &'a [Vec<u8>],
    pub order: &'a [u32],
}

impl<'a> Herd<'a> {
    // The track of an animal.
    pub(crate) fn track(&self, animal: u32) -> &'a [Entry] {
        match self.tracks.get(animal as usize) {
            Some(track) => track.as_slice(),
            None => &[],
        }
    }

    // The name of its file.
    pub(crate) fn name(&self, animal: u32) -> &'a [u8] {
        match self.names.get(animal as usize) {
            Some(name) => name.as_slice(),
            None => b"",
        }
    }
}

// Whether a record is left out since it is off the grid.
fn is_off_grid(fate: &Fate) -> bool {
    match *fate {
        Fate::LeftOut { reason, .. } => reason == Reason::Grid,
        Fate::InTrack { .. } => false,
    }
}

// Says how many fixes that are not used are off the grid.
fn tell_off_grid(alloc: Global, said: &mut Said, fates: &[Fate]) -> Result<(), OutOfMemory> {
    let count = fates.iter().filter(|fate| is_off_grid(fate)).count();
    said.say_counted(alloc, count, b"outliers off the grid: left out")
}

// Says how far rounding moves fixes.
fn tell_moved(alloc: Global, said: &mut Said, unit: Scale, moved: f64) -> Result<(), OutOfMemory> {
    if !(moved > TOLD_MOVE) {
        return Ok(());
    }
    let mut text = Vec::new(alloc);
    push(&mut text, "coordinates are rounded to whole ")?;
    push(
        &mut text,
        match unit {
            Scale::Metre => "metres",
            Scale::Decimetre => "decimetres",
        },
    )?;
    push(&mut text, ", which moves a fix by at most ")?;
    push_two_digits(alloc, &mut text, moved)?;
    push(&mut text, " m")?;
    said.say(alloc, &text)
}

// The names of animals without a track, in their order.
fn names_without_track<'a>(
    alloc: Global,
    animals: &'a IndexSet<Vec<u8>>,
    tracks: &[Vec<Entry>],
) -> Result<Vec<&'a [u8]>, OutOfMemory> {
    let mut names: Vec<&[u8]> = Vec::new(alloc);
    for (name, track) in animals.iter().zip(tracks) {
        if track.is_empty() {
            names.push(name.as_slice())?;
        }
    }
    names.sort()?;
    Ok(names)
}

// Says which animals have no file.
fn tell_no_file(
    alloc: Global,
    said: &mut Said,
    animals: &IndexSet<Vec<u8>>,
    tracks: &[Vec<Entry>],
) -> Result<(), OutOfMemory> {
    for name in names_without_track(alloc, animals, tracks)?.iter() {
        let mut text = Vec::new(alloc);
        push(&mut text, "no fix of ")?;
        push_quoted(&mut text, name)?;
        push(&mut text, " is left: no file")?;
        said.say(alloc, &text)?;
    }
    Ok(())
}

// Whether a fix of a track is used.
fn has_used(track: &[Entry]) -> bool {
    track.iter().any(|entry| entry.is_used)
}

// That an animal has so many records, and too many.
fn many_text(alloc: Global, name: &[u8], count: usize) -> Result<Vec<u8>, AllocError> {
    let mut text = Vec::new(alloc);
    text.extend_from_slice(name)?;
    push(&mut text, " has ")?;
    push_number(&mut text, count)?;
    push(&mut text, " records, more than the ")?;
    push_number(&mut text, FIX_LIMIT as usize)?;
    push(&mut text, " that homerange takes")?;
    Ok(text)
}

// That no fix of an animal is used.
fn unused_text(alloc: Global, name: &[u8]) -> Result<Vec<u8>, AllocError> {
    let mut text = Vec::new(alloc);
    push(&mut text, "no fix of ")?;
    text.extend_from_slice(name)?;
    push(&mut text, " is used, which homerange refuses")?;
    Ok(text)
}

// Says which tracks the program refuses.
fn tell_unfit(alloc: Global, said: &mut Said, herd: &Herd<'_>) -> Result<(), OutOfMemory> {
    for animal in herd.order {
        let track = herd.track(*animal);
        let name = herd.name(*animal);
        if track.len() > FIX_LIMIT as usize {
            said.say(alloc, &many_text(alloc, name, track.len())?)?;
        }
        if !has_used(track) {
            said.say(alloc, &unused_text(alloc, name)?)?;
        }
    }
    Ok(())
}

// Says which animals have other names in files.
fn tell_names(
    alloc: Global,
    said: &mut Said,
    animals: &IndexSet<Vec<u8>>,
    herd: &Herd<'_>,
) -> Result<(), OutOfMemory> {
    for animal in herd.order {
        let own = herd.name(*animal);
        if let Some(name) = animals.get_index(*animal as usize) {
            if name.as_slice() != own {
                let mut text = Vec::new(alloc);
                push(&mut text, "animal ")?;
                push_quoted(&mut text, name)?;
                push(&mut text, " is named ")?;
                text.extend_from_slice(own)?;
                said.say(alloc, &text)?;
            }
        }
    }
    Ok(())
}

// Says what there is to say of tracks before filters look at them.
fn tell_first(
    alloc: Global,
    said: &mut Said,
    sheet: &Sheet<'_>,
    grid: &Grid,
    fates: &[Fate],
    herd: &Herd<'_>,
    moved: f64,
) -> Result<(), Stop> {
    tell_off_grid(alloc, said, fates)?;
    tell_moved(alloc, said, sheet.unit, moved)?;
    if grid.zone.is_some() {
        check_scale(alloc, said, herd, sheet.unit)?;
    }
    tell_times(alloc, said, herd, fates)?;
    Ok(())
}

/// Says what there is to say of the tracks of a table before filters look at them: fixes off the grid, how far rounding moves
/// fixes, areas that are wrong, and the order of time. `fates` are those of the records of the ledger, and `tracks` those of its
/// animals, each in the order of time. `names` are those of the animals' files. `moved` is the greatest number of metres by which
/// rounding moves a fix.
///
/// # Errors
///
/// Areas of an animal are wrong by more than 1 %, or memory ran out.
pub fn tell_tracks(
    alloc: Global,
    said: &mut Said,
    sheet: &Sheet<'_>,
    grid: &Grid,
    fates: &[Fate],
    tracks: &[Vec<Entry>],
    names: &[Vec<u8>],
    moved: f64,
) -> Result<(), Refusal>
    ensures { IfErr result IsOfNoFix }
{
    let Ok(order) = animals_in_order(alloc, fates, tracks.len()) else {
        return Err(Refusal::out_of_memory(alloc));
    };
    let herd = Herd {
        tracks,
        names,
        order: &order,
    };
    match tell_first(alloc, said, sheet, grid, fates, &herd, moved) {
        Ok(()) => Ok(()),
        Err(stop) => Err(refusal_of(alloc, stop)),
    }
}

// Says what there is to say of the tracks that are written.
fn tell_last(
    alloc: Global,
    said: &mut Said,
    sheet: &Sheet<'_>,
    grid: &Grid,
    animals: &IndexSet<Vec<u8>>,
    herd: &Herd<'_>,
) -> Result<(), Stop> {
    tell_no_file(alloc, said, animals, herd.tracks)?;
    if herd.tracks.iter().all(|track| !has_used(track)) {
        return Err(nothing_left(alloc));
    }
    tell_unfit(alloc, said, herd)?;
    ask_far_fixes(alloc, said, herd, sheet)?;
    ask_apart(alloc, said, herd, sheet.unit)?;
    ask_years(alloc, said, herd, sheet)?;
    ask_copies(alloc, said, herd)?;
    if !grid.is_projected {
        check_metres(alloc, said, herd, sheet.unit)?;
    }
    tell_columns(alloc, said, sheet, grid.zone, herd)?;
    tell_not_read(alloc, said, sheet)?;
    tell_names(alloc, said, animals, herd)?;
    Ok(())
}

/// Says what there is to say of the tracks of a table that are written: animals without a file, tracks that the program refuses,
/// fixes that lie far from the others of their animal, or years before them, animals of the same fixes, coordinates that can hardly be metres, the columns that were taken and
/// those that were not, and names that are others in files. `animals` are the names in the table; the other parameters are those
/// of [`tell_tracks`].
///
/// # Errors
///
/// No fix is used, coordinates are too great for metres, or memory ran out.
pub fn tell_files(
    alloc: Global,
    said: &mut Said,
    sheet: &Sheet<'_>,
    grid: &Grid,
    animals: &IndexSet<Vec<u8>>,
    fates: &[Fate],
    tracks: &[Vec<Entry>],
    names: &[Vec<u8>],
) -> Result<(), Refusal>
    ensures { IfErr result IsOfNoFix }
{
    let Ok(order) = animals_in_order(alloc, fates, tracks.len()) else {
        return Err(Refusal::out_of_memory(alloc));
    };
    let herd = Herd {
        tracks,
        names,
        order: &order,
    };
    match tell_last(alloc, said, sheet, grid, animals, &herd) {
        Ok(()) => Ok(()),
        Err(stop) => Err(refusal_of(alloc, stop)),
    }
}
