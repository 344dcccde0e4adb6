// What becomes of each record.

ghost use Rattle.std.specs.Prelude.{◌≡◌, ◌++◌, ◌∷◌, [], IfErr, IfOk, OnOk};
ghost use Rattle.split_fates.specs.Fates.{IsFatesFault, fate_of, fates_of, fix_fate, is_of_zone, is_on_grid, metres_fate, placed_fate, reason_of, row_reason};

use crate::choice::Choice;
use range_plane::{OutOfMemory, Scale};
use split_reading::{Row, Told, ToldFix, Zone};
use split_tracks::{Entry, Fate, Reason};
use std::alloc::Allocator;

/// Why fixes have no place in tracks.
#[derive(Clone, Copy, PartialEq, Eq, Debug)]
pub enum FatesFault {
    OutOfMemory,
    /// There are 2^32 records or more.
    TooManyRecords,
    /// The fix of this record is used, and off the grid. It is the first such one.
    OffGrid { record: u32 },
}

impl From<OutOfMemory> for FatesFault {
    ghost use Rattle.split_fates.specs.declared.fates.FatesFault.TheVariants as faults;

    ghost from_gives = { λ _ fault. fault ≡ faults.OutOfMemory };

    fn from(_refused: OutOfMemory) -> FatesFault {
        FatesFault::OutOfMemory
    }
}

// Whether a fix is of the zone that is taken, if one is. One that is of no zone is.
fn is_of_zone(zone: Option<Zone>, own: Option<Zone>) -> bool
    ensures { result ≡ is_of_zone zone own }
{
    match (zone, own) {
        (Some(zone), Some(own)) => zone.number == own.number && zone.is_south == own.is_south,
        _ => true,
    }
}

// Whether a coordinate is on the grid once it is shifted.
pub(crate) fn is_on_grid(coordinate: i64, shift: i64, unit: Scale) -> bool
    ensures { result ≡ is_on_grid unit shift coordinate }
{
    match coordinate.checked_add(shift) {
        Some(shifted) => 0 <= shifted && shifted <= unit.limit(),
        None => false,
    }
}

// What becomes of a fix that has metres.
fn placed_fate(
    choice: &Choice,
    animal: u32,
    entry: Entry,
    zone: Option<Zone>,
) -> Result<Fate, FatesFault>
    ensures { result ≡ placed_fate choice.now animal entry zone }
{
    let is_placed = is_of_zone(choice.zone, zone)
        && is_on_grid(entry.easting, choice.shift.0, choice.unit)
        && is_on_grid(entry.northing, choice.shift.1, choice.unit);
    if is_placed {
        Ok(Fate::InTrack { animal, entry })
    } else if entry.is_used {
        Err(FatesFault::OffGrid {
            record: entry.record,
        })
    } else {
        Ok(Fate::LeftOut {
            animal: Some(animal),
            reason: Reason::Grid,
        })
    }
}

// Why the fix of a record is left out, if it is: it is of another sensor, it is not used, or filters leave it out.
pub(crate) fn reason_of(keeps_marks: bool, fix: ToldFix) -> Option<Reason>
    ensures { result ≡ reason_of keeps_marks fix }
{
    if !fix.is_of_sensor {
        Some(Reason::Sensor)
    } else if !fix.is_used && !keeps_marks {
        Some(Reason::Outlier)
    } else {
        fix.left_for
    }
}

/// Why a record is left out, if it is, before it is known on which grid fixes are: without coordinates or an animal, or its fix
/// is of another sensor, is not used, where such ones are not kept, or is left out by a filter.
pub fn row_reason(row: &Row, keeps_marks: bool) -> Option<Reason>
    ensures { result ≡ row_reason keeps_marks row.now }
{
    match row.told {
        Told::LeftOut(reason) => Some(reason),
        Told::Fix(fix) => reason_of(keeps_marks, fix),
    }
}

// What becomes of a fix that is not left out, by its metres.
fn metres_fate(choice: &Choice, animal: u32, number: u32, fix: ToldFix) -> Result<Fate, FatesFault>
    ensures { result ≡ metres_fate choice.now animal number fix fix.metres }
{
    match fix.metres {
        Some((easting, northing)) => {
            let entry = Entry {
                record: number,
                moment: fix.moment,
                easting,
                northing,
                is_used: fix.is_used,
            };
            placed_fate(choice, animal, entry, fix.zone)
        }
        None if fix.is_used => Err(FatesFault::OffGrid { record: number }),
        None => Ok(Fate::LeftOut {
            animal: Some(animal),
            reason: Reason::Grid,
        }),
    }
}

// What becomes of the fix of a record.
fn fix_fate(choice: &Choice, animal: u32, number: u32, fix: ToldFix) -> Result<Fate, FatesFault>
    ensures { result ≡ fix_fate choice.now animal number fix }
{
    match reason_of(choice.keeps_marks, fix) {
        Some(reason) => Ok(Fate::LeftOut {
            animal: Some(animal),
            reason,
        }),
        None => metres_fate(choice, animal, number, fix),
    }
}

// What becomes of the record of this number.
fn fate_of(choice: &Choice, number: u32, row: &Row) -> Result<Fate, FatesFault>
    ensures { result ≡ fate_of choice.now number row.now }
{
    match (row.told, row.animal) {
        (Told::LeftOut(reason), animal) => Ok(Fate::LeftOut { animal, reason }),
        (Told::Fix(fix), Some(animal)) => fix_fate(choice, animal, number, fix),
        (Told::Fix(_), None) => Ok(Fate::LeftOut {
            animal: None,
            reason: Reason::Animal,
        }),
    }
}

// Puts a fate behind others.
fn push_fate<A: Allocator>(fates: &mut Vec<Fate, A>, fate: Fate) -> Result<(), OutOfMemory>
    ensures { OnOk result (fates.new.items ≡ fates.old.items ++ fate ∷ []) }
{
    fates.push(fate)?;
    Ok(())
}

/// What becomes of each record of a table, in their order: its fix is in the track of its animal, or the record is left
/// out for the first reason that it has.
///
/// # Errors
///
/// A fix that is used is off the grid; there are too many records; or memory ran out.
pub fn fates_of<A: Allocator>(
    alloc: A,
    choice: &Choice,
    rows: &[Row],
) -> Result<Vec<Fate, A>, FatesFault>
    ensures fates { IfOk result (λ fates. fates_of choice.now rows.now ≡ Ok fates.items) }
    ensures fault { IfErr result (IsFatesFault choice.now rows.now) }
{
    if rows.len() > u32::MAX as usize {
        return Err(FatesFault::TooManyRecords);
    }
    let mut fates = Vec::new(alloc);
    for (index, row) in rows.iter().enumerate() {
        let fate = match fate_of(choice, index as u32 + 1, row) {
            Ok(fate) => fate,
            Err(fault) => return Err(fault),
        };
        push_fate(&mut fates, fate)?;
    }
    Ok(fates)
}
