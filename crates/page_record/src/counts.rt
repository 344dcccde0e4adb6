// How many records of the export each animal has, and how many of them were left out.

ghost use Rattle.std.specs.Prelude.{◌≡◌, ◌<◌, ◌≤◌, ◌*◌, ◌^◌, ◌-◌, [], IfOk, None, OnOk, length, map};
ghost use Rattle.std.specs.List.{sum_by};
ghost use Rattle.page_record.specs.Counts.{Adds, AreMore, AreUpTo, IsTally, IsTallyOf, counted, counted_by, counts_at, left_by, left_of, made_in, place_in, records_of};
ghost use Rattle.page_record.specs.Reading.{left_seen, read, track_seen};

use crate::record::{LeftOut, Made, Record};
use indexmap::IndexMap;
use range_plane::OutOfMemory;
use split_tracks::Reason;
use std::alloc::Global;

/// How many records of the export an animal has, and how many fixes of it were left out for each reason.
#[derive(Clone, Copy, PartialEq, Eq, Debug)]
pub struct Counts {
    pub records: u128,
    /// In the order in which reasons are asked, which is that of `Reason`.
    pub left: [u128; 14],
}

/// The counts of an animal that a record does not have.
pub const NO_COUNTS: Counts = Counts {
    records: 0,
    left: [0; 14],
};

/// The place of a reason in the order in which reasons are asked.
pub fn place_in(reason: Reason) -> usize
    ensures place { result ≡ place_in reason }
    ensures within { result < 14 }
{
    match reason {
        Reason::Animal => 0,
        Reason::Coordinates => 1,
        Reason::Zero => 2,
        Reason::Sensor => 3,
        Reason::Outlier => 4,
        Reason::Class => 5,
        Reason::NoDop => 6,
        Reason::Dop => 7,
        Reason::Type => 8,
        Reason::Before => 9,
        Reason::After => 10,
        Reason::Grid => 11,
        Reason::Speed => 12,
        Reason::Every => 13,
    }
}

/// The counts of an animal.
pub fn counts_at(table: &IndexMap<Vec<u8>, Counts>, animal: &[u8]) -> Counts
    ensures { result ≡ counts_at animal.now table.now.entries }
{
    match table.get(animal) {
        Some(counts) => *counts,
        None => NO_COUNTS,
    }
}

// Counts with so many records more, of which so many were left out for a reason.
fn with_more(counts: Counts, records: u32, reason: Reason, left: u32) -> Counts
    requires { AreUpTo (2 ^ 100) counts }
    ensures { AreMore records reason left counts result }
{
    let place = place_in(reason);
    let mut own = counts.left;
    own[place] += u128::from(left);
    Counts {
        records: counts.records + u128::from(records),
        left: own,
    }
}

// Counts so many records more of an animal, of which so many were left out for a reason.
fn add(
    alloc: Global,
    table: &mut IndexMap<Vec<u8>, Counts>,
    animal: &[u8],
    records: u32,
    reason: Reason,
    left: u32,
) -> Result<(), OutOfMemory>
    requires { AreUpTo (2 ^ 100) (counts_at animal.now table.old.entries) }
    ensures { OnOk result (Adds animal.now records reason left table.old.entries table.new.entries) }
{
    let counts = with_more(counts_at(table, animal), records, reason, left);
    let name = Vec::from_slice(alloc, animal)?;
    table.insert(name, counts)?;
    Ok(())
}

// The counts of what lines say that was left out.
fn tally_left(alloc: Global, lines: &[LeftOut]) -> Result<IndexMap<Vec<u8>, Counts>, OutOfMemory>
    ensures tally { IfOk result (λ table. IsTallyOf (map left_seen lines.now) [] table.entries) }
    ensures few { length lines.now < 2 ^ 64 }
{
    let mut table = IndexMap::new(alloc);
    for left in lines {
        add(
            alloc,
            &mut table,
            &left.name,
            left.count,
            left.reason,
            left.count,
        )?;
    }
    Ok(table)
}

// Counts a track.
fn add_track(
    alloc: Global,
    table: &mut IndexMap<Vec<u8>, Counts>,
    name: &[u8],
    made: &Made,
) -> Result<(), OutOfMemory>
    requires { AreUpTo (2 ^ 100) (counts_at name.now table.old.entries) }
    ensures added { OnOk result (Adds name.now made.now.records Reason.Outlier (made.now.records - made.now.used) table.old.entries table.new.entries) }
    ensures small { made.now.records < 2 ^ 32 }
{
    let marked = made.records.saturating_sub(made.used);
    add(alloc, table, name, made.records, Reason::Outlier, marked)
}

/// The counts of each animal of a record, by their names. Records that a track has and does not use are outliers.
///
/// # Errors
///
/// Memory ran out.
pub fn tally(alloc: Global, own: &Record) -> Result<IndexMap<Vec<u8>, Counts>, OutOfMemory>
    ensures { IfOk result (λ table. IsTally (read own.now) table.entries) }
{
    let mut table = tally_left(alloc, &own.left)?;
    for index in 0..own.tracks.len() {
        if let Some((name, made)) = own.tracks.get_index(index) {
            add_track(alloc, &mut table, name, made)?;
        }
    }
    Ok(table)
}

// How many fixes a line says that were left out, if it is for this reason.
fn left_for(reason: Option<Reason>, left: &LeftOut) -> u32
    ensures { result ≡ left_by None reason (left_seen left.now) }
{
    match reason {
        Some(wanted) if place_in(wanted) != place_in(left.reason) => 0,
        _ => left.count,
    }
}

// How many fixes lines say that were left out, for a reason or for any.
fn sum_left(reason: Option<Reason>, lines: &[LeftOut]) -> u128
    ensures sum { result ≡ sum_by (left_by None reason) (map left_seen lines.now) }
    ensures small { result ≤ 2 ^ 64 * 2 ^ 32 }
{
    let mut sum = 0;
    for left in lines {
        sum += u128::from(left_for(reason, left));
    }
    sum
}

// How many records of a track were left out for a reason, which are those that are marked; or how many it has.
fn counted(reason: Option<Reason>, made: &Made) -> u32
    ensures { result ≡ counted reason made.now }
{
    match reason {
        Some(wanted) if place_in(wanted) == place_in(Reason::Outlier) => {
            made.records.saturating_sub(made.used)
        }
        Some(_other) => 0,
        None => made.records,
    }
}

// The same, of all tracks.
fn sum_tracks(reason: Option<Reason>, tracks: &IndexMap<Vec<u8>, Made>) -> u128
    ensures sum { result ≡ sum_by (counted_by reason) (map track_seen tracks.now.entries) }
    ensures small { result ≤ 2 ^ 64 * 2 ^ 32 }
{
    let mut sum = 0;
    for index in 0..tracks.len() {
        if let Some((_name, made)) = tracks.get_index(index) {
            sum += u128::from(counted(reason, made));
        }
    }
    sum
}

/// How many fixes of all animals were left out for a reason. Records that a track has and does not use are outliers.
#[tactic(auto, unfolding(crate::specs::Counts::left_of))]
pub fn left_of_all(own: &Record, reason: Reason) -> u128
    ensures { result ≡ left_of (read own.now) None reason }
{
    sum_left(Some(reason), &own.left) + sum_tracks(Some(reason), &own.tracks)
}

/// How many records the export has.
#[tactic(auto, unfolding(crate::specs::Counts::records_of))]
pub fn records_of_all(own: &Record) -> u128
    ensures { result ≡ records_of (read own.now) None }
{
    sum_left(None, &own.left) + sum_tracks(None, &own.tracks)
}

/// The track of an animal.
pub fn track_of(own: &Record, animal: &[u8]) -> Option<Made>
    ensures { result ≡ made_in animal.now (read own.now).tracks }
{
    own.tracks.get(animal).copied()
}
