// What is known of all fixes, also of those that were left out: by the record of tracks, or else by tracks alone.

use crate::fault::PageFault;
use crate::given::Track;
use crate::tracks::tracks_of;
use csv::{ByteRecord, ReaderBuilder};
use indexmap::IndexMap;
use page_record::{Counts, Record, left_of_all, place_in, records_of_all, tally};
use page_report::{ReadAnimal, Report};
use page_sections::Cause;
use split_tracks::Reason;
use std::alloc::Global;

/// The counts of a record by animals.
pub(crate) type Tally = IndexMap<Vec<u8>, Counts>;

/// What is known of all fixes.
#[derive(Drop)]
pub(crate) enum Known<'a> {
    ByRecord(&'a Record, Tally),
    /// How many fixes the track of each animal has, in the order of the report.
    ByTracks(Vec<u64>),
    Nothing,
}

// A number of 64 bits; none that a record of so many records comes to is greater.
fn short(number: u128) -> u64 {
    u64::try_from(number).unwrap_or(u64::MAX)
}

// How many records a track has behind its titles. One that cannot be read has been refused before.
fn records_in(alloc: Global, track: &[u8]) -> u64 {
    let mut reader = ReaderBuilder::new()
        .has_headers(true)
        .flexible(true)
        .from_reader(alloc, track);
    let mut current = ByteRecord::new(alloc);
    let mut records: u64 = 0;
    for _byte in 0..track.len() {
        let Ok(true) = reader.read_byte_record(&mut current) else {
            break;
        };
        records = records.saturating_add(1);
    }
    records
}

// How many records the track of each animal of a report has.
fn records_of_tracks(
    alloc: Global,
    report: &Report,
    tracks: &[Track],
) -> Result<Vec<u64>, PageFault> {
    let mut records = Vec::new(alloc);
    for track in tracks_of(alloc, report, tracks)? {
        records.push(records_in(alloc, &track.bytes))?;
    }
    Ok(records)
}

// How many fixes of a track are not used.
fn unused(records: u64, animal: &ReadAnimal) -> u64 {
    records.saturating_sub(animal.rows.len() as u64)
}

// What is known by tracks alone: nothing, if none of them says that a fix is not used, since what was left out of them before is
// not in them.
fn known_by_tracks<'a>(
    alloc: Global,
    report: &Report,
    tracks: &[Track],
) -> Result<Known<'a>, PageFault> {
    let records = records_of_tracks(alloc, report, tracks)?;
    let has_unused = report
        .animals
        .iter()
        .zip(&records)
        .any(|(animal, own)| unused(*own, animal) > 0);
    if has_unused {
        Ok(Known::ByTracks(records))
    } else {
        Ok(Known::Nothing)
    }
}

/// What is known by a record, or by tracks.
pub(crate) fn known_of<'a>(
    alloc: Global,
    report: &Report,
    record: Option<&'a Record>,
    tracks: Option<&[Track]>,
) -> Result<Known<'a>, PageFault> {
    match (record, tracks) {
        (Some(record), _) => Ok(Known::ByRecord(record, tally(alloc, record)?)),
        (None, Some(tracks)) => known_by_tracks(alloc, report, tracks),
        (None, None) => Ok(Known::Nothing),
    }
}

// How many fixes of an animal a record has that were left out for a reason.
fn left_for(tally: &Tally, animal: &[u8], reason: Reason) -> u64 {
    match tally.get(animal) {
        Some(counts) => short(counts.left.get(place_in(reason)).copied().unwrap_or(0)),
        None => 0,
    }
}

impl<'a> Known<'a> {
    /// How many fixes there were of the animal at a place of the report, if it is known.
    pub(crate) fn records_of(&self, place: usize, animal: &ReadAnimal) -> Option<u64> {
        match self {
            Known::ByRecord(_record, tally) => tally
                .get(animal.name.as_slice())
                .map(|counts| short(counts.records)),
            Known::ByTracks(records) => records.get(place).copied(),
            Known::Nothing => None,
        }
    }

    /// How many of them were left out for a cause.
    pub(crate) fn left_of(&self, place: usize, animal: &ReadAnimal, cause: Cause) -> u64 {
        match (self, cause) {
            (Known::ByRecord(_record, tally), Cause::Made(reason)) => {
                left_for(tally, &animal.name, reason)
            }
            (Known::ByTracks(records), Cause::Use) => {
                unused(records.get(place).copied().unwrap_or(0), animal)
            }
            _ => 0,
        }
    }

    /// How many fixes there were of all animals, if it is known.
    pub(crate) fn records_of_all(&self) -> Option<u64> {
        match self {
            Known::ByRecord(record, _tally) => Some(short(records_of_all(record))),
            Known::ByTracks(records) => {
                Some(
                    records
                        .iter()
                        .fold(0, |all: u64, own| all.saturating_add(*own)),
                )
            }
            Known::Nothing => None,
        }
    }

    /// How many fixes of all animals were left out for a cause.
    pub(crate) fn left_of_all(&self, report: &Report, cause: Cause) -> u64 {
        if let (Known::ByRecord(record, _tally), Cause::Made(reason)) = (self, cause) {
            return short(left_of_all(record, reason));
        }
        let mut left: u64 = 0;
        for (place, animal) in report.animals.iter().enumerate() {
            left = left.saturating_add(self.left_of(place, animal, cause));
        }
        left
    }
}
