// The order of records in time.

use crate::said::Said;
use crate::tracks::Herd;
use crate::words::{push, push_number};
use range_plane::OutOfMemory;
use split_times::Moment;
use split_tracks::{Entry, Fate};
use std::alloc::{AllocError, Global};

// How many records of an animal come before an earlier one, and the moment of the last.
#[derive(Clone, Copy)]
struct Falls {
    count: usize,
    last: Option<Moment>,
}

// Whether a moment is before another.
fn is_before(moment: Moment, other: Moment) -> bool {
    moment.second < other.second
        || (moment.second == other.second && moment.nanosecond < other.nanosecond)
}

// The falls with those of the next record.
fn with_next(falls: Falls, moment: Moment) -> Falls {
    let has_fallen = match falls.last {
        Some(last) => is_before(moment, last),
        None => false,
    };
    Falls {
        count: falls.count.saturating_add(usize::from(has_fallen)),
        last: Some(moment),
    }
}

// The falls of each animal, of so many.
fn falls_of(alloc: Global, fates: &[Fate], animals: usize) -> Result<Vec<Falls>, OutOfMemory> {
    let none = Falls {
        count: 0,
        last: None,
    };
    let mut all = vec![in alloc; none; animals]?;
    for fate in fates {
        if let Fate::InTrack { animal, entry } = *fate {
            if let Some(falls) = all.get_mut(animal as usize) {
                *falls = with_next(*falls, entry.moment);
            }
        }
    }
    Ok(all)
}

// How many entries of a track have parts of a second.
fn with_parts(track: &[Entry]) -> usize {
    track
        .iter()
        .filter(|entry| entry.moment.nanosecond > 0)
        .count()
}

// How many times of all tracks do.
fn times_with_parts(herd: &Herd<'_>) -> usize {
    let mut count = 0usize;
    for animal in herd.order {
        count = count.saturating_add(with_parts(herd.track(*animal)));
    }
    count
}

// How many entries of a track have the second of the one before, and how many of these its place too.
fn same_seconds(track: &[Entry]) -> (usize, usize) {
    let mut seconds = 0usize;
    let mut places = 0usize;
    let mut before: Option<Entry> = None;
    for entry in track {
        if let Some(former) = before {
            if former.moment.second == entry.moment.second {
                seconds = seconds.saturating_add(1);
                if former.easting == entry.easting && former.northing == entry.northing {
                    places = places.saturating_add(1);
                }
            }
        }
        before = Some(*entry);
    }
    (seconds, places)
}

// That records come before an earlier one.
fn falls_text(alloc: Global, name: &[u8]) -> Result<Vec<u8>, AllocError> {
    let mut text = Vec::new(alloc);
    push(&mut text, "records of ")?;
    text.extend_from_slice(name)?;
    push(&mut text, " come before an earlier one: sorted by time")?;
    Ok(text)
}

// That records have the second of the one before, and so many its place.
fn same_text(alloc: Global, name: &[u8], places: usize) -> Result<Vec<u8>, AllocError> {
    let mut text = Vec::new(alloc);
    push(&mut text, "records of ")?;
    text.extend_from_slice(name)?;
    push(&mut text, " have the second of the one before")?;
    if places > 0 {
        push(&mut text, ", and ")?;
        push_number(&mut text, places)?;
        push(&mut text, " its place")?;
    }
    push(&mut text, ": kept")?;
    Ok(text)
}

// Says of how many times parts of a second are cut off; and of each animal how many of its records were not in the order of time,
// and how many have the second of the one before.
pub(crate) fn tell_times(
    alloc: Global,
    said: &mut Said,
    herd: &Herd<'_>,
    fates: &[Fate],
) -> Result<(), OutOfMemory> {
    said.say_counted(
        alloc,
        times_with_parts(herd),
        b"times have parts of a second: taken by whole seconds, also by filters",
    )?;
    let all = falls_of(alloc, fates, herd.tracks.len())?;
    for animal in herd.order {
        let name = herd.name(*animal);
        if let Some(falls) = all.get(*animal as usize) {
            said.say_counted(alloc, falls.count, &falls_text(alloc, name)?)?;
        }
        let (seconds, places) = same_seconds(herd.track(*animal));
        said.say_counted(alloc, seconds, &same_text(alloc, name, places)?)?;
    }
    Ok(())
}
