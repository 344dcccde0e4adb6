// Animals that have the same fixes.

use crate::said::Said;
use crate::tracks::Herd;
use crate::words::{push, push_number};
use indexmap::IndexMap;
use range_plane::OutOfMemory;
use split_tracks::Entry;
use std::alloc::{AllocError, Global};

// The fewest fixes that two animals do not have alike by chance.
const FEWEST: usize = 10;

// Whether two fixes are at one second and place.
fn are_same(one: &Entry, other: &Entry) -> bool {
    one.moment == other.moment && (one.easting, one.northing) == (other.easting, other.northing)
}

// Whether two tracks have the same fixes.
fn are_copies(one: &[Entry], other: &[Entry]) -> bool {
    one.len() == other.len() && one.iter().zip(other).all(|(own, same)| are_same(own, same))
}

// What tracks have in common that have the same fixes: how many there are, and of the last one the second and the place.
fn key_of(alloc: Global, track: &[Entry]) -> Result<Vec<u8>, AllocError> {
    let mut key = Vec::new(alloc);
    if let Some(last) = track.last() {
        key.extend_from_slice(&track.len().to_be_bytes())?;
        key.extend_from_slice(&last.moment.second.to_be_bytes())?;
        key.extend_from_slice(&last.easting.to_be_bytes())?;
        key.extend_from_slice(&last.northing.to_be_bytes())?;
    }
    Ok(key)
}

// Two animals of the same fixes, the first such, and how many pairs there are.
#[derive(Clone, Copy)]
struct Copies {
    first: Option<(u32, u32)>,
    count: usize,
}

// Those of a herd: each animal is looked at beside the first one that may be the same.
fn copies_in(alloc: Global, herd: &Herd<'_>) -> Result<Copies, OutOfMemory> {
    let mut known: IndexMap<Vec<u8>, u32> = IndexMap::new(alloc);
    let mut copies = Copies {
        first: None,
        count: 0,
    };
    for animal in herd.order {
        let track = herd.track(*animal);
        if track.len() < FEWEST {
            continue;
        }
        let key = key_of(alloc, track)?;
        match known.get(key.as_slice()).copied() {
            Some(other) if are_copies(herd.track(other), track) => {
                copies = Copies {
                    first: copies.first.or(Some((other, *animal))),
                    count: copies.count.saturating_add(1),
                };
            }
            Some(_) => {}
            None => {
                let _none = known.insert(key, *animal)?;
            }
        }
    }
    Ok(copies)
}

// That two animals have the same fixes, and so many pairs more.
fn copies_text(
    alloc: Global,
    herd: &Herd<'_>,
    pair: (u32, u32),
    more: usize,
) -> Result<Vec<u8>, AllocError> {
    let mut text = Vec::new(alloc);
    push(&mut text, "all ")?;
    push_number(&mut text, herd.track(pair.0).len())?;
    push(&mut text, " fixes of ")?;
    text.extend_from_slice(herd.name(pair.0))?;
    push(&mut text, " and of ")?;
    text.extend_from_slice(herd.name(pair.1))?;
    push(&mut text, " are the same")?;
    if more > 0 {
        push(&mut text, ", and so are those of ")?;
        push_number(&mut text, more)?;
        push(&mut text, " pairs more")?;
    }
    push(&mut text, ": are they one?")?;
    Ok(text)
}

// Asks about animals that have the same fixes.
pub(crate) fn ask_copies(
    alloc: Global,
    said: &mut Said,
    herd: &Herd<'_>,
) -> Result<(), OutOfMemory> {
    let copies = copies_in(alloc, herd)?;
    match copies.first {
        Some(pair) => {
            let more = copies.count.saturating_sub(1);
            said.say(alloc, &copies_text(alloc, herd, pair, more)?)
        }
        None => Ok(()),
    }
}
