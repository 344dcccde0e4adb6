// Records go into the tracks of their animals, and tracks into the order of time.

ghost use Rattle.std.specs.Prelude.{◌≡◌, ◌+◌, ◌*◌, [], All, IfOk, map, vec_len};
ghost use Rattle.split_tracks.specs.Tracks.{entries_by_animal, in_order, time_of, tracks_of};

use crate::fate::{Entry, Fate};
use range_plane::OutOfMemory;
use std::alloc::Allocator;

// How many nanoseconds a second has.
const NANOSECONDS: u128 = 1_000_000_000;

// So many tracks with no entry.
fn empty_tracks<A: Allocator + Copy>(
    alloc: A,
    count: usize,
) -> Result<Vec<Vec<Entry, A>, A>, OutOfMemory>
    ensures count { IfOk result (λ tracks. vec_len tracks ≡ count) }
    ensures empty { IfOk result (λ tracks. All (λ track. track.items ≡ []) tracks.items) }
{
    let mut tracks = Vec::with_capacity(alloc, count)?;
    for _made in 0..count {
        tracks.push_reserved(Vec::new(alloc));
    }
    Ok(tracks)
}

// The entries of each animal, in the order of records.
fn by_animal<A: Allocator + Copy>(
    alloc: A,
    fates: &[Fate],
    animals: u32,
) -> Result<Vec<Vec<Entry, A>, A>, OutOfMemory>
    ensures { IfOk result (λ tracks. map (λ track. track.items) tracks.items
        ≡ entries_by_animal animals fates.now) }
{
    let mut tracks = empty_tracks(alloc, animals as usize)?;
    for fate in fates {
        match *fate {
            Fate::InTrack { animal, entry } => {
                if animal < animals {
                    tracks[animal as usize].push(entry)?;
                }
            }
            Fate::LeftOut { .. } => {}
        }
    }
    Ok(tracks)
}

// So many seconds and nanoseconds, in nanoseconds.
fn nanoseconds(second: u64, nanosecond: u32) -> u128
    ensures { result ≡ second * 1_000_000_000 + nanosecond }
{
    u128::from(second) * NANOSECONDS + u128::from(nanosecond)
}

// Entries in the order of time; those of one time stay in theirs.
fn put_in_order<A: Allocator + Copy>(track: &mut Vec<Entry, A>) -> Result<(), OutOfMemory>
    ensures { IfOk result (λ _. track.new.items ≡ in_order track.old.items) }
{
    track.sort_by_key(
        |entry: &Entry| -> u128
            ensures { result ≡ time_of entry.now }
        { nanoseconds(entry.moment.second, entry.moment.nanosecond) },
    )?;
    Ok(())
}

// Each of some tracks in the order of time.
fn put_all_in_order<A: Allocator + Copy>(
    tracks: &mut Vec<Vec<Entry, A>, A>,
) -> Result<(), OutOfMemory>
    ensures { IfOk result (λ _. map (λ track. track.items) tracks.new.items
        ≡ map in_order (map (λ track. track.items) tracks.old.items)) }
{
    for track in tracks.iter_mut() {
        put_in_order(track)?;
    }
    Ok(())
}

/// The track of each animal, of which there are so many: its entries in the order of time, also of the rest of a
/// second, and those of one time in the order of their records. An entry of any other animal is in none.
///
/// # Errors
///
/// Memory ran out.
pub fn tracks_of<A: Allocator + Copy>(
    alloc: A,
    fates: &[Fate],
    animals: u32,
) -> Result<Vec<Vec<Entry, A>, A>, OutOfMemory>
    ensures { IfOk result (λ tracks. map (λ track. track.items) tracks.items
        ≡ tracks_of animals fates.now) }
{
    let mut tracks = by_animal(alloc, fates, animals)?;
    put_all_in_order(&mut tracks)?;
    Ok(tracks)
}
