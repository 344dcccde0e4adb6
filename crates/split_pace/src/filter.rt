// Which entries of tracks a filter leaves out.

ghost use Rattle.std.specs.Prelude.{◌≡◌, ◌++◌, ◌||◌, ℤ, IfOk, OnOk, map, not};
ghost use Rattle.std.specs.BTreeSet.{contains};
ghost use Rattle.std.specs.Ordering.{int_cmp, int_eq};
ghost use Rattle.split_pace.specs.Filters.{left_of};
ghost use Rattle.split_pace.specs.Speed.{is_slow_enough, is_reached_from};
ghost use Rattle.split_pace.specs.Every.{is_first, piece_of};
ghost use Rattle.split_pace.specs.Leave.{left_records, passes, reason_of};

use crate::every::piece_of;
use crate::speed::{Speed, is_reached};
use range_plane::{OutOfMemory, Scale};
use split_clock::Clock;
use split_tracks::{Entry, Reason};
use std::alloc::Allocator;
use std::collections::BTreeSet;

/// A filter, which leaves out used fixes of tracks. Fixes that are not used it passes over: they are never left out, and no
/// other is compared with them.
#[derive(Clone, Copy)]
pub enum Filter<'a> {
    /// Keeps the first fix, and each other one that the animal could come to at this speed from the last that is kept, by
    /// whole seconds. Places are in this unit.
    MaxSpeed { unit: Scale, speed: Speed },
    /// Keeps the first fix of each piece of so many seconds, counted by this clock from midnight of 1 January 1970 on. Pieces
    /// of no second are one, which has all fixes.
    Every { length: u64, clock: &'a Clock },
}

// Why it leaves fixes out.
pub(crate) fn reason_of(filter: Filter<'_>) -> Reason
    ensures { result ≡ reason_of filter.entry }
{
    match filter {
        Filter::MaxSpeed { .. } => Reason::Speed,
        Filter::Every { .. } => Reason::Every,
    }
}

// Whether an animal of this speed comes to an entry from the last that is kept, if one is.
fn is_reached_from(unit: Scale, speed: Speed, last: Option<Entry>, entry: &Entry) -> bool
    ensures { result ≡ is_reached_from unit speed last entry.now }
{
    match last {
        Some(last) => is_reached(unit, speed, &last, entry),
        None => true,
    }
}

// Puts the records of a track that the speed leaves out behind others.
fn push_fast<A: Allocator>(
    left: &mut Vec<u32, A>,
    track: &[Entry],
    unit: Scale,
    speed: Speed,
) -> Result<(), OutOfMemory>
    ensures { OnOk result (left.new.items ≡ left.old.items ++ left_of (is_slow_enough unit speed) track.now) }
{
    let mut last = None;
    for entry in track {
        if entry.is_used {
            if is_reached_from(unit, speed, last, entry) {
                last = Some(*entry);
            } else {
                left.push(entry.record)?;
            }
        }
    }
    Ok(())
}

// Whether a piece of time is not among those that were seen. It is then.
fn is_new<A: Allocator + Copy>(
    pieces: &mut BTreeSet<i128, A>,
    piece: i128,
) -> Result<bool, OutOfMemory>
    ensures is_new { IfOk result (λ is_new. is_new ≡ not (contains int_cmp pieces.old piece)) }
    ensures seen { OnOk result ((other : ℤ) → contains int_cmp pieces.new other ≡ (int_eq piece other || contains int_cmp pieces.old other)) }
{
    let is_new = pieces.insert(piece)?;
    Ok(is_new)
}

// Puts the records of a track that are not the first of their piece behind others.
fn push_repeated<A: Allocator + Copy>(
    alloc: A,
    left: &mut Vec<u32, A>,
    track: &[Entry],
    length: u64,
    clock: &Clock,
) -> Result<(), OutOfMemory>
    ensures { OnOk result (left.new.items ≡ left.old.items ++ left_of (is_first (piece_of length clock.now.zone)) track.now) }
{
    let mut pieces = BTreeSet::new(alloc);
    for entry in track {
        if entry.is_used && !is_new(&mut pieces, piece_of(length, clock, entry))? {
            left.push(entry.record)?;
        }
    }
    Ok(())
}

// Puts the records of a track that a filter leaves out behind others.
fn push_left<A: Allocator + Copy>(
    alloc: A,
    left: &mut Vec<u32, A>,
    track: &[Entry],
    filter: Filter<'_>,
) -> Result<(), OutOfMemory>
    ensures { OnOk result (left.new.items ≡ left.old.items ++ left_of (passes filter.entry) track.now) }
{
    match filter {
        Filter::MaxSpeed { unit, speed } => push_fast(left, track, unit, speed),
        Filter::Every { length, clock } => push_repeated(alloc, left, track, length, clock),
    }
}

// The records that a filter leaves out of tracks.
pub(crate) fn left_records<A: Allocator + Copy>(
    alloc: A,
    tracks: &[Vec<Entry, A>],
    filter: Filter<'_>,
) -> Result<Vec<u32, A>, OutOfMemory>
    ensures { IfOk result (λ left. left.items ≡ left_records filter.entry (map (λ track. track.items) tracks.now)) }
{
    let mut left = Vec::new(alloc);
    for track in tracks {
        push_left(alloc, &mut left, track, filter)?;
    }
    Ok(left)
}
