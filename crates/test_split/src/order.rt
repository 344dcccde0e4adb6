// Tests of the order of tracks.

use range_plane::OutOfMemory;
use split_times::Moment;
use split_tracks::{Entry, Fate, Reason, tracks_of};
use std::alloc::{AllocError, Allocator, Global};
use std::process::Abort;
use std::test::Fail;
use test_doubles::{MANY_ALLOCATIONS, Refusing, next_random};

// A record in the track of an animal, of this second and so many nanoseconds more.
fn in_track(animal: u32, record: u32, second: u64, nanosecond: u32) -> Fate {
    let moment = Moment { second, nanosecond };
    let entry = Entry {
        record,
        moment,
        easting: i64::from(record) * 10,
        northing: -5,
        is_used: record % 2 == 1,
    };
    Fate::InTrack { animal, entry }
}

// A record of an animal that is left out.
fn left_out(animal: Option<u32>) -> Fate {
    let reason = Reason::Coordinates;
    Fate::LeftOut { animal, reason }
}

// Whether a track has the records of these numbers, in this order, each whole.
fn has_records(track: &[Entry], records: &[u32]) -> bool {
    track.len() == records.len()
        && track.iter().zip(records).all(|(entry, record)| {
            entry.record == *record
                && entry.easting == i64::from(*record) * 10
                && entry.northing == -5
                && entry.is_used == (*record % 2 == 1)
        })
}

// Checks the tracks of two animals by the numbers of their records.
fn expect_two(
    rt: &impl Abort,
    alloc: Global,
    fates: &[Fate],
    first: &[u32],
    second: &[u32],
) -> Result<(), Fail> {
    let tracks = tracks_of(alloc, fates, 2)?;
    assert!(rt; tracks.len() == 2, "two tracks");
    assert!(rt; has_records(&tracks[0], first), "the first");
    assert!(rt; has_records(&tracks[1], second), "the second");
    Ok(())
}

#[test]
fn records_go_into_the_tracks_of_their_animals(rt: HostRuntime) -> Result<(), Fail> {
    let fates = [
        in_track(1, 1, 60, 0),
        in_track(0, 2, 0, 0),
        left_out(Some(1)),
        in_track(1, 4, 120, 0),
        left_out(None),
        in_track(0, 6, 60, 0),
    ];
    expect_two(&rt, rt.alloc(), &fates, &[2, 6], &[1, 4])
}

#[test]
fn a_track_is_in_the_order_of_time_and_then_of_records(rt: HostRuntime) -> Result<(), Fail> {
    let fates = [
        in_track(0, 1, 300, 0),
        in_track(0, 2, 60, 500_000_000),
        in_track(0, 3, 60, 0),
        in_track(1, 4, 60, 0),
        in_track(0, 5, 300, 0),
        in_track(0, 6, 60, 499_999_999),
        in_track(0, 7, 60, 500_000_000),
        in_track(0, 8, 0, 999_999_999),
    ];
    expect_two(&rt, rt.alloc(), &fates, &[8, 3, 6, 2, 7, 1, 5], &[4])
}

#[test]
fn the_greatest_times_are_told_apart(rt: HostRuntime) -> Result<(), Fail> {
    let fates = [
        in_track(0, 1, u64::MAX, u32::MAX),
        in_track(0, 2, u64::MAX, 0),
        in_track(0, 3, 0, u32::MAX),
        in_track(0, 4, 4, 294_967_294),
        in_track(0, 5, 4, 294_967_295),
        in_track(0, 6, 4, 294_967_296),
    ];
    expect_two(&rt, rt.alloc(), &fates, &[4, 3, 5, 6, 2, 1], &[])
}

#[test]
fn no_animal_has_no_track(rt: HostRuntime) -> Result<(), Fail> {
    let tracks = tracks_of(rt.alloc(), &[], 0)?;
    assert!(&rt; tracks.is_empty(), "of no record");
    let beyond = [in_track(2, 1, 0, 0), in_track(u32::MAX, 2, 0, 0)];
    expect_two(&rt, rt.alloc(), &beyond, &[], &[])
}

// So many records of five animals, at times that look drawn at random, many of which are the same.
fn drawn<A: Allocator>(alloc: A, count: u32) -> Result<Vec<Fate, A>, AllocError> {
    let mut seed = 7;
    let mut fates = Vec::new(alloc);
    for record in 1..=count {
        seed = next_random(seed);
        let animal = ((seed >> 8) % 5) as u32;
        fates
            .push(in_track(
                animal,
                record,
                (seed >> 16) % 100,
                ((seed >> 32) % 3) as u32,
            ))
            .ok();
    }
    Ok(fates)
}

// Whether an entry may stand before another: it is earlier, or of the same moment and an earlier record.
fn may_precede(a: &Entry, b: &Entry) -> bool {
    (a.moment.second, a.moment.nanosecond, a.record)
        < (b.moment.second, b.moment.nanosecond, b.record)
}

#[test]
fn many_records_are_each_in_one_track_and_in_order(rt: HostRuntime) -> Result<(), Fail> {
    let fates = drawn(rt.alloc(), 3000)?;
    let tracks = tracks_of(rt.alloc(), &fates, 5)?;
    assert!(&rt; fates.len() == 3000 && tracks.len() == 5, "all are there");
    let mut count: usize = 0;
    let mut sum: u64 = 0;
    for track in &tracks {
        count = count.saturating_add(track.len());
        let mut last: Option<Entry> = None;
        for entry in track {
            if let Some(before) = last {
                assert!(&rt; may_precede(&before, entry), "in order");
            }
            sum = sum.saturating_add(u64::from(entry.record));
            last = Some(*entry);
        }
    }
    assert!(&rt; count == 3000 && sum == 4_501_500, "each once");
    Ok(())
}

#[test]
fn each_allocation_may_fail(rt: HostRuntime) -> Result<(), Fail> {
    let fates = drawn(rt.alloc(), 300)?;
    for number in 1..MANY_ALLOCATIONS {
        let refusing = Refusing::new(rt.alloc(), number);
        let answer = tracks_of(&refusing, &fates, 5);
        if answer.is_ok() {
            assert!(&rt;
                !refusing.has_refused() && number > 10,
                "{number} allocations"
            );
            return Ok(());
        }
        assert!(&rt; refusing.has_refused(), "at allocation {number}");
        assert!(&rt; answer.err() == Some(OutOfMemory), "the fault");
    }
    assert!(&rt; false, "more allocations than there are");
    Ok(())
}
