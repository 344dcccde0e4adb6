// Tracks whose areas grew.

use range_plane::{Fix, OutOfMemory, Point};
use std::alloc::Global;
use test_doubles::next_random;

/// How the fixes of a track lie.
#[derive(Clone, Copy)]
pub(crate) enum Track {
    /// At first close in time, scattered in a square.
    DenseFirst,
    /// Further to the east with each.
    Drift,
    /// The first far from all others, which are scattered in a square.
    FarFirst,
    /// At the corners of a square in turn, one a day.
    Corners,
    /// One fix.
    One,
}

/// How many fixes a track has.
pub(crate) fn fixes_in(track: Track) -> u64 {
    match track {
        Track::DenseFirst => 120,
        Track::Drift => 80,
        Track::FarFirst => 100,
        Track::Corners => 80,
        Track::One => 1,
    }
}

// The second of a fix of a track, counted from 0.
fn second_of(track: Track, fix: u64) -> u64 {
    match track {
        Track::DenseFirst => fix.saturating_mul(fix).saturating_mul(37),
        Track::Drift => fix.saturating_mul(43_200),
        Track::FarFirst => fix.saturating_mul(7_200),
        Track::Corners => fix.saturating_mul(86_400),
        Track::One => 5,
    }
}

// A corner of a square.
fn corner(fix: u64) -> (i64, i64) {
    match fix % 4 {
        0 => (0, 0),
        1 => (100, 0),
        2 => (100, 100),
        _ => (0, 100),
    }
}

// Where a fix of a track is, with what was drawn for it.
fn place_of(track: Track, fix: u64, drawn: (u64, u64)) -> (i64, i64) {
    let within = |mask: u64| ((drawn.0 & mask) as i64, (drawn.1 & mask) as i64);
    match track {
        Track::DenseFirst => within(0xFFF),
        Track::Drift => (fix.min(1_000) as i64 * 100, (fix % 7) as i64 * 30),
        Track::FarFirst if fix == 0 => (100_000, 100_000),
        Track::FarFirst => within(0xFF),
        Track::Corners => corner(fix),
        Track::One => (3, 4),
    }
}

/// The fixes of a track.
pub(crate) fn fixes_of(alloc: Global, track: Track) -> Result<Vec<Fix>, OutOfMemory> {
    let mut fixes = Vec::new(alloc);
    let mut seed = 1;
    for fix in 0..fixes_in(track) {
        let first = next_random(seed);
        seed = next_random(first);
        let place = place_of(track, fix, (first >> 33, seed >> 33));
        if let Some(at) = Point::new(place.0, place.1) {
            let second = second_of(track, fix);
            fixes.push(Fix { second, at })?;
        }
    }
    Ok(fixes)
}
