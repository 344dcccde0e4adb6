// Marks and counts of 2^20 points.

use bench_tracks::{cloud, columns_of, read_points, walk};
use range_lanes::{count_inside, mark_inside};
use range_plane::{Columns, Point, Polygon, are_corners};
use std::io;
use std::time::Instant;

const ROUNDS: u8 = 7;

// The best time of a few rounds of cover flags, in microseconds.
fn time_flags(rt: &HostRuntime, polygon: &Polygon, cols: &Columns) -> io::Result<u128> {
    let mut least = u128::MAX;
    for _ in 0..ROUNDS {
        let mut flags = vec![in rt.alloc(); false; cols.len()]?;
        let start = Instant::now(rt)?;
        mark_inside(polygon, cols, &mut flags);
        least = least.min(start.elapsed(rt)?.as_micros());
    }
    Ok(least)
}

// The best time of a few rounds of counts, in microseconds, and the count.
fn time_counts(rt: &HostRuntime, polygon: &Polygon, cols: &Columns) -> io::Result<(u128, u64)> {
    let (mut least, mut covered) = (u128::MAX, 0);
    for _ in 0..ROUNDS {
        let start = Instant::now(rt)?;
        covered = count_inside(polygon, cols);
        least = least.min(start.elapsed(rt)?.as_micros());
    }
    Ok((least, covered))
}

fn time_track(
    rt: &HostRuntime,
    polygon: &Polygon,
    name: &str,
    points: &[Point],
) -> Result<(), anyhow::Error> {
    let cols = columns_of(rt.alloc(), points)?;
    let corners = polygon.corners().len();
    let flags = time_flags(rt, polygon, &cols)?;
    let (counts, covered) = time_counts(rt, polygon, &cols)?;
    println!(rt; "{name},{corners},{covered}")?;
    eprintln!(rt; "{name},{corners},{flags},{counts}")?;
    Ok(())
}

/// Times the flags and the counts for the polygon whose corners the text has. Prints how many points it covers,
/// and says how many microseconds the best of a few rounds took.
pub(crate) fn time_lanes(rt: &HostRuntime, text: &str) -> Result<(), anyhow::Error> {
    let corners = read_points(rt.alloc(), text)?;
    if are_corners(&corners) {
        let polygon = Polygon::of_corners(corners);
        time_track(rt, &polygon, "scattered", &cloud(rt.alloc())?)?;
        time_track(rt, &polygon, "walk", &walk(rt.alloc())?)?;
    } else {
        eprintln!(rt;
            "these are not the corners of a polygon, counterclockwise from the westernmost"
        )?;
    }
    Ok(())
}
