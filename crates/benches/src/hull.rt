// Inserts into an on-line hull.

use bench_tracks::{cloud, read_points, shuffle, spiral, walk};
use range_hull::OnlineHull;
use range_plane::{FIX_LIMIT, Point};
use std::time::Instant;

// Inserts the points, as far as there is room for them.
fn insert_all(hull: &mut OnlineHull, points: &[Point]) {
    for p in points {
        if hull.spare() > 0 && hull.points() < FIX_LIMIT {
            hull.insert(*p);
        }
    }
}

fn time_inserts(rt: &HostRuntime, name: &str, points: &[Point]) -> Result<(), anyhow::Error> {
    let mut hull = OnlineHull::new(rt.alloc());
    hull.reserve(points.len())?;
    let start = Instant::now(rt)?;
    insert_all(&mut hull, points);
    let time = start.elapsed(rt)?.as_micros();
    let (count, corners, area2, turns) = (
        hull.points(),
        hull.corner_count(),
        hull.area2(),
        hull.turns(),
    );
    println!(rt; "{name},{count},{corners},{area2},{turns}")?;
    eprintln!(rt; "{name},{time}")?;
    Ok(())
}

/// Times the inserts of 2^20 points each of a walk, a cloud and a spiral, and of the points that the text has,
/// in their order and shuffled. Prints how many corners each hull has, its doubled area and its turns, and says
/// how many microseconds the inserts took.
pub(crate) fn time_hull(rt: &HostRuntime, text: &str) -> Result<(), anyhow::Error> {
    let mut points = read_points(rt.alloc(), text)?;
    time_inserts(rt, "walk", &walk(rt.alloc())?)?;
    time_inserts(rt, "cloud", &cloud(rt.alloc())?)?;
    time_inserts(rt, "spiral", &spiral(rt.alloc())?)?;
    time_inserts(rt, "curve", &points)?;
    shuffle(&mut points);
    time_inserts(rt, "shuffled", &points)
}
