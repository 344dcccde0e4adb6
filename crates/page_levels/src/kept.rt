// The fixes that levels keep, and their polygons.

ghost use Rattle.std.specs.Prelude.{◌≡◌, ◌≤◌, IfOk, length};
ghost use Rattle.range_plane.specs.Fix.{fix_limit};
ghost use Rattle.range_plane.specs.Polygon.{IsPolygon};
ghost use Rattle.range_stats.specs.Percent.{kept_count};
ghost use Rattle.page_levels.specs.Kept.{AreRanked, first_kept};

use crate::distances::entries_of;
use range_hull::OnlineHull;
use range_plane::{Columns, OutOfMemory, Point, Polygon};
use std::alloc::Global;

// Points by their distance from the mean of all, the nearest first; of points as near as each other the earlier first.
pub(crate) fn ranked_points(alloc: Global, points: &Columns) -> Result<Vec<Point>, OutOfMemory>
    requires { length points.now.points ≤ fix_limit }
    ensures { IfOk result (λ ranked. AreRanked points.now.points ranked.items) }
{
    let mut entries = entries_of(alloc, points)?;
    entries.sort_unstable();
    let mut ranked = Vec::with_capacity(alloc, entries.len())?;
    for entry in &entries {
        ranked.push_reserved(points.at(entry.1));
    }
    Ok(ranked)
}

// How many of so many points a level keeps.
fn kept_count(level: u8, count: usize) -> usize
    requires { count ≤ fix_limit }
    ensures { result ≡ kept_count level count }
{
    (usize::from(level) * count + 99) / 100
}

// The first of some points, as many as a level keeps.
pub(crate) fn first_kept(ranked: &[Point], level: u8) -> &[Point]
    requires { length ranked.now ≤ fix_limit }
    ensures { result.now ≡ first_kept ranked.now level }
{
    let kept = kept_count(level, ranked.len());
    &ranked[..kept.min(ranked.len())]
}

// The polygon of points.
fn polygon_of(alloc: Global, points: &[Point]) -> Result<Polygon, OutOfMemory>
    requires { length points.now ≤ fix_limit }
    ensures { IfOk result (λ polygon. IsPolygon points.now polygon) }
{
    let mut hull = OnlineHull::new(alloc);
    hull.reserve(points.len())?;
    for point in points {
        hull.insert(*point);
    }
    hull.polygon(alloc)
}

// The polygon of the first of some points, as many as a level keeps.
pub(crate) fn polygon_at(alloc: Global, ranked: &[Point], level: u8) -> Result<Polygon, OutOfMemory>
    requires { length ranked.now ≤ fix_limit }
    ensures { IfOk result (λ polygon. IsPolygon (first_kept ranked.now level) polygon) }
{
    polygon_of(alloc, first_kept(ranked, level))
}
