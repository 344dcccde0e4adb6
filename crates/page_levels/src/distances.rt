// The distances of fixes from the mean of all.

ghost use Rattle.std.specs.Prelude.{◌≡◌, ◌*◌, ◌≤◌, ◌-ℤ◌, ◌*ℤ◌, pos, unsigned_abs, IfOk, length, map};
ghost use Rattle.range_plane.specs.Fix.{fix_limit};
ghost use Rattle.range_plane.specs.Plane.{IsCoordinate, coordinate_limit};
ghost use Rattle.range_stats.specs.Percent.{entry, indices, scaled_distance, square};

use range_lanes::sums;
use range_plane::{Columns, OutOfMemory, Point};
use std::alloc::Global;

// How far a coordinate lies from the mean of points, times their number. `sum` is the sum of their coordinates.
fn offset(count: u64, coordinate: i64, sum: u64) -> i64
    requires count { count ≤ fix_limit }
    requires coordinate { IsCoordinate coordinate }
    requires sum { sum ≤ fix_limit * coordinate_limit }
    ensures value { result ≡ pos count *ℤ coordinate -ℤ pos sum }
    ensures bound { unsigned_abs result ≤ fix_limit * coordinate_limit }
{
    count as i64 * coordinate - sum as i64
}

// The square of a number.
fn square(number: i64) -> u128
    ensures { result ≡ square number }
{
    let number = i128::from(number);
    (number * number) as u128
}

// The squared distance of a point from the mean of points, times the square of their number: so it is a whole number. `count` is
// their number, the others are the sums of their coordinates.
fn scaled_distance(count: u64, eastings: u64, northings: u64, point: Point) -> u128
    requires count { count ≤ fix_limit }
    requires eastings { eastings ≤ fix_limit * coordinate_limit }
    requires northings { northings ≤ fix_limit * coordinate_limit }
    ensures { result ≡ scaled_distance count (pos eastings) (pos northings) point }
{
    square(offset(count, point.e, eastings)) + square(offset(count, point.n, northings))
}

// The distance of each point from the mean of all, scaled as above, and its index.
pub(crate) fn entries_of(alloc: Global, points: &Columns) -> Result<Vec<(u128, usize)>, OutOfMemory>
    requires { length points.now.points ≤ fix_limit }
    ensures { IfOk result (λ entries. entries.items ≡ map (entry points.now.points) (indices points.now.points)) }
{
    let (eastings, northings) = sums(points);
    let count = points.len();
    let mut entries = Vec::with_capacity(alloc, count)?;
    for index in 0..count {
        let distance = scaled_distance(count as u64, eastings, northings, points.at(index));
        entries.push_reserved((distance, index));
    }
    Ok(entries)
}
