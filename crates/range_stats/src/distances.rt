// The distances of points from their mean, and keys by which the points are ranked.

ghost use Rattle.std.specs.Prelude.{◌≡◌, ◌*◌, ◌<◌, ◌≤◌, ◌-ℤ◌, ◌*ℤ◌, pos, unsigned_abs, IfOk, length, map};
ghost use Rattle.range_plane.specs.Fix.{fix_limit};
ghost use Rattle.range_plane.specs.Plane.{IsCoordinate, coordinate_limit};
ghost use Rattle.range_stats.specs.Keys.{distance_limit, index_in, key_of};
ghost use Rattle.range_stats.specs.Percent.{entry, indices, scaled_distance, square};

use range_lanes::sums;
use range_plane::{Columns, FIX_LIMIT, OutOfMemory, Point};
use std::alloc::Allocator;

// How many indices there are beside each distance.
const INDEX_COUNT: u128 = FIX_LIMIT as u128;

// How far a coordinate lies from the mean of points, times their number. `sum` is the sum of their coordinates.
fn offset(count: u64, coordinate: i64, sum: u64) -> i64
    requires count { count ≤ fix_limit }
    requires coordinate { IsCoordinate coordinate }
    requires sum { sum ≤ fix_limit * coordinate_limit }
    ensures value { result ≡ pos count *ℤ coordinate -ℤ pos sum }
    ensures bound { unsigned_abs result ≤ fix_limit * coordinate_limit }
{
    count as i64 * coordinate - sum as i64
}

// The square of a number.
fn square(number: i64) -> u128
    ensures { result ≡ square number }
{
    let number = i128::from(number);
    (number * number) as u128
}

// The squared distance of `p` from the mean of points, times the square of their number: so it is a whole
// number. `count` is their number, the others are the sums of their coordinates.
fn scaled_distance(count: u64, eastings: u64, northings: u64, p: Point) -> u128
    requires count { count ≤ fix_limit }
    requires eastings { eastings ≤ fix_limit * coordinate_limit }
    requires northings { northings ≤ fix_limit * coordinate_limit }
    ensures value { result ≡ scaled_distance count (pos eastings) (pos northings) p }
    ensures bound { result ≤ distance_limit }
{
    square(offset(count, p.e, eastings)) + square(offset(count, p.n, northings))
}

// A distance and an index as one number.
fn key_of(distance: u128, index: usize) -> u128
    requires distance { distance ≤ distance_limit }
    requires index { index < fix_limit }
    ensures { result ≡ key_of (distance, index) }
{
    distance * INDEX_COUNT + index as u128
}

// The index in a key.
pub(crate) fn index_in(key: u128) -> u32
    ensures { result ≡ index_in key }
{
    (key % INDEX_COUNT) as u32
}

// The key of each point: its distance from the mean of all, scaled as above, and its index.
pub(crate) fn distance_keys<A: Allocator, B: Allocator>(
    alloc: A,
    fixes: &Columns<B>,
) -> Result<Vec<u128, A>, OutOfMemory>
    requires { length fixes.now.points ≤ fix_limit }
    ensures { IfOk result (λ keys. keys.items
        ≡ map (λ i. key_of (entry fixes.now.points i)) (indices fixes.now.points)) }
{
    let (easting_sum, northing_sum) = sums(fixes);
    let (eastings, northings) = (fixes.eastings(), fixes.northings());
    let count = fixes.len();
    let mut keys = Vec::with_capacity(alloc, count)?;
    for index in 0..count {
        let point = Point {
            e: eastings[index],
            n: northings[index],
        };
        let distance = scaled_distance(count as u64, easting_sum, northing_sum, point);
        keys.push_reserved(key_of(distance, index));
    }
    Ok(keys)
}
