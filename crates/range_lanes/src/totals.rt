// The sums of many coordinates.

ghost use Rattle.std.specs.Prelude.{◌≡◌, ◌*◌, ◌≤◌, All, pos, length, map};
ghost use Rattle.range_plane.specs.Fix.{fix_limit};
ghost use Rattle.range_plane.specs.Plane.{IsCoordinate, coordinate_limit};
ghost use Rattle.range_lanes.specs.Totals.{IsSumOf, total};

use crate::lanes::{LANE_COUNT, Lanes};
use range_plane::Columns;
use std::alloc::Allocator;

/// The sum of the eastings and the sum of the northings.
pub fn sums<A: Allocator>(cols: &Columns<A>) -> (u64, u64)
    requires { length cols.now.points ≤ fix_limit }
    ensures eastings { pos result.0 ≡ total (map (λ p. p.e) cols.now.points) }
    ensures northings { pos result.1 ≡ total (map (λ p. p.n) cols.now.points) }
    ensures bounds { (result.0 ≤ length cols.now.points * coordinate_limit)
        × (result.1 ≤ length cols.now.points * coordinate_limit) }
{
    (sum_of(cols.eastings()), sum_of(cols.northings()))
}

// The sum of the coordinates.
fn sum_of(coordinates: &[i64]) -> u64
    requires limits { All IsCoordinate coordinates.now }
    requires few { length coordinates.now ≤ fix_limit }
    ensures value { pos result ≡ total coordinates.now }
    ensures bound { result ≤ length coordinates.now * coordinate_limit }
{
    let mut partial = Lanes::splat(0);
    let whole = coordinates.len() / LANE_COUNT;
    for group in 0..whole {
        partial = partial.plus(Lanes::load(coordinates, LANE_COUNT * group));
    }
    let rest = &coordinates[LANE_COUNT * whole..];
    (plain_sum(&partial.to_array()) + plain_sum(rest)) as u64
}

// The sum of at most eight numbers, each itself a sum of coordinates, one at a time.
fn plain_sum(numbers: &[i64]) -> i64
    requires few { length numbers.now ≤ LANE_COUNT }
    requires limits { All (IsSumOf fix_limit) numbers.now }
    ensures { result ≡ total numbers.now }
{
    let mut sum = 0;
    for number in numbers {
        sum += *number;
    }
    sum
}
