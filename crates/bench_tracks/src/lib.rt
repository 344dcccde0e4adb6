//! Points for the benches: the tracks of made-up animals, the same in each run.
#![tactic(auto)]

ghost use Rattle.std.specs.Prelude.{◌≡◌, IfOk};
ghost use Rattle.std.specs.List.Sorted.{IsPermutation};

use range_plane::{Columns, OutOfMemory, Point};
use std::alloc::{AllocError, Global};

/// How many points a track has: 2^20.
pub const TRACK_POINTS: usize = 1 << 20;

// The tracks lie in a square of this side, as far as files in metres go.
const SIDE: i64 = 1 << 24;

const MIDDLE: i64 = SIDE / 2;

// How far the spiral begins from the middle, in metres: its end then is some 7,500 km from there.
const SPIRAL_START: i64 = 2500;

// A spiral's position is kept in parts of a metre, 2^20 of them.
const SPIRAL_BITS: u32 = 20;

// The next number of Knuth's generator for MMIX.
fn next(seed: u64) -> u64 {
    seed.wrapping_mul(6364136223846793005)
        .wrapping_add(1442695040888963407)
}

/// Points anywhere.
pub fn cloud(alloc: Global) -> Result<Vec<Point>, AllocError> {
    let mut points = Vec::new(alloc);
    let mut seed = 1;
    for _ in 0..TRACK_POINTS {
        seed = next(seed);
        let e = (seed >> 40) as i64;
        seed = next(seed);
        let n = (seed >> 40) as i64;
        if let Some(p) = Point::new(e, n) {
            points.push(p)?;
        }
    }
    Ok(points)
}

// The coordinate after `last` of a walk.
fn step(last: i64, seed: u64) -> i64 {
    let step = ((seed >> 53) as i64) - 1024;
    last.wrapping_add(step).clamp(0, SIDE)
}

/// Points each at most 1,024 metres from the one before, along each axis.
pub fn walk(alloc: Global) -> Result<Vec<Point>, AllocError> {
    let mut points = Vec::new(alloc);
    let mut seed = 1;
    let (mut e, mut n) = (MIDDLE, MIDDLE);
    for _ in 0..TRACK_POINTS {
        seed = next(seed);
        e = step(e, seed);
        seed = next(seed);
        n = step(n, seed);
        if let Some(p) = Point::new(e, n) {
            points.push(p)?;
        }
    }
    Ok(points)
}

/// Points each an angle of 1/256 on from the one before as seen from the middle, and a little farther out.
pub fn spiral(alloc: Global) -> Result<Vec<Point>, AllocError> {
    let mut points = Vec::new(alloc);
    let (mut x, mut y) = (SPIRAL_START << SPIRAL_BITS, 0_i64);
    for _ in 0..TRACK_POINTS {
        (x, y) = (x.wrapping_sub(y >> 8), y.wrapping_add(x >> 8));
        let e = MIDDLE.wrapping_add(x >> SPIRAL_BITS);
        let n = MIDDLE.wrapping_add(y >> SPIRAL_BITS);
        if let Some(p) = Point::new(e, n) {
            points.push(p)?;
        }
    }
    Ok(points)
}

// The point of a line `easting,northing`.
fn point_of(line: &str) -> Option<Point> {
    let (e, n) = line.split_once(',')?;
    Point::new(e.parse().ok()?, n.parse().ok()?)
}

/// The points of a text with an easting and a northing in each line. Lines of other kinds are left out.
pub fn read_points(alloc: Global, text: &str) -> Result<Vec<Point>, AllocError> {
    text.lines().filter_map(point_of).collect(alloc)
}

/// The points in columns.
pub fn columns_of(alloc: Global, points: &[Point]) -> Result<Columns, OutOfMemory>
    ensures { IfOk result (λ columns. columns.points ≡ points.now) }
{
    let mut columns = Columns::new(alloc);
    for p in points {
        columns.push(*p)?;
    }
    Ok(columns)
}

/// Puts the points into another order (Fisher and Yates 1938).
pub fn shuffle(points: &mut [Point])
    ensures { IsPermutation points.old points.new }
{
    let mut seed = 1;
    for i in (1..points.len()).rev() {
        seed = next(seed);
        let j = ((seed >> 33) as usize) % (i + 1);
        points.swap(i, j);
    }
}

#[cfg(test)]
mod tests {
    use super::*;
    use std::process::Abort;

    fn point(rt: &impl Abort, (e, n): (i64, i64)) -> Point {
        Point::new(e, n).expect(rt, "a point")
    }

    // Checks how many points a track has, the first two and the last.
    fn expect_track(
        rt: &impl Abort,
        track: Result<Vec<Point>, AllocError>,
        expected: [(i64, i64); 3],
    ) {
        let Ok(points) = track else {
            assert!(rt; false, "memory");
            return;
        };
        assert_eq!(rt; points.len(), TRACK_POINTS);
        let ends = [points[0], points[1], points[TRACK_POINTS - 1]];
        for (end, position) in ends.iter().zip(expected) {
            assert!(rt; *end == point(rt, position), "{position:?}");
        }
    }

    // The positions are those that the same steps in Python come to.
    #[test]
    fn tracks_begin_and_end_where_they_should(rt: HostRuntime) {
        let cloud_ends = [
            (7_100_271, 8_546_438),
            (10_877_665, 6_423_381),
            (12_328_885, 11_310_625),
        ];
        expect_track(&rt, cloud(rt.alloc()), cloud_ends);
        let walk_ends = [
            (8_388_450, 8_388_627),
            (8_388_753, 8_388_387),
            (7_601_451, 7_921_903),
        ];
        expect_track(&rt, walk(rt.alloc()), walk_ends);
        let spiral_ends = [
            (8_391_108, 8_388_617),
            (8_391_107, 8_388_627),
            (14_286_287, 3_833_524),
        ];
        expect_track(&rt, spiral(rt.alloc()), spiral_ends);
    }

    #[test]
    fn lines_of_other_kinds_are_left_out(rt: HostRuntime) {
        let text = "1,2\neasting,northing\n3\n-1,5\n4,5,6\n7,8";
        let Ok(points) = read_points(rt.alloc(), text) else {
            assert!(rt; false, "memory");
            return;
        };
        let expected = [point(&rt, (1, 2)), point(&rt, (7, 8))];
        assert!(rt; points.as_slice() == expected.as_slice());
    }

    // A line from the origin, shuffled: each point is there, in another order, and in the columns as in the list.
    #[test]
    fn shuffled_points_in_columns(rt: HostRuntime) {
        let Ok(line) = read_points(rt.alloc(), "0,0\n1,1\n2,2\n3,3") else {
            assert!(rt; false, "memory");
            return;
        };
        let mut points = Vec::from_slice(rt.alloc(), &line).expect(&rt, "memory");
        shuffle(&mut points);
        assert!(rt; points != line && points.len() == 4);
        for p in &line {
            assert!(rt; points.contains(p));
        }
        let columns = columns_of(rt.alloc(), &points).expect(&rt, "memory");
        assert_eq!(rt; columns.len(), points.len());
        for i in 0..points.len() {
            assert!(rt; columns.at(i) == points[i]);
        }
    }
}
