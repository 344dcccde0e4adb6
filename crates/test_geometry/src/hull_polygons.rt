// Tests of the hull against `Polygon::plain`, which makes polygons straight from the definitions.

use crate::points::{LATTICE, has_corners, insert, plain_of, points_of};
use range_hull::OnlineHull;
use range_plane::{COORDINATE_LIMIT, Point};
use std::alloc::Global;
use std::process::Abort;
use std::test::Fail;
use test_doubles::next_random;

// Checks the hull of each first part of the points, of which there are few.
fn expect_plain(rt: &impl Abort, alloc: Global, points: &[Point]) -> Result<(), Fail> {
    let mut hull = OnlineHull::new(alloc);
    hull.reserve(points.len())?;
    for (i, p) in points.iter().enumerate() {
        insert(rt, &mut hull, *p);
        let first = &points[..=i];
        let polygon = plain_of(rt, alloc, first)?;
        assert!(rt;
            has_corners(alloc, &hull, polygon.corners()),
            "corners to {i}"
        );
        assert!(rt; hull.area2() == polygon.area2(), "area to {i}");
    }
    Ok(())
}

#[test]
fn the_hull_of_each_first_part_is_its_polygon(rt: HostRuntime) -> Result<(), Fail> {
    expect_plain(&rt, rt.alloc(), &points_of(rt.alloc(), &LATTICE)?)
}

// How the coordinates of a cloud are drawn.
#[derive(Clone, Copy)]
enum Cloud {
    // Below this number, so that small ones bring repeats and many points in line.
    Below(u64),
    // At the limits and at the middle between them, or beside these.
    Limits,
}

impl Cloud {
    fn coordinate(self, seed: u64) -> i64 {
        let random = seed >> 33;
        match self {
            Cloud::Below(bound) => random.checked_rem(bound).unwrap_or(0) as i64,
            Cloud::Limits => match random % 6 {
                0 => 0,
                1 => 1,
                2 => COORDINATE_LIMIT / 2,
                3 => COORDINATE_LIMIT / 2 + 1,
                4 => COORDINATE_LIMIT - 1,
                _ => COORDINATE_LIMIT,
            },
        }
    }

    fn points(self, alloc: Global, seed: &mut u64) -> Result<Vec<Point>, Fail> {
        let mut points = Vec::new(alloc);
        for _ in 0..16 {
            *seed = next_random(*seed);
            let e = self.coordinate(*seed);
            *seed = next_random(*seed);
            let n = self.coordinate(*seed);
            let p = Point::new(e, n).ok_or("no point")?;
            points.push(p)?;
        }
        Ok(points)
    }
}

#[test]
fn the_hulls_of_random_points_are_their_polygons(rt: HostRuntime) -> Result<(), Fail> {
    let alloc = rt.alloc();
    let mut seed = 1;
    for cloud in [
        Cloud::Below(2),
        Cloud::Below(3),
        Cloud::Below(5),
        Cloud::Below(12),
        Cloud::Below(1000),
        Cloud::Below(1 << 24),
        Cloud::Limits,
    ] {
        for _ in 0..12 {
            expect_plain(&rt, alloc, &cloud.points(alloc, &mut seed)?)?;
        }
    }
    Ok(())
}
