// Tests of failed allocations.

use crate::allocations::is_last_run;
use crate::points::{HEXAGON, HEXAGON_CORNERS, has_corners_at, hull_at, insert, points_of};
use range_hull::OnlineHull;
use range_plane::Point;
use std::alloc::{Allocator, Global};
use std::process::Abort;
use std::test::Fail;
use test_doubles::{MANY_ALLOCATIONS, Refusing, are_at};

// Either chain takes memory at least twice.
const LEAST_ALLOCATIONS: u32 = 4;

// Makes room, again where it is refused, which leaves the corners and all counts. Whether it was refused.
fn reserve<A: Allocator + Copy>(
    rt: &impl Abort,
    alloc: Global,
    hull: &mut OnlineHull<A>,
    room: usize,
    corners: &[(i64, i64)],
) -> bool {
    let counts = counts_of(hull);
    if hull.reserve(room).is_ok() {
        return false;
    }
    assert!(rt; counts_of(hull) == counts, "counts after a refusal");
    assert!(rt;
        has_corners_at(alloc, hull, corners),
        "corners after a refusal"
    );
    assert!(rt; hull.reserve(room).is_ok(), "again");
    true
}

// The points, those inserted, the turns and the doubled area.
fn counts_of<A: Allocator>(hull: &OnlineHull<A>) -> (u32, u32, u64, u128) {
    (hull.points(), hull.inserted(), hull.turns(), hull.area2())
}

// Makes the hull of the hexagon, with room before and more room after. How many allocations were refused.
fn reserve_twice<A: Allocator + Copy>(
    rt: &impl Abort,
    alloc: Global,
    refusing: A,
    points: &[Point],
) -> u32 {
    let mut hull = OnlineHull::new(refusing);
    let first = reserve(rt, alloc, &mut hull, 6, &[]);
    for p in points {
        insert(rt, &mut hull, *p);
    }
    let second = reserve(rt, alloc, &mut hull, 1000, &HEXAGON_CORNERS);
    assert!(rt; hull.points() == 6 && hull.inserted() == 6, "six points");
    assert!(rt; hull.spare() >= 1000 && hull.area2() == 56, "room and area");
    assert!(rt;
        has_corners_at(alloc, &hull, &HEXAGON_CORNERS),
        "in the end"
    );
    u32::from(first) + u32::from(second)
}

#[test]
fn reserve_fails_only_at_a_refused_allocation(rt: HostRuntime) -> Result<(), Fail> {
    let points = points_of(rt.alloc(), &HEXAGON)?;
    for number in 1..MANY_ALLOCATIONS {
        let alloc = Refusing::new(rt.alloc(), number);
        let refusals = reserve_twice(&rt, rt.alloc(), &alloc, &points);
        if is_last_run(&rt, &alloc, number, refusals, LEAST_ALLOCATIONS) {
            return Ok(());
        }
    }
    Err(Fail::from("no run without a refusal"))
}

// Makes the polygon of a hull, again where it is refused. How often it was refused.
fn polygon_again<A: Allocator + Copy>(rt: &impl Abort, refusing: A, hull: &OnlineHull) -> u32 {
    let polygon = hull.polygon(refusing);
    let refusals = u32::from(polygon.is_err());
    let polygon = polygon
        .or_else(|_| hull.polygon(refusing))
        .expect(rt, "again");
    assert!(rt; are_at(polygon.corners(), &HEXAGON_CORNERS), "corners");
    refusals
}

#[test]
fn polygon_fails_only_at_a_refused_allocation(rt: HostRuntime) -> Result<(), Fail> {
    let hull = hull_at(&rt, rt.alloc(), &HEXAGON)?;
    for number in 1..MANY_ALLOCATIONS {
        let alloc = Refusing::new(rt.alloc(), number);
        let refusals = polygon_again(&rt, &alloc, &hull);
        if is_last_run(&rt, &alloc, number, refusals, 1) {
            return Ok(());
        }
    }
    Err(Fail::from("no run without a refusal"))
}
