// Tests of what a hull covers, against the polygon of the same points.

use crate::points::{HEXAGON, LATTICE, arch, hull_at, hull_of, parabola, point, points_of};
use range_hull::OnlineHull;
use range_plane::Point;
use std::process::Abort;
use std::test::Fail;

// Checks the hull against its polygon at each point from (0, 0) up to (7, 7).
fn expect_polygon(rt: &(impl Abort + AllocGlobal), hull: &OnlineHull) -> Result<(), Fail> {
    let polygon = hull.polygon(rt.alloc())?;
    for e in 0..8 {
        for n in 0..8 {
            let p = point((e, n))?;
            assert!(rt; hull.covers(p) == polygon.covers(p), "({e}, {n})");
        }
    }
    Ok(())
}

#[test]
fn a_hull_covers_what_its_polygon_covers(rt: HostRuntime) -> Result<(), Fail> {
    for positions in [HEXAGON.as_slice(), LATTICE.as_slice()] {
        let points = points_of(rt.alloc(), positions)?;
        for i in 0..=points.len() {
            expect_polygon(&rt, &hull_of(&rt, rt.alloc(), &points[..i])?)?;
        }
    }
    Ok(())
}

// Whether the hull covers the point here, if it is a point.
fn covers(hull: &OnlineHull, e: i64, n: i64) -> Option<bool> {
    Point::new(e, n).map(|p| hull.covers(p))
}

#[test]
fn covers_counts_no_turn(rt: HostRuntime) -> Result<(), Fail> {
    let hull = hull_at(&rt, rt.alloc(), &HEXAGON)?;
    let turns = hull.turns();
    assert!(rt; covers(&hull, 3, 2) == Some(true) && hull.turns() == turns);
    Ok(())
}

// Checks that the hull covers a corner, and what is next to it in the way inward, and not what is next to it outward.
fn expect_edge(rt: &impl Abort, hull: &OnlineHull, e: i64, n: i64, inward: i64) {
    assert!(rt; covers(hull, e, n) == Some(true), "corner {e}");
    let within = covers(hull, e, n.wrapping_add(inward));
    assert!(rt; within == Some(true), "within corner {e}");
    let outside = covers(hull, e, n.wrapping_sub(inward));
    assert!(rt; outside == Some(false), "outside corner {e}");
}

// Of a parabola the corners and what is above them are covered, and nothing below or beside it.
#[test]
fn a_parabola_covers_what_is_above_it_alone(rt: HostRuntime) -> Result<(), Fail> {
    let hull = hull_of(&rt, rt.alloc(), &parabola(rt.alloc(), 4096)?)?;
    for e in 1..4095 {
        let n = i64::wrapping_mul(e, e);
        expect_edge(&rt, &hull, e, n, 1);
    }
    let positions = [
        (0, 0, true),
        (0, 1, false),
        (2, 4095 * 2, true),
        (2, 4095 * 2 + 1, false),
        (4095, 4095 * 4095, true),
        (4096, 4096, false),
    ];
    for (e, n, covered) in positions {
        assert!(rt; covers(&hull, e, n) == Some(covered), "{e} {n}");
    }
    Ok(())
}

// Of one upside down the corners and what is below them are covered, and nothing above.
#[test]
fn an_arch_covers_what_is_below_it_alone(rt: HostRuntime) -> Result<(), Fail> {
    let hull = hull_of(&rt, rt.alloc(), &arch(rt.alloc(), 4096)?)?;
    for e in 1..4095 {
        let n = i64::wrapping_sub(4095 * 4095, i64::wrapping_mul(e, e));
        expect_edge(&rt, &hull, e, n, -1);
    }
    Ok(())
}
