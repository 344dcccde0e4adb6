// Tests of worked lists of points, whose polygons were made by hand.

use crate::points::{
    HEXAGON, HEXAGON_CORNERS, WORKED, arch, has_corners, has_corners_at, hull_at, hull_of, insert,
    parabola, point,
};
use range_hull::OnlineHull;
use range_plane::{FIX_LIMIT, Point};
use std::alloc::Global;
use std::process::Abort;
use std::test::Fail;

// Inserts a point, and checks how many corners there are then, and their doubled area.
fn expect_row(rt: &impl Abort, hull: &mut OnlineHull, p: Point, (corners, area2): (u32, u128)) {
    insert(rt, hull, p);
    let n = hull.points();
    assert!(rt; hull.corner_count() == corners, "corners of the first {n}");
    assert!(rt; hull.area2() == area2, "area of the first {n}");
}

// Checks the corners and the doubled area after each of the points, and the corners in the end.
fn expect_rows(
    rt: &impl Abort,
    alloc: Global,
    positions: &[(i64, i64)],
    rows: &[(u32, u128)],
    corners: &[(i64, i64)],
) -> Result<(), Fail> {
    let mut hull = OnlineHull::new(alloc);
    hull.reserve(positions.len())?;
    assert!(rt; positions.len() == rows.len(), "rows");
    for (position, row) in positions.iter().zip(rows) {
        expect_row(rt, &mut hull, point(*position)?, *row);
    }
    assert!(rt; has_corners_at(alloc, &hull, corners), "corners");
    Ok(())
}

#[test]
fn each_insert_gives_these_corners_and_this_area(rt: HostRuntime) -> Result<(), Fail> {
    for (positions, rows, corners) in WORKED {
        expect_rows(&rt, rt.alloc(), positions, rows, corners)?;
    }
    Ok(())
}

#[test]
fn an_empty_hull_has_no_corner_and_no_area(rt: HostRuntime) {
    let hull = OnlineHull::new(rt.alloc());
    assert!(rt; has_corners(rt.alloc(), &hull, &[]));
    assert!(rt; hull.points() == 0 && hull.turns() == 0 && hull.area2() == 0);
}

// Five corners bound three triangles, each of which took a turn.
#[test]
fn six_inserts_take_few_turns(rt: HostRuntime) -> Result<(), Fail> {
    let hull = hull_at(&rt, rt.alloc(), &HEXAGON)?;
    let turns = hull.turns();
    assert!(rt; (3..=48).contains(&turns), "{turns} turns");
    Ok(())
}

// Checks the hull of the points of a parabola or an arch, of which all are corners, in this order, after few turns.
fn expect_all_corners(
    rt: &impl Abort,
    alloc: Global,
    points: &[Point],
    corners: &[Point],
) -> Result<(), Fail> {
    let hull = hull_of(rt, alloc, points)?;
    let turns = hull.turns();
    assert_eq!(rt; hull.area2(), 22_889_717_760, "area");
    assert!(rt; (4094..=32_768).contains(&turns), "{turns} turns");
    assert!(rt; has_corners(alloc, &hull, corners), "corners");
    Ok(())
}

#[test]
fn a_parabola_is_all_corners_in_either_order(rt: HostRuntime) -> Result<(), Fail> {
    let alloc = rt.alloc();
    let rising = parabola(alloc, 4096)?;
    let mut falling = parabola(alloc, 4096)?;
    falling.reverse();
    expect_all_corners(&rt, alloc, &rising, &rising)?;
    expect_all_corners(&rt, alloc, &falling, &rising)
}

// The same upside down: all corners but the ends stand above the line between them.
#[test]
fn an_arch_is_all_corners_in_either_order(rt: HostRuntime) -> Result<(), Fail> {
    let alloc = rt.alloc();
    let rising = arch(alloc, 4096)?;
    let mut falling = arch(alloc, 4096)?;
    falling.reverse();
    let mut corners = arch(alloc, 1)?;
    corners.extend_from_slice(&falling)?;
    corners.pop();
    expect_all_corners(&rt, alloc, &rising, &corners)?;
    expect_all_corners(&rt, alloc, &falling, &corners)
}

// Skips a point, which the hull covers.
fn expect_skipped(rt: &impl Abort, hull: &mut OnlineHull, p: Point) {
    let (turns, spare) = (hull.turns(), hull.spare());
    assert!(rt; hull.covers(p) && hull.points() < FIX_LIMIT, "may skip");
    hull.skip(p);
    assert!(rt; hull.points() == 7 && hull.inserted() == 6, "counts");
    assert!(rt;
        hull.turns() == turns && hull.spare() == spare,
        "turns and room"
    );
    assert!(rt; hull.area2() == 56, "area");
}

#[test]
fn skip_changes_the_count_alone(rt: HostRuntime) -> Result<(), Fail> {
    let mut hull = hull_at(&rt, rt.alloc(), &HEXAGON)?;
    expect_skipped(&rt, &mut hull, Point { e: 3, n: 2 });
    assert!(rt;
        has_corners_at(rt.alloc(), &hull, &HEXAGON_CORNERS),
        "corners"
    );
    Ok(())
}
