// Tests of what a polygon with given corners covers.

use crate::points::points_of;
use range_plane::{COORDINATE_LIMIT, Point, Polygon, are_corners};
use std::alloc::Global;
use std::process::Abort;
use std::test::Fail;
use test_doubles::are_at;

// A northing, and the first and the last easting of the points there that are covered. Where the first
// is above the last none is.
type Row = (i64, i64, i64);

fn polygon_of(rt: &impl Abort, alloc: Global, corners: &[(i64, i64)]) -> Result<Polygon, Fail> {
    let corners = points_of(alloc, corners)?;
    assert!(rt; are_corners(&corners), "corners");
    Ok(Polygon::of_corners(corners))
}

fn has(polygon: &Polygon, e: i64, n: i64) -> bool {
    Point::new(e, n).is_some_and(|q| polygon.covers(q))
}

// Whether the polygon covers what the row says, of the points up to the easting 9.
fn has_row(polygon: &Polygon, (n, first, last): Row) -> bool {
    (0..10).all(|e| has(polygon, e, n) == (first..=last).contains(&e))
}

const TRIANGLE: [(i64, i64); 3] = [(0, 0), (4, 0), (0, 4)];

const PENTAGON: [(i64, i64); 5] = [(0, 1), (1, 0), (3, 0), (4, 2), (2, 4)];

#[test]
fn a_polygon_covers_these_points_of_each_row(rt: HostRuntime) -> Result<(), Fail> {
    let cases = [
        ([].as_slice(), [(0, 1, 0)].as_slice()),
        (&[(3, 4)], &[(3, 1, 0), (4, 3, 3), (5, 1, 0)]),
        (
            &[(2, 1), (6, 3)],
            &[(0, 1, 0), (1, 2, 2), (2, 4, 4), (3, 6, 6), (4, 1, 0)],
        ),
        (
            &TRIANGLE,
            &[
                (0, 0, 4),
                (1, 0, 3),
                (2, 0, 2),
                (3, 0, 1),
                (4, 0, 0),
                (5, 1, 0),
            ],
        ),
        (
            &PENTAGON,
            &[
                (0, 1, 3),
                (1, 0, 3),
                (2, 1, 4),
                (3, 2, 3),
                (4, 2, 2),
                (5, 1, 0),
            ],
        ),
    ];
    for (corners, rows) in cases {
        let polygon = polygon_of(&rt, rt.alloc(), corners)?;
        for row in rows {
            assert!(rt; has_row(&polygon, *row), "{corners:?} {row:?}");
        }
    }
    Ok(())
}

// The corners are those handed in, in their order, and have this doubled area.
#[test]
fn a_polygon_keeps_its_corners_and_has_their_area(rt: HostRuntime) -> Result<(), Fail> {
    let cases = [
        ([].as_slice(), 0),
        (&[(3, 4)], 0),
        (&[(2, 1), (6, 3)], 0),
        (&[(0, 0), (1, 0), (0, 1)], 1),
        (&TRIANGLE, 16),
        (&PENTAGON, 19),
    ];
    for (corners, area2) in cases {
        let polygon = polygon_of(&rt, rt.alloc(), corners)?;
        assert!(rt; are_at(polygon.corners(), corners), "{corners:?}");
        assert!(rt; polygon.area2() == area2, "{corners:?}");
    }
    Ok(())
}

#[test]
fn a_rhombus_at_the_limits_covers_its_edges_and_nothing_outside(
    rt: HostRuntime,
) -> Result<(), Fail> {
    let (half, far) = (COORDINATE_LIMIT / 2, COORDINATE_LIMIT);
    let polygon = polygon_of(
        &rt,
        rt.alloc(),
        &[(0, half), (half, 0), (far, half), (half, far)],
    )?;
    let positions = [
        (0, half, true),
        (half, 0, true),
        (1, half + 1, true),
        (half + 1, 1, true),
        (half, half, true),
        (0, 0, false),
        (0, half - 1, false),
        (1, half + 2, false),
        (far, half + 1, false),
    ];
    for (e, n, inside) in positions {
        assert!(rt; has(&polygon, e, n) == inside, "{e} {n}");
    }
    Ok(())
}
