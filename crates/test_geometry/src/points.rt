// Points, and lists, polygons and hulls of them, for the tests.

use range_hull::OnlineHull;
use range_plane::{COORDINATE_LIMIT, Columns, FIX_LIMIT, Point, Polygon};
use std::alloc::{Allocator, Global};
use std::process::Abort;
use std::test::Fail;
use test_doubles::{are_at, next_random};

pub(crate) const SQUARE: [(i64, i64); 5] = [(0, 0), (10, 0), (10, 10), (0, 10), (5, 5)];

pub(crate) const SEGMENT: [(i64, i64); 3] = [(5, 5), (10, 5), (20, 5)];

// The greatest square in metres, and in decimetres.
pub(crate) const METRE_LIMITS: [(i64, i64); 4] = [
    (0, 0),
    (16_777_216, 0),
    (16_777_216, 16_777_216),
    (0, 16_777_216),
];

pub(crate) const DECIMETRE_LIMITS: [(i64, i64); 4] = [
    (0, 0),
    (COORDINATE_LIMIT, 0),
    (COORDINATE_LIMIT, COORDINATE_LIMIT),
    (0, COORDINATE_LIMIT),
];

// Six points, the last of which takes the corner away that the third is until then.
pub(crate) const HEXAGON: [(i64, i64); 6] = [(0, 0), (4, 0), (5, 2), (4, 4), (0, 4), (10, 2)];

pub(crate) const HEXAGON_CORNERS: [(i64, i64); 5] = [(0, 0), (4, 0), (10, 2), (4, 4), (0, 4)];

// Six points as far from their mean as each other.
pub(crate) const RING: [(i64, i64); 6] = [(10, 5), (0, 5), (8, 9), (2, 1), (9, 2), (1, 8)];

// Two dozen points of a lattice, with repeats and many in line, and a few far ones.
pub(crate) const LATTICE: [(i64, i64); 24] = [
    (5, 5),
    (5, 5),
    (6, 4),
    (4, 6),
    (7, 7),
    (3, 3),
    (5, 9),
    (9, 5),
    (2, 8),
    (8, 2),
    (5, 1),
    (1, 5),
    (9, 9),
    (1, 1),
    (1, 9),
    (9, 1),
    (5, 5),
    (12, 5),
    (5, 12),
    (0, 0),
    (16, 0),
    (8, 16_777_216),
    (16_777_216, 3),
    (4, 4),
];

// Points; how many corners each first part of them has, and which doubled area; and the corners of all.
pub(crate) type Worked = (
    &'static [(i64, i64)],
    &'static [(u32, u128)],
    &'static [(i64, i64)],
);

// Lists of points whose polygons were made by hand.
pub(crate) const WORKED: [Worked; 8] = [
    (
        &SQUARE,
        &[(1, 0), (2, 0), (3, 100), (4, 200), (4, 200)],
        &[(0, 0), (10, 0), (10, 10), (0, 10)],
    ),
    (&SEGMENT, &[(1, 0), (2, 0), (2, 0)], &[(5, 5), (20, 5)]),
    (
        &METRE_LIMITS,
        &[
            (1, 0),
            (2, 0),
            (3, 281_474_976_710_656),
            (4, 562_949_953_421_312),
        ],
        &METRE_LIMITS,
    ),
    (
        &DECIMETRE_LIMITS,
        &[
            (1, 0),
            (2, 0),
            (3, 18_014_398_509_481_984),
            (4, 36_028_797_018_963_968),
        ],
        &DECIMETRE_LIMITS,
    ),
    (
        &[(7, 7), (7, 7), (7, 7)],
        &[(1, 0), (1, 0), (1, 0)],
        &[(7, 7)],
    ),
    (
        &[(0, 0), (2, 2), (1, 1), (4, 4)],
        &[(1, 0), (2, 0), (2, 0), (2, 0)],
        &[(0, 0), (4, 4)],
    ),
    (
        &[(5, 5), (6, 5), (6, 6), (0, 5)],
        &[(1, 0), (2, 0), (3, 1), (3, 6)],
        &[(0, 5), (6, 5), (6, 6)],
    ),
    (
        &HEXAGON,
        &[(1, 0), (2, 0), (3, 8), (4, 20), (5, 36), (5, 56)],
        &HEXAGON_CORNERS,
    ),
];

pub(crate) fn point((e, n): (i64, i64)) -> Result<Point, Fail> {
    Ok(Point::new(e, n).ok_or("no point")?)
}

pub(crate) fn points_of(alloc: Global, positions: &[(i64, i64)]) -> Result<Vec<Point>, Fail> {
    let mut points = Vec::new(alloc);
    for position in positions {
        points.push(point(*position)?)?;
    }
    Ok(points)
}

pub(crate) fn columns_of(alloc: Global, positions: &[(i64, i64)]) -> Result<Columns, Fail> {
    let mut columns = Columns::new(alloc);
    for position in positions {
        columns.push(point(*position)?)?;
    }
    Ok(columns)
}

// So many points anywhere in a square of this side, one less than a power of two.
pub(crate) fn scattered(alloc: Global, count: u32, mask: u32) -> Result<Columns, Fail> {
    let mut columns = Columns::new(alloc);
    let mut seed = 1;
    for _ in 0..count {
        seed = next_random(seed);
        let e = (seed >> 33) as u32 & mask;
        seed = next_random(seed);
        let n = (seed >> 33) as u32 & mask;
        let p = point((i64::from(e), i64::from(n)))?;
        columns.push(p)?;
    }
    Ok(columns)
}

// The polygon of few points.
pub(crate) fn plain_of(rt: &impl Abort, alloc: Global, points: &[Point]) -> Result<Polygon, Fail> {
    assert!(rt; points.len() < 100);
    Ok(Polygon::plain(alloc, points)?)
}

// The polygon of the points at few positions.
pub(crate) fn plain_at(
    rt: &impl Abort,
    alloc: Global,
    positions: &[(i64, i64)],
) -> Result<Polygon, Fail> {
    plain_of(rt, alloc, &points_of(alloc, positions)?)
}

// The points `(i, i * i)`, for i from 0 on.
pub(crate) fn parabola(alloc: Global, count: u16) -> Result<Vec<Point>, Fail> {
    let mut points = Vec::new(alloc);
    for i in 0..count {
        let e = i64::from(i);
        points.push(point((e, e.wrapping_mul(e)))?)?;
    }
    Ok(points)
}

// The points `(i, 4095 * 4095 - i * i)`, for i from 0 on, of which there are 4096 at most.
pub(crate) fn arch(alloc: Global, count: u16) -> Result<Vec<Point>, Fail> {
    let mut points = Vec::new(alloc);
    for p in &parabola(alloc, count)? {
        let n = i64::wrapping_sub(4095 * 4095, p.n);
        points.push(point((p.e, n))?)?;
    }
    Ok(points)
}

// Inserts a point for which there has to be room.
pub(crate) fn insert<A: Allocator>(rt: &impl Abort, hull: &mut OnlineHull<A>, p: Point) {
    assert!(rt; hull.spare() > 0 && hull.points() < FIX_LIMIT, "room");
    hull.insert(p);
}

// The hull of the points, inserted one after the other.
pub(crate) fn hull_of(
    rt: &impl Abort,
    alloc: Global,
    points: &[Point],
) -> Result<OnlineHull, Fail> {
    let mut hull = OnlineHull::new(alloc);
    hull.reserve(points.len())?;
    for p in points {
        insert(rt, &mut hull, *p);
    }
    Ok(hull)
}

// The hull of the points at these positions, in turn.
pub(crate) fn hull_at(
    rt: &impl Abort,
    alloc: Global,
    positions: &[(i64, i64)],
) -> Result<OnlineHull, Fail> {
    hull_of(rt, alloc, &points_of(alloc, positions)?)
}

// Whether the polygon of the hull can be made, and has these corners, in this order.
pub(crate) fn has_corners<A: Allocator>(
    alloc: Global,
    hull: &OnlineHull<A>,
    corners: &[Point],
) -> bool {
    usize::try_from(hull.corner_count()) == Ok(corners.len())
        && hull
            .polygon(alloc)
            .is_ok_and(|polygon| polygon.corners() == corners)
}

// The same, of the corners at these positions.
pub(crate) fn has_corners_at<A: Allocator>(
    alloc: Global,
    hull: &OnlineHull<A>,
    corners: &[(i64, i64)],
) -> bool {
    usize::try_from(hull.corner_count()) == Ok(corners.len())
        && hull
            .polygon(alloc)
            .is_ok_and(|polygon| are_at(polygon.corners(), corners))
}
