// Tests of polygons by definition.

use crate::allocations::is_last_run;
use crate::points::{LATTICE, WORKED, Worked, plain_of, points_of};
use range_plane::{Point, Polygon};
use std::alloc::{Allocator, Global};
use std::process::Abort;
use std::test::Fail;
use test_doubles::{MANY_ALLOCATIONS, Refusing, are_at};

// The corners of the first 14 points of the lattice, for which a list grows more than once.
const OCTAGON: [(i64, i64); 8] = [
    (1, 1),
    (5, 1),
    (8, 2),
    (9, 5),
    (9, 9),
    (5, 9),
    (2, 8),
    (1, 5),
];

// The first corner takes memory, and so does one past those that the first allocation has room for.
const LEAST_ALLOCATIONS: u32 = 2;

// Checks how many corners the points have, and their doubled area.
fn expect_row(rt: &impl Abort, points: &[Point], polygon: &Polygon, (corners, area2): (u32, u128)) {
    let n = points.len();
    assert!(rt;
        u32::try_from(polygon.corners().len()) == Ok(corners),
        "corners of the first {n}"
    );
    assert!(rt; polygon.area2() == area2, "area of the first {n}");
}

// Checks the polygon of each first part of the points, and the corners of all.
fn expect_first_parts(
    rt: &impl Abort,
    alloc: Global,
    (positions, rows, corners): Worked,
) -> Result<(), Fail> {
    let points = points_of(alloc, positions)?;
    assert!(rt; positions.len() == rows.len(), "rows");
    for (i, row) in rows.iter().enumerate() {
        let first = &points[..points.len().min(i.saturating_add(1))];
        expect_row(rt, first, &plain_of(rt, alloc, first)?, *row);
    }
    let polygon = plain_of(rt, alloc, &points)?;
    assert!(rt; are_at(polygon.corners(), corners), "corners");
    Ok(())
}

#[test]
fn each_first_part_has_these_corners_and_this_area(rt: HostRuntime) -> Result<(), Fail> {
    for case in WORKED {
        expect_first_parts(&rt, rt.alloc(), case)?;
    }
    Ok(())
}

#[test]
fn without_a_point_there_is_no_corner_and_no_area(rt: HostRuntime) -> Result<(), Fail> {
    let polygon = plain_of(&rt, rt.alloc(), &[])?;
    assert!(rt; polygon.corners().is_empty() && polygon.area2() == 0);
    assert!(rt; !polygon.covers(Point { e: 0, n: 0 }));
    Ok(())
}

// Twice the signed area of a triangle, by other products than the crate's.
fn doubled(a: Point, b: Point, c: Point) -> i64 {
    let product = |p: Point, q: Point| {
        p.e.wrapping_mul(q.n).wrapping_sub(q.e.wrapping_mul(p.n))
    };
    product(a, b)
        .wrapping_add(product(b, c))
        .wrapping_add(product(c, a))
}

// How far apart two points are, by the longer coordinate.
fn apart(a: Point, b: Point) -> u64 {
    a.e.abs_diff(b.e).max(a.n.abs_diff(b.n))
}

// Whether `b` wraps tighter round the points than `best`, as seen from `a`.
fn wraps(a: Point, best: Point, b: Point) -> bool {
    let turn = doubled(a, best, b);
    best == a || turn < 0 || (turn == 0 && apart(a, b) > apart(a, best))
}

// The corners by gift wrapping (Jarvis 1973), from the first point by easting, then northing.
fn wrapped(alloc: Global, points: &[Point]) -> Result<Vec<Point>, Fail> {
    let mut corners = Vec::new(alloc);
    let Some(first) = points
        .iter()
        .copied()
        .reduce(|a, b| { if (b.e, b.n) < (a.e, a.n) { b } else { a } })
    else {
        return Ok(corners);
    };
    let mut at = first;
    for _ in 0..points.len() {
        corners.push(at)?;
        let mut best = at;
        for b in points {
            if *b != at && wraps(at, best, *b) {
                best = *b;
            }
        }
        if best == first {
            return Ok(corners);
        }
        at = best;
    }
    Ok(corners)
}

#[test]
fn plain_agrees_with_gift_wrapping(rt: HostRuntime) -> Result<(), Fail> {
    let alloc = rt.alloc();
    let points = points_of(alloc, &LATTICE)?;
    for count in 0..25 {
        let first = &points[..points.len().min(count)];
        let polygon = plain_of(&rt, alloc, first)?;
        let corners = wrapped(alloc, first)?;
        assert!(rt;
            polygon.corners() == corners.as_slice(),
            "the first {count}"
        );
    }
    Ok(())
}

// Makes a polygon, again where it is refused. How often it was refused.
fn plain_again<A: Allocator + Copy>(rt: &impl Abort, alloc: A, points: &[Point]) -> u32 {
    assert!(rt; points.len() < 100);
    let polygon = Polygon::plain(alloc, points);
    let refusals = u32::from(polygon.is_err());
    let polygon = polygon
        .or_else(|_| Polygon::plain(alloc, points))
        .expect(rt, "again");
    assert!(rt; are_at(polygon.corners(), &OCTAGON), "corners");
    refusals
}

#[test]
fn plain_fails_only_at_a_refused_allocation(rt: HostRuntime) -> Result<(), Fail> {
    let points = points_of(rt.alloc(), &LATTICE[..14])?;
    for number in 1..MANY_ALLOCATIONS {
        let alloc = Refusing::new(rt.alloc(), number);
        let refusals = plain_again(&rt, &alloc, &points);
        if is_last_run(&rt, &alloc, number, refusals, LEAST_ALLOCATIONS) {
            return Ok(());
        }
    }
    Err(Fail::from("no run without a refusal"))
}
