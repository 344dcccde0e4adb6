// Tests of cover flags, counts, boxes and sums.

use crate::points::{
    DECIMETRE_LIMITS, METRE_LIMITS, columns_of, parabola, plain_at, plain_of, point,
};
use range_lanes::{Extent, count_inside, extremes, mark_inside, sums};
use range_plane::{COORDINATE_LIMIT, Columns, Polygon};
use std::alloc::Global;
use std::process::Abort;
use std::test::Fail;

// The points on the line from `(0, start)` on that rises by `rise` for each easting.
fn line(rt: &impl Abort, alloc: Global, points: u8, start: i64, rise: u8) -> Result<Columns, Fail> {
    assert!(rt; 0 <= start && start < 100);
    let mut cols = Columns::new(alloc);
    for i in 0..points {
        let n = start + i64::from(rise) * i64::from(i);
        cols.push(point((i64::from(i), n))?)?;
    }
    Ok(cols)
}

// The cover flags of the points. Their count is that of `count_inside`.
fn cover_flags(
    rt: &impl Abort,
    alloc: Global,
    corners: &Polygon,
    cols: &Columns,
) -> Result<Vec<bool>, Fail> {
    let mut flags = vec![in alloc; false; cols.len()]?;
    mark_inside(corners, cols, &mut flags);
    let count = flags.iter().filter(|flag| **flag).count();
    assert!(rt; u64::try_from(count) == Ok(count_inside(corners, cols)));
    Ok(flags)
}

const FAR: i64 = COORDINATE_LIMIT;

const TRIANGLE: [(i64, i64); 3] = [(0, 0), (4, 0), (0, 4)];

const WIDE_TRIANGLE: [(i64, i64); 3] = [(0, 0), (16, 0), (0, 16)];

#[test]
fn the_points_of_a_line_within_a_polygon_are_counted(rt: HostRuntime) -> Result<(), Fail> {
    let cases = [
        ([].as_slice(), [0, 0, 0, 0, 0, 0]),
        (&[(3, 0)], [0, 0, 1, 1, 1, 1]),
        (&[(2, 0), (9, 0)], [0, 0, 5, 6, 7, 8]),
        (&TRIANGLE, [0, 1, 5, 5, 5, 5]),
        (&WIDE_TRIANGLE, [0, 1, 7, 8, 9, 17]),
    ];
    for (corners, counts) in cases {
        let polygon = plain_at(&rt, rt.alloc(), corners)?;
        for (points, count) in [0, 1, 7, 8, 9, 17].iter().zip(counts) {
            let cols = line(&rt, rt.alloc(), *points, 0, 0)?;
            assert_eq!(&rt;
                count_inside(&polygon, &cols),
                count,
                "{corners:?} {points}"
            );
        }
    }
    Ok(())
}

fn extent(min_e: i64, min_n: i64, max_e: i64, max_n: i64) -> Extent {
    Extent {
        min_e,
        min_n,
        max_e,
        max_n,
    }
}

// Nine points, one more than go through the lanes at once. The last is the westernmost and the northernmost.
const FALLING: [(i64, i64); 9] = [
    (9, 11),
    (8, 12),
    (7, 13),
    (6, 14),
    (5, 15),
    (4, 16),
    (3, 17),
    (2, 18),
    (1, 90),
];

// Checks the box and both sums of few points.
fn expect_box(rt: &impl Abort, cols: &Columns, extent: Option<Extent>, expected: (u64, u64)) {
    assert!(rt; cols.len() < 100);
    assert_eq!(rt; extremes(cols), extent);
    assert_eq!(rt; sums(cols), expected);
}

#[test]
fn extremes_and_sums_are_those_of_the_points(rt: HostRuntime) -> Result<(), Fail> {
    let cases = [
        ([].as_slice(), None, (0, 0)),
        (&[(5, 7)], Some(extent(5, 7, 5, 7)), (5, 7)),
        (&FALLING, Some(extent(1, 11, 9, 90)), (45, 206)),
        (
            &DECIMETRE_LIMITS[1..3],
            Some(extent(FAR, 0, FAR, FAR)),
            (2 * FAR as u64, FAR as u64),
        ),
    ];
    for (positions, extent, expected) in cases {
        let cols = columns_of(rt.alloc(), positions)?;
        expect_box(&rt, &cols, extent, expected);
    }
    Ok(())
}

// The points from the last to the first.
fn turned(alloc: Global, cols: &Columns) -> Result<Columns, Fail> {
    let mut turned = Columns::new(alloc);
    for i in 0..cols.len() {
        turned.push(cols.at(cols.len() - 1 - i))?;
    }
    Ok(turned)
}

// The box and both sums of the first points of a line along the eastings, and of one that also rises: of
// none, of less than go through the lanes at once, of two such groups, and of one point more. They are the
// same from the other end.
#[test]
fn extremes_and_sums_are_the_same_from_either_end(rt: HostRuntime) -> Result<(), Fail> {
    let cases = [
        (0, 0, 0, None, (0, 0)),
        (1, 0, 0, Some(extent(0, 0, 0, 0)), (0, 0)),
        (7, 0, 0, Some(extent(0, 0, 6, 0)), (21, 0)),
        (8, 0, 0, Some(extent(0, 0, 7, 0)), (28, 0)),
        (9, 0, 0, Some(extent(0, 0, 8, 0)), (36, 0)),
        (16, 5, 3, Some(extent(0, 5, 15, 50)), (120, 440)),
        (17, 0, 0, Some(extent(0, 0, 16, 0)), (136, 0)),
        (17, 5, 3, Some(extent(0, 5, 16, 53)), (136, 493)),
    ];
    for (points, start, rise, extent, expected) in cases {
        let cols = line(&rt, rt.alloc(), points, start, rise)?;
        expect_box(&rt, &cols, extent, expected);
        expect_box(&rt, &turned(rt.alloc(), &cols)?, extent, expected);
    }
    Ok(())
}

#[test]
fn points_up_to_the_corner_of_a_square_are_covered(rt: HostRuntime) -> Result<(), Fail> {
    let square = plain_at(&rt, rt.alloc(), &[(0, 0), (10, 0), (10, 10), (0, 10)])?;
    let cols = line(&rt, rt.alloc(), 17, 0, 1)?;
    let flags = cover_flags(&rt, rt.alloc(), &square, &cols)?;
    for (i, flag) in flags.iter().enumerate() {
        assert_eq!(rt; *flag, i <= 10, "{i}");
    }
    assert_eq!(rt; count_inside(&square, &cols), 11);
    Ok(())
}

const FAR_TRIANGLE: [(i64, i64); 3] = [(0, 0), (FAR, 0), (FAR, FAR)];

// The triangle below the diagonal covers the points on it, and none of those one above.
#[test]
fn a_triangle_at_the_limits_covers_its_diagonal_and_not_the_one_above(
    rt: HostRuntime,
) -> Result<(), Fail> {
    let diagonal = line(&rt, rt.alloc(), 9, 0, 1)?;
    let above = line(&rt, rt.alloc(), 9, 1, 1)?;
    for limits in [METRE_LIMITS, DECIMETRE_LIMITS] {
        let triangle = plain_at(&rt, rt.alloc(), &limits[..3])?;
        assert_eq!(rt; count_inside(&triangle, &diagonal), 9);
        assert_eq!(rt; count_inside(&triangle, &above), 0);
    }
    Ok(())
}

#[test]
fn cover_flags_are_exact_at_the_limits(rt: HostRuntime) -> Result<(), Fail> {
    let triangle = plain_at(&rt, rt.alloc(), &FAR_TRIANGLE)?;
    let cols = columns_of(
        rt.alloc(),
        &[
            (FAR, FAR),
            (FAR - 1, FAR),
            (FAR, FAR - 1),
            (FAR - 1, FAR - 1),
            (FAR - 2, FAR - 1),
            (FAR, 0),
            (0, FAR),
            (FAR - 1, 0),
            (0, 1),
        ],
    )?;
    let flags = cover_flags(&rt, rt.alloc(), &triangle, &cols)?;
    let expected = [true, false, true, true, false, true, false, true, false];
    assert!(rt; flags.as_slice() == expected.as_slice());
    assert_eq!(rt; extremes(&cols), Some(extent(0, 0, FAR, FAR)));
    Ok(())
}

// So many points, at these positions in turn.
fn repeated(alloc: Global, positions: &[(i64, i64)], points: u8) -> Result<Columns, Fail> {
    let mut cols = Columns::new(alloc);
    for position in positions.iter().cycle().take(usize::from(points)) {
        cols.push(point(*position)?)?;
    }
    Ok(cols)
}

// Checks the cover flags of so many corners of the greatest square in decimetres, in turn: each but the fourth ones, where the
// polygon lacks that corner.
fn expect_far_corners(
    rt: &impl Abort,
    alloc: Global,
    polygon: &Polygon,
    points: u8,
    lacks_fourth: bool,
) -> Result<(), Fail> {
    let cols = repeated(alloc, &DECIMETRE_LIMITS, points)?;
    assert!(rt; cols.len() == usize::from(points));
    let flags = cover_flags(rt, alloc, polygon, &cols)?;
    for (i, flag) in flags.iter().enumerate() {
        let covered = !lacks_fourth || i % 4 != 3;
        assert!(rt; *flag == covered, "{points} {i}");
    }
    Ok(())
}

// The square covers each of its corners, and three of them all but the fourth.
#[test]
fn the_greatest_square_covers_its_corners_in_each_lane(rt: HostRuntime) -> Result<(), Fail> {
    let alloc = rt.alloc();
    let square = plain_at(&rt, alloc, &DECIMETRE_LIMITS)?;
    let triangle = plain_at(&rt, alloc, &DECIMETRE_LIMITS[..3])?;
    for points in 0..41u8 {
        expect_far_corners(&rt, alloc, &square, points, false)?;
        expect_far_corners(&rt, alloc, &triangle, points, true)?;
    }
    Ok(())
}

#[test]
fn the_corners_of_the_greatest_square_and_what_is_within_are_counted(
    rt: HostRuntime,
) -> Result<(), Fail> {
    let square = plain_at(&rt, rt.alloc(), &DECIMETRE_LIMITS)?;
    let positions = [(0, 0), (FAR, 0), (FAR, FAR), (0, FAR), (1, 1)];
    let cols = repeated(rt.alloc(), &positions, 45)?;
    assert_eq!(rt; count_inside(&square, &cols), 45);
    Ok(())
}

// Whether so many corners `(i, i * i)` cover a point: not below the parabola, nor above the line from first to last.
fn is_in_parabola(corners: u8, e: u8, n: u16) -> bool {
    let last = u16::from(corners.saturating_sub(1));
    e < corners && u16::from(e) * u16::from(e) <= n && n <= last * u16::from(e)
}

// For each easting the northings at both ends of what they cover, and some past these.
fn positions_near_parabola(alloc: Global, corners: u8) -> Result<Vec<(u8, u16)>, Fail> {
    let last = u16::from(corners.saturating_sub(1));
    let mut positions = Vec::new(alloc);
    for e in 0..corners.saturating_add(1) {
        let low = u16::from(e) * u16::from(e);
        let high = last * u16::from(e);
        for n in [
            low.saturating_sub(1),
            low,
            low.saturating_add(1),
            high,
            high.saturating_add(1),
        ] {
            positions.push((e, n))?;
        }
    }
    Ok(positions)
}

// Checks the cover flags of each first part of the positions near so many corners.
fn expect_near_parabola(rt: &impl Abort, alloc: Global, corners: u8) -> Result<(), Fail> {
    let polygon = plain_of(rt, alloc, &parabola(alloc, u16::from(corners))?)?;
    assert!(rt; polygon.corners().len() == usize::from(corners));
    let mut cols = Columns::new(alloc);
    let mut expected = Vec::new(alloc);
    for (e, n) in &positions_near_parabola(alloc, corners)? {
        let q = point((i64::from(*e), i64::from(*n)))?;
        let inside = is_in_parabola(corners, *e, *n);
        assert!(rt; polygon.covers(q) == inside, "{e} {n}");
        cols.push(q)?;
        expected.push(inside)?;
        assert!(rt;
            cover_flags(rt, alloc, &polygon, &cols)? == expected,
            "up to {e} {n}"
        );
    }
    Ok(())
}

#[test]
fn cover_flags_are_exact_next_to_the_edges_of_parabolas(rt: HostRuntime) -> Result<(), Fail> {
    for corners in [0, 1, 2, 3, 12, 13, 16, 35, 36, 37] {
        expect_near_parabola(&rt, rt.alloc(), corners)?;
    }
    Ok(())
}

// Points one above the other, from below so many corners to above them: groups of eight without, at both edges, near
// them, and so far within that some of the corners cover all eight.
fn expect_across_parabola(rt: &impl Abort, alloc: Global, corners: u8) -> Result<(), Fail> {
    let polygon = plain_of(rt, alloc, &parabola(alloc, u16::from(corners))?)?;
    let mut cols = Columns::new(alloc);
    let mut expected = Vec::new(alloc);
    let e = corners / 2;
    for n in 0..u16::from(corners) * u16::from(corners) {
        let q = point((i64::from(e), i64::from(n)))?;
        cols.push(q)?;
        expected.push(is_in_parabola(corners, e, n))?;
    }
    assert!(rt;
        cover_flags(rt, alloc, &polygon, &cols)? == expected,
        "{corners}"
    );
    Ok(())
}

#[test]
fn cover_flags_are_exact_across_parabolas(rt: HostRuntime) -> Result<(), Fail> {
    for corners in [12, 13, 24, 36, 37, 50] {
        expect_across_parabola(&rt, rt.alloc(), corners)?;
    }
    Ok(())
}
