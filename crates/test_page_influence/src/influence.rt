// Tests of the fix without which the polygon of all others is least. What is expected comes from gift wrapping in whole numbers,
// with each fix left out in turn (`tools/tests/crate_numbers.py`).

use page_influence::{Influence, least_without};
use range_plane::{Columns, Point};
use std::alloc::Global;
use std::process::Abort;
use std::test::Fail;
use test_doubles::next_random;

// Where fixes are, the index of the one and the doubled area without it, and what they are.
const CASES: [(&[(i64, i64)], (usize, u128), &str); 11] = [
    (&[(5, 7), (5, 7)], (0, 0), "two at one place"),
    (&[(9, 3), (0, 0)], (0, 0), "two"),
    (&[(0, 0), (4, 0), (4, 4), (0, 4)], (0, 16), "a square"),
    (
        &[(0, 0), (4, 0), (4, 4), (0, 4), (4, 4)],
        (0, 16),
        "a square with a corner twice",
    ),
    (
        &[(0, 0), (4, 0), (4, 4), (0, 4), (100, 50), (2, 2)],
        (4, 32),
        "a far fix",
    ),
    (
        &[(0, 0), (4, 0), (4, 4), (0, 4), (100, 50), (2, 2), (100, 50)],
        (1, 400),
        "a far fix twice",
    ),
    (
        &[
            (0, 0),
            (4, 0),
            (4, 4),
            (0, 4),
            (100, 50),
            (100, 49),
            (50, 80),
        ],
        (6, 696),
        "two far fixes",
    ),
    (&[(0, 0), (1, 1), (2, 2), (3, 3)], (0, 0), "in line"),
    (
        &[(0, 0), (1, 1), (3, 4), (2, 2)],
        (2, 0),
        "all but one in line",
    ),
    (
        &[(0, 0), (10, 0), (9, 2), (8, 3), (10, 10), (0, 10), (10, 3)],
        (0, 100),
        "a corner that uncovers others",
    ),
    (
        &[
            (0, 0),
            (134217728, 0),
            (134217728, 134217728),
            (0, 134217728),
            (67108864, 1),
        ],
        (2, 18014398509481984),
        "at the limits",
    ),
];

// The side of a square, less one, and what is expected of the first two of the points scattered there, the first three, and so on.
const SCATTERED: [(u32, [(usize, u128); 39]); 3] = [
    (
        0x3,
        [
            (0, 0),
            (0, 0),
            (1, 0),
            (0, 2),
            (0, 3),
            (6, 6),
            (6, 9),
            (6, 9),
            (5, 10),
            (1, 12),
            (1, 12),
            (1, 12),
            (1, 12),
            (1, 12),
            (1, 12),
            (1, 12),
            (1, 12),
            (1, 12),
            (1, 12),
            (1, 13),
            (1, 13),
            (1, 13),
            (1, 13),
            (1, 13),
            (1, 13),
            (20, 14),
            (20, 14),
            (20, 14),
            (20, 14),
            (20, 14),
            (20, 14),
            (20, 15),
            (32, 15),
            (32, 15),
            (32, 15),
            (32, 15),
            (32, 15),
            (32, 15),
            (32, 15),
        ],
    ),
    (
        0x7,
        [
            (0, 0),
            (0, 0),
            (0, 6),
            (0, 9),
            (0, 16),
            (0, 26),
            (0, 26),
            (0, 29),
            (0, 29),
            (0, 29),
            (4, 34),
            (4, 35),
            (4, 35),
            (14, 44),
            (14, 49),
            (14, 49),
            (14, 49),
            (14, 49),
            (14, 49),
            (14, 55),
            (20, 55),
            (8, 60),
            (8, 60),
            (8, 60),
            (8, 60),
            (8, 60),
            (8, 60),
            (8, 60),
            (8, 64),
            (8, 68),
            (8, 68),
            (8, 74),
            (8, 74),
            (32, 74),
            (32, 74),
            (32, 74),
            (32, 74),
            (32, 74),
            (32, 74),
        ],
    ),
    (
        0xFF_FFFF,
        [
            (0, 0),
            (0, 0),
            (3, 3982023579208),
            (0, 53397087550441),
            (0, 74018777508457),
            (0, 81265481168621),
            (0, 133692712005455),
            (7, 158885959048170),
            (7, 173641547265640),
            (7, 173641547265640),
            (7, 173641547265640),
            (7, 233488641183104),
            (7, 242661138365462),
            (7, 242661138365462),
            (0, 264979082601036),
            (16, 313473676161272),
            (16, 342664836236596),
            (16, 342664836236596),
            (12, 345247617329444),
            (16, 352527158526974),
            (16, 352527158526974),
            (16, 352527158526974),
            (16, 358207748873981),
            (16, 358207748873981),
            (16, 364611068411348),
            (16, 364611068411348),
            (16, 364611068411348),
            (16, 377034479191848),
            (16, 394075903994901),
            (16, 394075903994901),
            (16, 394075903994901),
            (16, 394075903994901),
            (16, 394075903994901),
            (34, 421886632242165),
            (34, 422543359828369),
            (34, 422543359828369),
            (34, 422543359828369),
            (34, 423312561794202),
            (34, 423312561794202),
        ],
    ),
];

fn point((e, n): (i64, i64)) -> Result<Point, Fail> {
    Ok(Point::new(e, n).ok_or("no point")?)
}

// What is found of a few points.
fn found(rt: &impl Abort, alloc: Global, points: &Columns) -> Result<Option<Influence>, Fail> {
    assert!(rt; points.len() < 100, "a few");
    Ok(least_without(alloc, points)?)
}

// Adds a point of the generator, and answers where it goes on.
fn push_random(points: &mut Columns, seed: u64, mask: u32) -> Result<u64, Fail> {
    let first = next_random(seed);
    let second = next_random(first);
    let e = (first >> 33) as u32 & mask;
    let n = (second >> 33) as u32 & mask;
    points.push(point((i64::from(e), i64::from(n)))?)?;
    Ok(second)
}

// Checks what is found of the first two points that are scattered in a square, the first three, and so on.
fn expect_scattered(
    rt: &impl Abort,
    alloc: Global,
    mask: u32,
    expected: &[(usize, u128)],
) -> Result<(), Fail> {
    let mut points = Columns::new(alloc);
    let mut seed = push_random(&mut points, 1, mask)?;
    for &(index, area2) in expected {
        seed = push_random(&mut points, seed, mask)?;
        let found = found(rt, alloc, &points)?;
        assert!(rt;
            found == Some(Influence { index, area2 }),
            "of {} points",
            points.len()
        );
    }
    Ok(())
}

#[test]
fn fewer_than_two_fixes_have_no_influence(rt: HostRuntime) -> Result<(), Fail> {
    let mut points = Columns::new(rt.alloc());
    assert!(&rt; found(&rt, rt.alloc(), &points)?.is_none(), "none");
    points.push(point((5, 7))?)?;
    assert!(&rt; found(&rt, rt.alloc(), &points)?.is_none(), "one");
    Ok(())
}

#[test]
fn without_it_the_area_is_least(rt: HostRuntime) -> Result<(), Fail> {
    for &(places, (index, area2), name) in &CASES {
        let mut points = Columns::new(rt.alloc());
        for place in places {
            points.push(point(*place)?)?;
        }
        let found = found(&rt, rt.alloc(), &points)?;
        assert!(&rt; found == Some(Influence { index, area2 }), "{name}");
    }
    Ok(())
}

#[test]
fn it_is_that_of_each_first_part_of_scattered_points(rt: HostRuntime) -> Result<(), Fail> {
    for (mask, expected) in &SCATTERED {
        expect_scattered(&rt, rt.alloc(), *mask, expected)?;
    }
    Ok(())
}
