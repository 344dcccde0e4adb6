// Tests of percent polygons. The values of scattered points are those of a program that takes the mean as a
// fraction and wraps the kept points (Jarvis 1973).

use crate::points::{RING, SEGMENT, SQUARE, columns_of, parabola, point, scattered};
use range_plane::{COORDINATE_LIMIT, Columns, FIX_LIMIT, Point};
use range_stats::{PercentRow, Ranking, percent};
use std::alloc::Global;
use std::process::Abort;
use std::test::Fail;

// How many points a level keeps, and how many corners and which doubled area they have.
type Row = (u8, u32, u32, u128);

fn has_row(found: PercentRow, (level, kept, corners, area2): Row) -> bool {
    found
        == PercentRow {
            level,
            kept,
            corners,
            area2,
        }
}

// Checks rows, each by itself, and all and each read off one ranking.
fn expect_percents(
    rt: &impl Abort,
    alloc: Global,
    fixes: &Columns,
    rows: &[Row],
) -> Result<(), Fail> {
    assert!(rt; fixes.len() <= FIX_LIMIT as usize, "few fixes");
    let levels = rows.iter().map(|row| row.0).collect::<Vec<u8>>(alloc)?;
    let ranking = Ranking::new(alloc, fixes, &levels)?;
    assert!(rt; levels.iter().all(|level| *level <= 100));
    let all = ranking.rows(alloc, &levels)?;
    assert!(rt; all.len() == rows.len());
    for (row, found) in rows.iter().zip(all) {
        assert!(rt; has_row(found, *row), "{found:?}");
    }
    for row in rows {
        expect_percent(rt, alloc, fixes, &ranking, *row)?;
    }
    Ok(())
}

// Checks a row by itself and read off a ranking.
fn expect_percent(
    rt: &impl Abort,
    alloc: Global,
    fixes: &Columns,
    ranking: &Ranking,
    row: Row,
) -> Result<(), Fail> {
    let level = row.0;
    assert!(rt; level <= 100 && fixes.len() <= FIX_LIMIT as usize);
    let found = percent(alloc, fixes, level)?;
    assert!(rt; has_row(found, row), "{found:?}");
    let found = ranking.row(alloc, level)?;
    assert!(rt; has_row(found, row), "{found:?}");
    Ok(())
}

#[test]
fn a_square_has_these_percent_polygons(rt: HostRuntime) -> Result<(), Fail> {
    let fixes = columns_of(rt.alloc(), &SQUARE)?;
    expect_percents(
        &rt,
        rt.alloc(),
        &fixes,
        &[
            (1, 1, 1, 0),
            (34, 2, 2, 0),
            (50, 3, 3, 50),
            (66, 4, 3, 100),
            (95, 5, 4, 200),
            (100, 5, 4, 200),
        ],
    )
}

#[test]
fn fixes_in_line_have_percent_polygons_without_area(rt: HostRuntime) -> Result<(), Fail> {
    let fixes = columns_of(rt.alloc(), &SEGMENT)?;
    let rows = [(50, 2, 2, 0), (95, 3, 2, 0), (100, 3, 2, 0)];
    expect_percents(&rt, rt.alloc(), &fixes, &rows)
}

#[test]
fn fixes_at_one_point_have_one_corner_at_each_level(rt: HostRuntime) -> Result<(), Fail> {
    let fixes = columns_of(rt.alloc(), &[(7, 7), (7, 7), (7, 7)])?;
    let rows = [(1, 1, 1, 0), (50, 2, 1, 0), (100, 3, 1, 0)];
    expect_percents(&rt, rt.alloc(), &fixes, &rows)
}

#[test]
fn one_fix_is_kept_at_each_level(rt: HostRuntime) -> Result<(), Fail> {
    let fixes = columns_of(rt.alloc(), &[(3, 4)])?;
    let rows = [(1, 1, 1, 0), (50, 1, 1, 0), (100, 1, 1, 0)];
    expect_percents(&rt, rt.alloc(), &fixes, &rows)
}

#[test]
fn without_a_fix_no_corner_is_kept(rt: HostRuntime) -> Result<(), Fail> {
    let fixes = columns_of(rt.alloc(), &[])?;
    expect_percents(&rt, rt.alloc(), &fixes, &[(50, 0, 0, 0)])
}

#[test]
fn of_fixes_as_far_from_the_mean_the_first_are_kept(rt: HostRuntime) -> Result<(), Fail> {
    let fixes = columns_of(rt.alloc(), &RING)?;
    let rows = [
        (1, 1, 1, 0),
        (50, 3, 3, 40),
        (66, 4, 4, 80),
        (67, 5, 5, 100),
        (100, 6, 6, 120),
    ];
    expect_percents(&rt, rt.alloc(), &fixes, &rows)
}

#[test]
fn a_line_has_two_corners_at_each_level(rt: HostRuntime) -> Result<(), Fail> {
    let mut fixes = Columns::new(rt.alloc());
    for i in 0..250 {
        let point = Point::new(i, 0).ok_or("no point")?;
        fixes.push(point)?;
    }
    let rows = [(1, 3, 2, 0), (100, 250, 2, 0)];
    expect_percents(&rt, rt.alloc(), &fixes, &rows)
}

#[test]
fn scattered_fixes_have_the_polygons_of_another_program(rt: HostRuntime) -> Result<(), Fail> {
    let fixes = scattered(rt.alloc(), 250, 0xFF_FFFF)?;
    expect_percents(
        &rt,
        rt.alloc(),
        &fixes,
        &[
            (1, 3, 3, 13_606_412_965),
            (2, 5, 4, 901_215_403_882),
            (10, 25, 7, 27_797_882_111_033),
            (50, 125, 17, 225_655_721_396_135),
            (95, 238, 18, 501_845_282_572_989),
            (99, 248, 16, 528_520_494_414_530),
            (100, 250, 13, 535_309_414_729_752),
        ],
    )
}

#[test]
fn levels_may_come_in_any_order_and_twice(rt: HostRuntime) -> Result<(), Fail> {
    let fixes = scattered(rt.alloc(), 250, 0xFF_FFFF)?;
    expect_percents(
        &rt,
        rt.alloc(),
        &fixes,
        &[
            (50, 125, 17, 225_655_721_396_135),
            (2, 5, 4, 901_215_403_882),
            (100, 250, 13, 535_309_414_729_752),
            (50, 125, 17, 225_655_721_396_135),
            (1, 3, 3, 13_606_412_965),
            (95, 238, 18, 501_845_282_572_989),
        ],
    )
}

#[test]
fn fixes_with_many_ties_have_the_polygons_of_another_program(rt: HostRuntime) -> Result<(), Fail> {
    let fixes = scattered(rt.alloc(), 250, 0xF)?;
    expect_percents(
        &rt,
        rt.alloc(),
        &fixes,
        &[
            (1, 3, 2, 0),
            (2, 5, 3, 1),
            (10, 25, 5, 29),
            (50, 125, 11, 199),
            (95, 238, 10, 406),
            (99, 248, 9, 428),
            (100, 250, 6, 443),
        ],
    )
}

#[test]
fn more_fixes_than_are_flagged_at_once_have_the_polygons_of_another_program(
    rt: HostRuntime,
) -> Result<(), Fail> {
    let far = scattered(rt.alloc(), 1300, 0xFF_FFFF)?;
    expect_percents(
        &rt,
        rt.alloc(),
        &far,
        &[
            (10, 130, 16, 44_598_644_377_774),
            (50, 650, 30, 256_039_945_182_629),
            (95, 1235, 25, 524_802_166_184_445),
            (100, 1300, 19, 555_318_582_666_498),
        ],
    )?;
    let near = scattered(rt.alloc(), 1300, 0x3F)?;
    expect_percents(
        &rt,
        rt.alloc(),
        &near,
        &[
            (10, 130, 15, 723),
            (50, 650, 23, 4_189),
            (95, 1235, 18, 7_526),
            (100, 1300, 8, 7_926),
        ],
    )
}

// More corners than those of a hull for which points are flagged, and points that it covers.
#[test]
fn a_hull_of_too_many_corners_for_flags_has_these_percent_polygons(
    rt: HostRuntime,
) -> Result<(), Fail> {
    let mut fixes = Columns::new(rt.alloc());
    for corner in parabola(rt.alloc(), 3000)? {
        fixes.push(corner)?;
    }
    for i in 0..600 {
        let within = point((1500, i64::wrapping_add(3_000_000, i)))?;
        fixes.push(within)?;
    }
    expect_percents(
        &rt,
        rt.alloc(),
        &fixes,
        &[
            (50, 1800, 1201, 1_062_192_901),
            (95, 3420, 2820, 7_467_305_480),
            (100, 3600, 3000, 8_991_002_000),
        ],
    )
}

// All at one corner of the plane but the first, which is as far from their mean as any can be: the square of
// their number times that distance is nearly 2^95.
#[test]
fn the_farthest_of_the_most_fixes_is_kept_last(rt: HostRuntime) -> Result<(), Fail> {
    let mut fixes = Columns::new(rt.alloc());
    let far = Point {
        e: COORDINATE_LIMIT,
        n: COORDINATE_LIMIT,
    };
    fixes.push(far)?;
    for _ in 1..FIX_LIMIT {
        fixes.push(Point { e: 0, n: 0 })?;
    }
    assert!(rt; fixes.len() <= FIX_LIMIT as usize);
    let ranking = Ranking::new(rt.alloc(), &fixes, &[99, 100])?;
    for row in [(99, 1_038_091, 1, 0), (100, 1_048_576, 2, 0)] {
        let found = ranking.row(rt.alloc(), row.0)?;
        assert!(rt; has_row(found, row), "{found:?}");
    }
    Ok(())
}
