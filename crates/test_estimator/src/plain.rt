// Tests of estimators against `Polygon::plain`, which makes polygons straight from the definitions.

use crate::fixes::{estimator_of, fixes_of, holds};
use range_estimator::Row;
use range_plane::{Fix, Point, Polygon};
use std::alloc::Global;
use std::process::Abort;
use std::test::Fail;
use test_doubles::next_random;

// Fixes within a curve, on its edges, at its corners and outside of it, some only within what the one before
// added.
const LATER: [(u64, i64, i64); 12] = [
    (28, 13, 180),
    (29, 0, 0),
    (30, 27, 729),
    (31, 1, 27),
    (32, 1, 28),
    (33, 2, 55),
    (34, 2, 54),
    (35, 28, 700),
    (36, 20, 500),
    (37, 28, 712),
    (38, 28, 706),
    (39, 14, 196),
];

// A fix at random coordinates below 64.
fn random_fix(seed: u64) -> Result<Fix, Fail> {
    let (e, n) = (seed >> 58, (seed >> 52) % 64);
    let at = Point::new(e as i64, n as i64).ok_or("no point")?;
    Ok(Fix { second: seed, at })
}

// Whether the row is that of these points, of which there are few.
fn is_plain(rt: &impl Abort, alloc: Global, points: &[Point], row: &Row) -> Result<bool, Fail> {
    assert!(rt; points.len() < 100);
    let polygon = Polygon::plain(alloc, points)?;
    Ok(row.corners as usize == polygon.corners().len() && row.area2 == polygon.area2())
}

// Checks the row of each first part of the fixes.
fn expect_plain(rt: &impl Abort, alloc: Global, fixes: &[Fix], size: usize) -> Result<(), Fail> {
    let estimator = estimator_of(rt, alloc, fixes, size);
    assert!(rt; holds(&estimator, fixes), "fixes in blocks of {size}");
    let mut points = Vec::new(alloc);
    for (fix, row) in fixes.iter().zip(estimator.rows()) {
        points.push(fix.at)?;
        assert!(rt;
            is_plain(rt, alloc, &points, row)?,
            "rows in blocks of {size}"
        );
    }
    Ok(())
}

#[test]
fn the_rows_of_random_fixes_are_those_by_definition(rt: HostRuntime) -> Result<(), Fail> {
    let alloc = rt.alloc();
    let mut seed = 1;
    for size in [1, 2, 3, 5, 8, 13, 24] {
        for _ in 0..4 {
            let mut fixes = Vec::new(alloc);
            for _ in 0..24 {
                seed = next_random(seed);
                fixes.push(random_fix(seed)?)?;
            }
            expect_plain(&rt, alloc, &fixes, size)?;
        }
    }
    Ok(())
}

// Fixes that all stay corners, more than blocks of up to five fixes are flagged by a copy of, and then others.
fn curve(alloc: Global) -> Result<Vec<Fix>, Fail> {
    let mut records = Vec::new(alloc);
    for i in 0..28_u8 {
        let e = i64::from(i);
        records.push((u64::from(i), e, e * e))?;
    }
    records.extend_from_slice(&LATER)?;
    fixes_of(alloc, &records)
}

#[test]
fn the_rows_of_a_curve_in_short_blocks_are_those_by_definition(
    rt: HostRuntime,
) -> Result<(), Fail> {
    let fixes = curve(rt.alloc())?;
    expect_plain(&rt, rt.alloc(), &fixes, 3)?;
    for (size, tested) in [(1, 32), (2, 32), (3, 33), (5, 33)] {
        let estimator = estimator_of(&rt, rt.alloc(), &fixes, size);
        assert!(rt; holds(&estimator, &fixes), "fixes in blocks of {size}");
        assert!(rt; estimator.tested() == tested, "in blocks of {size}");
    }
    Ok(())
}
