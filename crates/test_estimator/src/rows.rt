// Tests of worked lists of fixes, whose rows and polygons were made by hand.

use crate::fixes::{SQUARE_ROWS, estimator_of, fixes_of, has_corners, has_rows, holds, takes};
use range_estimator::{Estimator, Row, Rows};
use range_plane::{FIX_LIMIT, Fix, Point};
use std::alloc::{AllocError, Global};
use std::process::Abort;
use std::test::Fail;
use test_doubles::SQUARE;

// Checks the corners and the doubled area of each row, and the corners in the end, in blocks of each size.
fn expect_rows(
    rt: &impl Abort,
    alloc: Global,
    records: &[(u64, i64, i64)],
    rows: &[(u32, u128)],
    corners: &[(i64, i64)],
) -> Result<(), Fail> {
    let fixes = fixes_of(alloc, records)?;
    assert!(rt; fixes.len() == rows.len() && rows.len() < 10, "rows");
    for size in 1..=rows.len() {
        let estimator = estimator_of(rt, alloc, &fixes, size);
        assert!(rt; holds(&estimator, &fixes), "fixes in blocks of {size}");
        assert!(rt; has_rows(&estimator, rows), "rows in blocks of {size}");
        assert!(rt;
            has_corners(alloc, &estimator, corners),
            "corners in blocks of {size}"
        );
    }
    Ok(())
}

#[test]
fn a_square_has_these_rows_in_blocks_of_each_size(rt: HostRuntime) -> Result<(), Fail> {
    let corners = [(0, 0), (10, 0), (10, 10), (0, 10)];
    expect_rows(&rt, rt.alloc(), &SQUARE, &SQUARE_ROWS, &corners)
}

#[test]
fn fixes_in_line_have_two_corners_and_no_area(rt: HostRuntime) -> Result<(), Fail> {
    let alloc = rt.alloc();
    let along = [(0, 5, 5), (60, 10, 5), (120, 20, 5)];
    expect_rows(
        &rt,
        alloc,
        &along,
        &[(1, 0), (2, 0), (2, 0)],
        &[(5, 5), (20, 5)],
    )?;
    let once = [(0, 7, 7), (0, 7, 7), (0, 7, 7)];
    expect_rows(&rt, alloc, &once, &[(1, 0), (1, 0), (1, 0)], &[(7, 7)])?;
    let slope = [(0, 0, 0), (0, 2, 2), (0, 1, 1), (0, 4, 4)];
    let rows = [(1, 0), (2, 0), (2, 0), (2, 0)];
    expect_rows(&rt, alloc, &slope, &rows, &[(0, 0), (4, 4)])
}

#[test]
fn corners_go_where_later_fixes_cover_them(rt: HostRuntime) -> Result<(), Fail> {
    let alloc = rt.alloc();
    let west = [(0, 5, 5), (0, 6, 5), (0, 6, 6), (0, 0, 5)];
    let rows = [(1, 0), (2, 0), (3, 1), (3, 6)];
    expect_rows(&rt, alloc, &west, &rows, &[(0, 5), (6, 5), (6, 6)])?;
    let east = [
        (0, 0, 0),
        (0, 4, 0),
        (0, 5, 2),
        (0, 4, 4),
        (0, 0, 4),
        (0, 10, 2),
    ];
    let rows = [(1, 0), (2, 0), (3, 8), (4, 20), (5, 36), (5, 56)];
    let corners = [(0, 0), (4, 0), (10, 2), (4, 4), (0, 4)];
    expect_rows(&rt, alloc, &east, &rows, &corners)
}

#[test]
fn the_greatest_square_has_these_rows(rt: HostRuntime) -> Result<(), Fail> {
    let records = [
        (0, 0, 0),
        (0, 16_777_216, 0),
        (0, 16_777_216, 16_777_216),
        (0, 0, 16_777_216),
    ];
    let rows = [
        (1, 0),
        (2, 0),
        (3, 281_474_976_710_656),
        (4, 562_949_953_421_312),
    ];
    let corners = [
        (0, 0),
        (16_777_216, 0),
        (16_777_216, 16_777_216),
        (0, 16_777_216),
    ];
    expect_rows(&rt, rt.alloc(), &records, &rows, &corners)
}

#[test]
fn fixes_that_the_polygon_before_their_block_covers_are_not_tested(
    rt: HostRuntime,
) -> Result<(), Fail> {
    let records = [
        (0, 0, 0),
        (0, 10, 0),
        (0, 10, 10),
        (0, 0, 10),
        (0, 15, 5),
        (0, 20, 5),
        (0, 5, 5),
    ];
    let rows = [
        (1, 0),
        (2, 0),
        (3, 100),
        (4, 200),
        (5, 250),
        (5, 300),
        (5, 300),
    ];
    let corners = [(0, 0), (10, 0), (20, 5), (10, 10), (0, 10)];
    expect_rows(&rt, rt.alloc(), &records, &rows, &corners)?;
    let fixes = fixes_of(rt.alloc(), &records)?;
    for (size, tested) in [(1, 6), (4, 6), (7, 7)] {
        let estimator = estimator_of(&rt, rt.alloc(), &fixes, size);
        assert!(rt; estimator.tested() == tested, "in blocks of {size}");
    }
    Ok(())
}

// As many fixes as a file may have, all at one point: the first block alone is tested.
#[test]
fn an_estimator_takes_as_many_fixes_as_a_file_may_have(rt: HostRuntime) -> Result<(), Fail> {
    let point = Point::new(7, 7).ok_or("no point")?;
    let fix = Fix {
        second: 0,
        at: point,
    };
    let block = vec![in rt.alloc(); fix; 1024]?;
    let mut estimator = Estimator::new(rt.alloc());
    for i in 0..1024 {
        assert!(rt; takes(&rt, &mut estimator, &block), "block {i}");
    }
    assert!(rt; estimator.rows().len() == FIX_LIMIT as usize, "rows");
    assert!(rt; estimator.tested() == 1024, "tested");
    Ok(())
}

#[test]
fn an_estimator_without_fixes_is_empty(rt: HostRuntime) {
    let estimator = Estimator::new(rt.alloc());
    assert!(rt; holds(&estimator, &[]) && has_corners(rt.alloc(), &estimator, &[]));
    assert!(rt; estimator.tested() == 0 && !estimator.stopped());
}

#[test]
fn rows_are_the_list_they_were_made_of(rt: HostRuntime) -> Result<(), AllocError> {
    let row = Row {
        second: 60,
        corners: 2,
        area2: 0,
    };
    let rows = Rows::new(vec![in rt.alloc(); row]?);
    assert!(rt; rows.as_slice() == [row].as_slice());
    Ok(())
}

#[test]
fn into_parts_gives_rows_and_points(rt: HostRuntime) -> Result<(), Fail> {
    let alloc = rt.alloc();
    let fixes = fixes_of(alloc, &SQUARE)?;
    let (rows, points) = estimator_of(&rt, alloc, &fixes, 2).into_parts();
    let areas = [0, 0, 100, 200, 200];
    assert_eq!(rt; rows.len(), areas.len());
    assert!(rt;
        rows.iter()
            .zip(&areas)
            .all(|(row, &area2)| row.area2 == area2),
        "rows"
    );
    assert!(rt;
        points.eastings() == [0, 10, 10, 0, 5].as_slice(),
        "eastings"
    );
    assert!(rt;
        points.northings() == [0, 0, 10, 10, 5].as_slice(),
        "northings"
    );
    Ok(())
}
