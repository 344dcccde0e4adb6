// Tests of failed allocations.

use crate::fixes::{SQUARE_ROWS, fixes_of, has_corners, has_rows, holds, takes};
use range_estimator::Estimator;
use range_plane::Fix;
use std::alloc::Global;
use std::process::Abort;
use std::test::Fail;
use test_doubles::{MANY_ALLOCATIONS, Refusing, SQUARE};

// The columns of the fixes, those of the block, both chains of the hull, the rows and the cover flags.
const LEAST_ALLOCATIONS: u32 = 8;

// Whether a block was taken while one allocation failed, or that allocation was one before the block.
#[derive(Clone, Copy, PartialEq)]
enum Outcome {
    RefusedBefore,
    Refused,
    Taken,
}

// Checks that the estimator of these fixes of the square is stopped, and as it was before it was refused memory:
// each of the fixes was tested, and has its row.
fn expect_stopped(
    rt: &impl Abort,
    alloc: Global,
    estimator: &Estimator<&Refusing<Global>>,
    fixes: &[Fix],
    corners: &[(i64, i64)],
) {
    assert!(rt; estimator.stopped(), "stopped");
    assert!(rt; holds(estimator, fixes), "fixes");
    assert!(rt; fixes.len() <= 5, "of the square");
    assert!(rt; has_rows(estimator, &SQUARE_ROWS[..fixes.len()]), "rows");
    assert!(rt; estimator.tested() as usize == fixes.len(), "tested");
    assert!(rt; has_corners(alloc, estimator, corners), "corners");
}

// Gives an estimator so many fixes of the square, whose polygon has these corners, and then the others as
// a block, while the allocation of this number is refused.
fn refuse_allocation(
    rt: &impl Abort,
    alloc: Global,
    fixes: &[Fix],
    first: usize,
    corners: &[(i64, i64)],
    number: u32,
) -> Outcome {
    assert!(rt; first <= fixes.len());
    let (before, block) = fixes.split_at(first);
    let refusing = Refusing::new(alloc, number);
    let mut estimator = Estimator::new(&refusing);
    if !before.is_empty() && !takes(rt, &mut estimator, before) {
        return Outcome::RefusedBefore;
    }
    let taken = takes(rt, &mut estimator, block);
    assert!(rt; refusing.has_refused() != taken, "at allocation {number}");
    if taken {
        assert!(rt;
            !estimator.stopped() && holds(&estimator, fixes),
            "in the end"
        );
        assert!(rt; fixes.len() <= 5, "of the square");
        assert!(rt;
            has_rows(&estimator, &SQUARE_ROWS[..fixes.len()]),
            "rows in the end"
        );
        return Outcome::Taken;
    }
    expect_stopped(rt, alloc, &estimator, before, corners);
    Outcome::Refused
}

// Refuses each allocation in turn, up to a run without a refusal, and gives how many allocations of the block there
// were.
fn allocations_of_block(
    rt: &impl Abort,
    alloc: Global,
    fixes: &[Fix],
    first: usize,
    corners: &[(i64, i64)],
) -> u32 {
    let mut refused = 0u32;
    for number in 1..MANY_ALLOCATIONS {
        match refuse_allocation(rt, alloc, fixes, first, corners, number) {
            Outcome::RefusedBefore => {}
            Outcome::Refused => refused = refused.wrapping_add(1),
            Outcome::Taken => return refused,
        }
    }
    assert!(rt; false, "no run without a refusal");
    refused
}

#[test]
fn a_block_is_refused_only_at_a_refused_allocation(rt: HostRuntime) -> Result<(), Fail> {
    let fixes = fixes_of(rt.alloc(), &SQUARE)?;
    let first = allocations_of_block(&rt, rt.alloc(), &fixes, 0, &[]);
    assert!(rt;
        first >= LEAST_ALLOCATIONS,
        "allocations of the first block"
    );
    let four = fixes_of(rt.alloc(), &SQUARE[..4])?;
    let second = allocations_of_block(&rt, rt.alloc(), &four, 2, &[(0, 0), (10, 0)]);
    assert!(rt; second > 0, "allocations of the second block");
    Ok(())
}

// Checks that a polygon is made, or made at a second call, where the allocation of this number is refused.
// Whether it was.
fn polygon_is_refused(rt: &impl Abort, alloc: Global, estimator: &Estimator, number: u32) -> bool {
    let refusing = Refusing::new(alloc, number);
    match estimator.polygon(&refusing) {
        Ok(polygon) => {
            assert!(rt; !refusing.has_refused(), "at allocation {number}");
            assert!(rt; polygon.corners().len() == 4, "at allocation {number}");
            false
        }
        Err(_) => {
            assert!(rt; refusing.has_refused(), "at allocation {number}");
            let polygon = estimator.polygon(&refusing).expect(rt, "again");
            assert!(rt; polygon.corners().len() == 4, "after allocation {number}");
            true
        }
    }
}

#[test]
fn polygon_fails_only_at_a_refused_allocation(rt: HostRuntime) -> Result<(), Fail> {
    let fixes = fixes_of(rt.alloc(), &SQUARE)?;
    let mut estimator = Estimator::new(rt.alloc());
    assert!(rt; takes(&rt, &mut estimator, &fixes), "memory");
    for number in 1..MANY_ALLOCATIONS {
        if !polygon_is_refused(&rt, rt.alloc(), &estimator, number) {
            assert!(rt; number > 1, "allocations");
            assert!(rt; !estimator.stopped(), "running");
            return Ok(());
        }
    }
    Err(Fail::from("no run without a refusal"))
}

// A hundred blocks of a fix that is covered, after one block: fewer allocations than blocks, so the polygon
// is not copied anew for each.
#[test]
fn the_polygon_is_copied_only_where_it_changed(rt: HostRuntime) -> Result<(), Fail> {
    let fixes = fixes_of(rt.alloc(), &SQUARE)?;
    let covered = fixes_of(rt.alloc(), &SQUARE[4..])?;
    let alloc = Refusing::new(rt.alloc(), 60);
    let mut estimator = Estimator::new(&alloc);
    assert!(rt; takes(&rt, &mut estimator, &fixes), "memory");
    for i in 0..100 {
        assert!(rt; takes(&rt, &mut estimator, &covered), "block {i}");
    }
    assert!(rt; estimator.tested() == 5 && !alloc.has_refused());
    Ok(())
}
