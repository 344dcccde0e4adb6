// Fixes, and estimators that take them, for the tests.

use range_estimator::Estimator;
use range_plane::{FIX_LIMIT, Fix, Point};
use std::alloc::{Allocator, Global};
use std::process::Abort;
use std::test::Fail;
use test_doubles::are_at;

// The corners and the doubled area of each row of the square.
pub(crate) const SQUARE_ROWS: [(u32, u128); 5] = [(1, 0), (2, 0), (3, 100), (4, 200), (4, 200)];

pub(crate) fn fixes_of(alloc: Global, records: &[(u64, i64, i64)]) -> Result<Vec<Fix>, Fail> {
    let mut fixes = Vec::new(alloc);
    for &(second, e, n) in records {
        let at = Point::new(e, n).ok_or("no point")?;
        fixes.push(Fix { second, at })?;
    }
    Ok(fixes)
}

// Whether the estimator takes a block that it may be given.
pub(crate) fn takes<A: Allocator + Copy>(
    rt: &impl Abort,
    estimator: &mut Estimator<A>,
    block: &[Fix],
) -> bool {
    assert!(rt; !estimator.stopped(), "running");
    let taken = estimator.rows().len();
    assert!(rt; taken <= FIX_LIMIT as usize, "few fixes");
    assert!(rt; block.len() <= FIX_LIMIT as usize - taken, "room");
    estimator.take_block(block).is_ok()
}

// The estimator of these fixes, taken in blocks of this size.
pub(crate) fn estimator_of(
    rt: &impl Abort,
    alloc: Global,
    fixes: &[Fix],
    size: usize,
) -> Estimator {
    assert!(rt; size > 0, "a size");
    let mut estimator = Estimator::new(alloc);
    for block in fixes.chunks(size) {
        assert!(rt; takes(rt, &mut estimator, block), "memory");
    }
    estimator
}

// Whether these are the corners and the doubled areas of the estimator's rows.
pub(crate) fn has_rows<A: Allocator + Copy>(
    estimator: &Estimator<A>,
    rows: &[(u32, u128)],
) -> bool {
    let found = estimator.rows();
    found.len() == rows.len()
        && found.iter().zip(rows).all(|(row, &(corners, area2))| row.corners == corners
            && row.area2 == area2)
}

// Whether the estimator's polygon can be made, and has these corners, in this order.
pub(crate) fn has_corners<A: Allocator + Copy>(
    alloc: Global,
    estimator: &Estimator<A>,
    corners: &[(i64, i64)],
) -> bool {
    estimator
        .polygon(alloc)
        .is_ok_and(|polygon| are_at(polygon.corners(), corners))
}

// Whether the estimator holds these fixes, and a row for each, of its second.
pub(crate) fn holds<A: Allocator + Copy>(estimator: &Estimator<A>, fixes: &[Fix]) -> bool {
    let (rows, columns) = (estimator.rows(), estimator.columns());
    if rows.len() != fixes.len() || columns.len() != fixes.len() {
        return false;
    }
    for (i, fix) in fixes.iter().enumerate() {
        if rows[i].second != fix.second || columns.at(i) != fix.at {
            return false;
        }
    }
    true
}
