// Sources that are followed side by side, and checks of their results.

use crate::files::Case;
use range_collect::{Followed, follow};
use range_estimator::Row;
use range_fixes::ReadFault;
use range_options::{FILE_LIMIT, Plan};
use range_plane::{Polygon, Scale};
use range_pump::{FileSource, Gate, ThreadRuntime};
use std::alloc::Global;
use std::process::Abort;
use std::test::Fail;
use test_doubles::are_at;
use test_files::is_name;

pub(crate) fn plan_of(block: u32, depth: u32, workers: u32) -> Result<Plan, Fail> {
    Ok(Plan::new(block, depth, workers, Scale::Metre).ok_or("no plan")?)
}

// Follows sources side by side, and gives a result for each.
pub(crate) fn follow_all<R: ThreadRuntime + Abort, S: FileSource, G: Gate>(
    rt: &R,
    alloc: Global,
    sources: Vec<S>,
    gate: &G,
    plan: Plan,
) -> Result<Vec<Followed>, Fail> {
    let count = sources.len();
    assert!(rt; count > 0 && count <= FILE_LIMIT as usize, "sources");
    let all = follow(rt, alloc, alloc, sources, gate, plan)?;
    assert!(rt; all.len() == count, "results");
    Ok(all)
}

// Whether the rows that were found are the first of these.
pub(crate) fn begin_with(rows: &[(u64, u32, u128)], found: &[Row]) -> bool {
    found.len() <= rows.len()
        && found.iter().zip(rows).all(|(row, &(second, corners, area2))| {
            row.second == second && row.corners == corners && row.area2 == area2
        })
}

// Checks that the file was read to its end, sent and taken whole.
pub(crate) fn expect_whole(
    rt: &impl Abort,
    alloc: Global,
    followed: &Followed,
    case: Case,
) -> Result<(), Fail> {
    assert!(rt; followed.marked && followed.feeder.closed(), "the mark");
    assert!(rt; !followed.estimator.stopped(), "running");
    assert!(rt; is_name(&followed.read, case.name), "the name");
    let rows = followed.estimator.rows();
    assert!(rt; rows.len() == case.rows.len(), "so many rows");
    assert!(rt; begin_with(case.rows, rows), "the rows");
    assert!(rt; followed.feeder.sent_fixes() == rows.len() as u64, "fixes");
    let polygon: Polygon = followed.estimator.polygon(alloc)?;
    assert!(rt; are_at(polygon.corners(), case.corners), "corners");
    Ok(())
}

// Whether the file of an animal `A` was read to its end, and its mark and so many fixes were taken.
pub(crate) fn is_whole(followed: &Followed, fixes: usize) -> bool {
    is_name(&followed.read, b"A")
        && followed.marked
        && followed.feeder.sent_fixes() == fixes as u64
        && followed.estimator.rows().len() == fixes
}

// Whether the file has this fault, and the mark and the fixes before it, so many, were sent and taken.
pub(crate) fn is_cut(followed: &Followed, fault: ReadFault, fixes: usize) -> bool {
    matches!(&followed.read, Err(found) if *found == fault)
        && followed.marked
        && followed.feeder.closed()
        && followed.feeder.sent_fixes() == fixes as u64
        && !followed.estimator.stopped()
        && followed.estimator.rows().len() == fixes
}
