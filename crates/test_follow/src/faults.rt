// Tests of faults: files with each fault of their reader beside others, and sources that fail.

use crate::checks::{begin_with, expect_whole, follow_all, is_cut, plan_of};
use crate::files::{LINE, SQUARE};
use crate::plans::follow_one;
use range_collect::Followed;
use range_fixes::ReadFault;
use range_options::{BLOCK_LIMIT, DEPTH_LIMIT, Plan, WORKER_LIMIT};
use range_plane::{Polygon, Scale};
use range_pump::{FreeGate, ThreadRuntime};
use std::alloc::Global;
use std::process::Abort;
use std::test::Fail;
use test_doubles::{CUT_A, ScriptedSource, are_at};
use test_files::{BadFile, bad_records, files_without_fix, is_name};

// Checks that the file has its fault as it is, and that the mark and the fixes before it were sent and taken.
fn expect_bad(rt: &impl Abort, followed: &Followed, file: BadFile) {
    let (fixes, fault) = (file.fixes, file.fault);
    assert!(rt; is_cut(followed, fault, fixes as usize), "{fault}");
    let rows = followed.estimator.rows();
    assert!(rt;
        rows.iter().all(|row| row.second == 7 && row.corners == 1 && row.area2 == 0),
        "the rows before: {fault}"
    );
}

// Follows a bad file between two good ones, which are as they would be alone.
fn expect_between<R: ThreadRuntime + Abort>(
    rt: &R,
    alloc: Global,
    file: BadFile,
    plan: Plan,
) -> Result<(), Fail> {
    let sources = vec![in alloc;
        ScriptedSource::new(SQUARE.text, 8192),
        file.source(),
        ScriptedSource::new(LINE.text, 8192),
    ]?;
    let all = follow_all(rt, alloc, sources, &FreeGate, plan)?;
    assert!(rt; all.len() == 3, "results");
    expect_whole(rt, alloc, &all[0], SQUARE)?;
    expect_bad(rt, &all[1], file);
    expect_whole(rt, alloc, &all[2], LINE)
}

// Follows two bad files with a good one between them, each of which has its own fault.
fn expect_around<R: ThreadRuntime + Abort>(
    rt: &R,
    alloc: Global,
    first: BadFile,
    last: BadFile,
    plan: Plan,
) -> Result<(), Fail> {
    let sources = vec![in alloc;
        first.source(),
        ScriptedSource::new(SQUARE.text, 8192),
        last.source(),
    ]?;
    let all = follow_all(rt, alloc, sources, &FreeGate, plan)?;
    assert!(rt; all.len() == 3, "results");
    expect_bad(rt, &all[0], first);
    expect_whole(rt, alloc, &all[1], SQUARE)?;
    expect_bad(rt, &all[2], last);
    Ok(())
}

// In blocks that end before the fault, at it, and behind it.
#[test]
fn a_bad_file_leaves_the_files_beside_it_as_they_are(rt: HostRuntime) -> Result<(), Fail> {
    for (block, depth, workers) in [
        (1, 1, 1),
        (2, 4, 2),
        (3, 1, 1),
        (BLOCK_LIMIT, DEPTH_LIMIT, 2),
    ] {
        for unit in [Scale::Metre, Scale::Decimetre] {
            let plan = Plan::new(block, depth, workers, unit).ok_or("no plan")?;
            for file in bad_records(4, unit) {
                expect_between(&rt, rt.alloc(), file, plan)?;
            }
            for file in files_without_fix() {
                expect_between(&rt, rt.alloc(), file, plan)?;
            }
        }
    }
    Ok(())
}

// Each fault beside the next one, so also a source that fails beside a bad record, on one line and on two.
#[test]
fn two_bad_files_have_their_own_faults(rt: HostRuntime) -> Result<(), Fail> {
    let unit = Scale::Decimetre;
    let (firsts, lasts) = (bad_records(2, unit), bad_records(3, unit));
    for workers in [1, 2] {
        let plan = Plan::new(2, 1, workers, unit).ok_or("no plan")?;
        let following = lasts.iter().skip(1).chain(lasts.iter().take(1));
        for (&first, &last) in firsts.iter().zip(following) {
            expect_around(&rt, rt.alloc(), first, last, plan)?;
        }
    }
    Ok(())
}

// A file whose fifth record lacks its northing: its first four fixes are sent and taken, and the mark.
#[test]
fn the_fixes_before_a_cut_record_are_taken_and_the_mark(rt: HostRuntime) -> Result<(), Fail> {
    let alloc = rt.alloc();
    let (rec, found, wanted) = (5, 3, 4);
    let fault = ReadFault::WrongFieldCount { rec, found, wanted };
    for (block, depth, workers) in [
        (1, 1, 1),
        (2, 4, 1),
        (4, 1, 2),
        (BLOCK_LIMIT, DEPTH_LIMIT, WORKER_LIMIT),
    ] {
        for most in [1, 3, 8192] {
            let source = ScriptedSource::new(CUT_A, most);
            let followed = follow_one(&rt, alloc, source, plan_of(block, depth, workers)?)?;
            assert!(rt; is_cut(&followed, fault, 4), "in blocks of {block}");
            let estimator = &followed.estimator;
            assert!(rt; begin_with(SQUARE.rows, estimator.rows()), "the rows");
            let polygon: Polygon = estimator.polygon(alloc)?;
            assert!(rt; are_at(polygon.corners(), SQUARE.corners), "the corners");
        }
    }
    Ok(())
}

// A source that fails at each of its reads in turn: the fixes before are sent and taken, and the mark.
#[test]
fn the_fixes_before_a_failed_read_are_taken_and_the_mark(rt: HostRuntime) -> Result<(), Fail> {
    for most in [1, 3, 8, 8192] {
        let mut before = 0;
        for reads in 0..100 {
            let source = ScriptedSource::failing(SQUARE.text, most, reads);
            let followed = follow_one(&rt, rt.alloc(), source, plan_of(2, 4, 2)?)?;
            if is_name(&followed.read, SQUARE.name) {
                break;
            }
            let rows = followed.estimator.rows();
            let fixes = rows.len();
            assert!(rt;
                is_cut(&followed, ReadFault::Read, fixes),
                "after {reads} reads"
            );
            assert!(rt;
                before <= fixes && begin_with(SQUARE.rows, rows),
                "after {reads} reads"
            );
            before = fixes;
        }
        assert!(rt; before == 5, "all but the end by {most} bytes");
    }
    Ok(())
}
