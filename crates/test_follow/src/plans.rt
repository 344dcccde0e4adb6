// Tests of plans, each of which gives the same rows, and of files that are not followed to their end.

use crate::checks::{expect_whole, follow_all, is_cut, is_whole, plan_of};
use crate::files::{Case, EAST, LIMITS, LINE, OUTWARD, SLOPE, SQUARE, STILL, WEST, sources_of};
use range_collect::Followed;
use range_fixes::ReadFault;
use range_options::{BLOCK_LIMIT, DEPTH_LIMIT, FILE_LIMIT, Plan, WORKER_LIMIT};
use range_plane::{FIX_LIMIT, Scale};
use range_pump::{FreeGate, ThreadRuntime};
use std::alloc::Global;
use std::process::Abort;
use std::test::Fail;
use test_doubles::{HEADER, MARKED_A, MARKED_AND_QUOTED_A, QUOTED_A, ScriptedSource};

// The least and the greatest blocks and depths, and blocks that do not hold a whole file.
const BLOCKS_AND_DEPTHS: [(u32, u32); 6] = [
    (1, 1),
    (1, DEPTH_LIMIT),
    (2, 1),
    (2, DEPTH_LIMIT),
    (BLOCK_LIMIT, 1),
    (BLOCK_LIMIT, DEPTH_LIMIT),
];

// Follows one source.
pub(crate) fn follow_one<R: ThreadRuntime + Abort>(
    rt: &R,
    alloc: Global,
    source: ScriptedSource<'static>,
    plan: Plan,
) -> Result<Followed, Fail> {
    let mut sources = Vec::new(alloc);
    sources.push(source)?;
    let mut all = follow_all(rt, alloc, sources, &FreeGate, plan)?;
    Ok(all.pop().ok_or("no result")?)
}

// Follows the files side by side, and checks each.
fn expect_all<R: ThreadRuntime + Abort>(
    rt: &R,
    alloc: Global,
    cases: &[Case],
    plan: Plan,
) -> Result<(), Fail> {
    let all = follow_all(rt, alloc, sources_of(alloc, cases)?, &FreeGate, plan)?;
    assert!(rt; all.len() == cases.len(), "results");
    for (followed, &case) in all.iter().zip(cases) {
        expect_whole(rt, alloc, followed, case)?;
    }
    Ok(())
}

#[test]
fn one_file_has_the_same_rows_in_each_plan(rt: HostRuntime) -> Result<(), Fail> {
    for case in [SQUARE, LINE, STILL, SLOPE, WEST, EAST, LIMITS, OUTWARD] {
        for workers in [1, WORKER_LIMIT] {
            for (block, depth) in BLOCKS_AND_DEPTHS {
                let plan = plan_of(block, depth, workers)?;
                expect_all(&rt, rt.alloc(), &[case], plan)?;
            }
        }
    }
    Ok(())
}

#[test]
fn two_files_have_the_same_rows_in_each_plan(rt: HostRuntime) -> Result<(), Fail> {
    for workers in [1, 2, WORKER_LIMIT] {
        for (block, depth) in BLOCKS_AND_DEPTHS {
            let plan = plan_of(block, depth, workers)?;
            expect_all(&rt, rt.alloc(), &[SQUARE, LINE], plan)?;
        }
    }
    Ok(())
}

#[test]
fn five_files_have_the_same_rows_with_each_number_of_workers(rt: HostRuntime) -> Result<(), Fail> {
    for workers in 1..=WORKER_LIMIT {
        for (block, depth) in [(1, 1), (256, 4)] {
            let plan = plan_of(block, depth, workers)?;
            expect_all(&rt, rt.alloc(), &[SQUARE, LINE, STILL, SLOPE, WEST], plan)?;
        }
    }
    Ok(())
}

#[test]
fn quotes_and_a_byte_order_mark_change_nothing(rt: HostRuntime) -> Result<(), Fail> {
    for text in [MARKED_A, QUOTED_A, MARKED_AND_QUOTED_A] {
        for workers in [1, WORKER_LIMIT] {
            let cases = [Case { text, ..SQUARE }, LINE];
            expect_all(&rt, rt.alloc(), &cases, plan_of(2, 4, workers)?)?;
        }
    }
    Ok(())
}

#[test]
fn as_many_files_as_there_may_be_are_followed(rt: HostRuntime) -> Result<(), Fail> {
    for workers in [1, WORKER_LIMIT] {
        expect_all(
            &rt,
            rt.alloc(),
            &[OUTWARD; FILE_LIMIT as usize],
            plan_of(1, 1, workers)?,
        )?;
    }
    Ok(())
}

#[test]
fn fixes_that_the_polygon_before_their_block_covers_are_not_tested(
    rt: HostRuntime,
) -> Result<(), Fail> {
    for (block, tested) in [(1, 6), (4, 6), (7, 7)] {
        let followed = follow_one(
            &rt,
            rt.alloc(),
            ScriptedSource::new(OUTWARD.text, 8192),
            plan_of(block, 4, 1)?,
        )?;
        assert!(rt;
            followed.estimator.tested() == tested,
            "in blocks of {block}"
        );
    }
    Ok(())
}

// The header, records of one fix, and the rest.
fn repeated(times: u64, rest: &'static [u8]) -> ScriptedSource<'static> {
    ScriptedSource::repeated(HEADER, b"A,0,0,0\n", times, rest, 8192)
}

#[test]
fn as_many_fixes_as_a_file_may_have_are_taken(rt: HostRuntime) -> Result<(), Fail> {
    let source = repeated(u64::from(FIX_LIMIT), b"");
    let followed = follow_one(&rt, rt.alloc(), source, plan_of(256, 4, 1)?)?;
    assert!(rt; is_whole(&followed, FIX_LIMIT as usize), "the end");
    assert!(rt; followed.estimator.tested() == 256, "tested");
    Ok(())
}

#[test]
fn a_fix_more_than_the_most_is_refused_behind_all_others(rt: HostRuntime) -> Result<(), Fail> {
    let most = u64::from(FIX_LIMIT);
    for (times, rest) in [
        (most, b"A,0,0,0\n".as_slice()),
        (most, b"A,0,x"),
        (u64::MAX, b""),
    ] {
        let source = repeated(times, rest);
        let followed = follow_one(&rt, rt.alloc(), source, plan_of(BLOCK_LIMIT, 4, 1)?)?;
        let fault = ReadFault::TooManyFixes;
        assert!(rt; is_cut(&followed, fault, FIX_LIMIT as usize), "the fault");
    }
    Ok(())
}

#[test]
fn a_plan_is_made_within_the_limits_alone(rt: HostRuntime) -> Result<(), Fail> {
    for (block, depth, workers) in [
        (1, 1, 1),
        (BLOCK_LIMIT, DEPTH_LIMIT, WORKER_LIMIT),
        (256, 4, 2),
    ] {
        for unit in [Scale::Metre, Scale::Decimetre] {
            let plan = Plan::new(block, depth, workers, unit).ok_or("no plan")?;
            assert!(rt; plan.block == block && plan.depth == depth);
            assert!(rt; plan.workers == workers && plan.unit == unit);
        }
    }
    for (block, depth, workers) in [
        (0, 1, 1),
        (1, 0, 1),
        (1, 1, 0),
        (BLOCK_LIMIT + 1, 1, 1),
        (1, DEPTH_LIMIT + 1, 1),
        (256, 4, WORKER_LIMIT + 1),
    ] {
        assert!(rt; Plan::new(block, depth, workers, Scale::Metre).is_none());
    }
    Ok(())
}
