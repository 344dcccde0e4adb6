// Tests of worked files that are analysed in several plans, by a few bytes a read and by all.

use crate::analyses::analysed;
use crate::files::same_animal;
use crate::tables::{A_TABLES, expect_animals};
use range_analysis::{AnalyseFault, Analysis};
use range_fixes::ReadFault;
use range_options::{BLOCK_LIMIT, DEPTH_LIMIT, Plan, WORKER_LIMIT};
use range_plane::Scale;
use range_pump::{FreeGate, ThreadRuntime};
use std::alloc::Global;
use std::process::Abort;
use std::test::Fail;
use test_doubles::{
    CUT_A, FILE_A, FILE_B, HEADER, MARKED_A, MARKED_AND_QUOTED_A, QUOTED_A, ScriptedSource,
};

// The third of three seconds is less than the second before it.
const FALLING: &[u8] = b"animal,second,easting,northing\nA,60,0,0\nA,60,0,0\nA,59,0,0\n";

// Blocks, depths and workers.
const PLANS: [(u32, u32, u32); 3] = [
    (1, 1, 1),
    (2, 4, 2),
    (BLOCK_LIMIT, DEPTH_LIMIT, WORKER_LIMIT),
];

// What these files come to by this plan, at so many bytes a read.
fn analysis_of<R: ThreadRuntime + Abort>(
    rt: &R,
    alloc: Global,
    texts: &[&[u8]],
    plan: (u32, u32, u32),
    most: usize,
) -> Result<Result<Analysis, AnalyseFault>, Fail> {
    let mut sources = Vec::new(alloc);
    for &text in texts {
        sources.push(ScriptedSource::new(text, most))?;
    }
    let (block, depth, workers) = plan;
    let plan = Plan::new(block, depth, workers, Scale::Metre).ok_or("no plan")?;
    analysed(rt, alloc, sources, &FreeGate, plan)
}

// Checks that these files have no analysis for this reason.
fn expect_refused<R: ThreadRuntime + Abort>(
    rt: &R,
    alloc: Global,
    texts: &[&[u8]],
    expected: AnalyseFault,
) -> Result<(), Fail> {
    for plan in PLANS {
        for most in [1, 3, 8192] {
            let answer = analysis_of(rt, alloc, texts, plan, most)?;
            assert!(rt; answer.err().as_ref() == Some(&expected), "{expected}");
        }
    }
    Ok(())
}

#[test]
fn files_with_a_fault_or_one_animal_are_refused(rt: HostRuntime) -> Result<(), Fail> {
    let alloc = rt.alloc();
    let (rec, found, wanted) = (5, 3, 4);
    let fields = ReadFault::WrongFieldCount { rec, found, wanted };
    let of_file = |file, fault| AnalyseFault::File { file, fault };
    expect_refused(&rt, alloc, &[CUT_A], of_file(0, fields))?;
    expect_refused(&rt, alloc, &[FILE_B, CUT_A], of_file(1, fields))?;
    let repeated = same_animal(alloc, 0, 2, b"A")?;
    expect_refused(&rt, alloc, &[FILE_A, FILE_B, FILE_A], repeated)?;
    let empty = of_file(1, ReadFault::NoFixes);
    expect_refused(&rt, alloc, &[FILE_A, HEADER, FILE_A], empty)?;
    let falls = of_file(0, ReadFault::SecondFalls { rec: 3 });
    expect_refused(&rt, alloc, &[FALLING], falls)
}

#[test]
fn quotes_and_a_byte_order_mark_change_nothing(rt: HostRuntime) -> Result<(), Fail> {
    for text in [FILE_A, MARKED_A, QUOTED_A, MARKED_AND_QUOTED_A] {
        for plan in PLANS {
            for most in [1, 3, 8192] {
                let analysis = analysis_of(&rt, rt.alloc(), &[text], plan, most)?
                    .ok()
                    .ok_or("no analysis")?;
                expect_animals(&rt, &analysis, &[A_TABLES]);
                assert!(rt; analysis.overlaps.as_slice().is_empty(), "overlaps");
            }
        }
    }
    Ok(())
}
