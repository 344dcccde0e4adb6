// One animal, two and five in many plans.

use crate::options::{LEVELS, options_of};
use crate::runs::REPORT_A;
use range_options::{BLOCK_LIMIT, DEPTH_LIMIT, WORKER_LIMIT};
use range_plane::Scale;
use range_pump::ThreadRuntime;
use range_run::run;
use std::alloc::Global;
use std::process::Abort;
use std::test::Fail;
use test_doubles::{FILE_A, FILE_B};

const FILES: [&[u8]; 5] = [
    FILE_A,
    FILE_B,
    b"animal,second,easting,northing\nC,0,7,7\nC,0,7,7\nC,0,7,7\n",
    b"animal,second,easting,northing\nD,0,0,0\nD,0,2,2\nD,0,1,1\nD,0,4,4\n",
    b"animal,second,easting,northing\nE,0,5,5\nE,0,6,5\nE,0,6,6\nE,0,0,5\n",
];

// Made by a program that goes by the definitions: corners by trying all triangles, an order by trying all.
const REPORT: &[u8] =
    b"animal,A,fixes,5\nbox,A,0,0,10,10\nrow,A,1,0,1,0\nrow,A,2,60,2,0\nrow,A,3,120,3,100\nrow,A,4,180,4,200\nrow,A,5,240,4,200\ncorner,A,1,0,0\ncorner,A,2,10,0\ncorner,A,3,10,10\ncorner,A,4,0,10\npercent,A,50,3,3,50\npercent,A,95,5,4,200\npercent,A,100,5,4,200\nanimal,B,fixes,3\nbox,B,5,5,20,5\nrow,B,1,0,1,0\nrow,B,2,60,2,0\nrow,B,3,120,2,0\ncorner,B,1,5,5\ncorner,B,2,20,5\npercent,B,50,2,2,0\npercent,B,95,3,2,0\npercent,B,100,3,2,0\nanimal,C,fixes,3\nbox,C,7,7,7,7\nrow,C,1,0,1,0\nrow,C,2,0,1,0\nrow,C,3,0,1,0\ncorner,C,1,7,7\npercent,C,50,2,1,0\npercent,C,95,3,1,0\npercent,C,100,3,1,0\nanimal,D,fixes,4\nbox,D,0,0,4,4\nrow,D,1,0,1,0\nrow,D,2,0,2,0\nrow,D,3,0,2,0\nrow,D,4,0,2,0\ncorner,D,1,0,0\ncorner,D,2,4,4\npercent,D,50,2,2,0\npercent,D,95,4,2,0\npercent,D,100,4,2,0\nanimal,E,fixes,4\nbox,E,0,5,6,6\nrow,E,1,0,1,0\nrow,E,2,0,2,0\nrow,E,3,0,3,1\nrow,E,4,0,3,6\ncorner,E,1,0,5\ncorner,E,2,6,5\ncorner,E,3,6,6\npercent,E,50,2,2,0\npercent,E,95,4,3,6\npercent,E,100,4,3,6\noverlap,A,B,1,5\noverlap,A,C,0,5\noverlap,A,D,1,5\noverlap,A,E,1,5\noverlap,B,A,2,3\noverlap,B,C,0,3\noverlap,B,D,0,3\noverlap,B,E,1,3\noverlap,C,A,3,3\noverlap,C,B,0,3\noverlap,C,D,0,3\noverlap,C,E,0,3\noverlap,D,A,4,4\noverlap,D,B,0,4\noverlap,D,C,0,4\noverlap,D,E,0,4\noverlap,E,A,4,4\noverlap,E,B,2,4\noverlap,E,C,0,4\noverlap,E,D,0,4\nend,5\n";

// Written out by hand, as the corners and overlaps of a square and a line across it.
const REPORT_OF_TWO: &[u8] =
    b"animal,A,fixes,5\nbox,A,0,0,10,10\nrow,A,1,0,1,0\nrow,A,2,60,2,0\nrow,A,3,120,3,100\nrow,A,4,180,4,200\nrow,A,5,240,4,200\ncorner,A,1,0,0\ncorner,A,2,10,0\ncorner,A,3,10,10\ncorner,A,4,0,10\npercent,A,50,3,3,50\npercent,A,95,5,4,200\npercent,A,100,5,4,200\nanimal,B,fixes,3\nbox,B,5,5,20,5\nrow,B,1,0,1,0\nrow,B,2,60,2,0\nrow,B,3,120,2,0\ncorner,B,1,5,5\ncorner,B,2,20,5\npercent,B,50,2,2,0\npercent,B,95,3,2,0\npercent,B,100,3,2,0\noverlap,A,B,1,5\noverlap,B,A,2,3\nend,2\n";

// The files have this report, whatever the workers, the blocks and their lines: in forty plans.
fn expect_report<R: ThreadRuntime + Abort>(
    rt: &R,
    alloc: Global,
    files: &[&'static [u8]],
    report: &[u8],
) -> Result<(), Fail> {
    assert!(rt; !files.is_empty() && files.len() <= 5, "files");
    for workers in 1..=WORKER_LIMIT {
        for (block, depth) in [
            (1, 1),
            (1, DEPTH_LIMIT),
            (256, 4),
            (BLOCK_LIMIT, 1),
            (BLOCK_LIMIT, DEPTH_LIMIT),
        ] {
            let plan = (block, depth, workers);
            let options = options_of(alloc, &LEVELS, plan, Scale::Metre)?;
            let sources = Vec::from_slice(alloc, files)?;
            let mut out = Vec::new(alloc);
            assert!(rt; run(rt, alloc, sources, &options, &mut out) == Ok(()));
            assert!(rt; out.as_slice() == report, "{workers} workers");
        }
    }
    Ok(())
}

#[test]
fn one_animal_has_the_same_report_in_each_plan(rt: HostRuntime) -> Result<(), Fail> {
    expect_report(&rt, rt.alloc(), &FILES[..1], REPORT_A)
}

#[test]
fn two_animals_have_the_same_report_in_each_plan(rt: HostRuntime) -> Result<(), Fail> {
    expect_report(&rt, rt.alloc(), &FILES[..2], REPORT_OF_TWO)
}

#[test]
fn five_animals_have_the_same_report_in_each_plan(rt: HostRuntime) -> Result<(), Fail> {
    expect_report(&rt, rt.alloc(), &FILES, REPORT)
}
