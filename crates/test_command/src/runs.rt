// What a run writes, and the status it ends with.

use crate::options::{LEVELS, PLAN, options_of};
use range_analysis::AnalyseFault;
use range_fixes::{Name, ReadFault};
use range_plane::Scale;
use range_pump::{FileSource, ThreadRuntime};
use range_run::{RunFault, run, status};
use std::alloc::Global;
use std::io::Write;
use std::process::Abort;
use std::test::Fail;
use test_doubles::{CUT_A, FILE_A, FILE_B, HEADER, QUOTED_A, ScriptedSource};

pub(crate) const REPORT_A: &[u8] =
    b"animal,A,fixes,5\nbox,A,0,0,10,10\nrow,A,1,0,1,0\nrow,A,2,60,2,0\nrow,A,3,120,3,100\nrow,A,4,180,4,200\nrow,A,5,240,4,200\ncorner,A,1,0,0\ncorner,A,2,10,0\ncorner,A,3,10,10\ncorner,A,4,0,10\npercent,A,50,3,3,50\npercent,A,95,5,4,200\npercent,A,100,5,4,200\nend,1\n";

// How many bytes a read gives: a few, or all of a file.
const READS: [usize; 3] = [1, 3, 8192];

/// Runs over one source with the options that are there where words give none.
pub(crate) fn run_over<R: ThreadRuntime + Abort, S: FileSource, W: Write>(
    rt: &R,
    alloc: Global,
    source: S,
    out: &mut W,
) -> Result<Result<(), RunFault>, Fail> {
    run_in(rt, alloc, source, Scale::Metre, out)
}

// The same with coordinates in this unit.
pub(crate) fn run_in<R: ThreadRuntime + Abort, S: FileSource, W: Write>(
    rt: &R,
    alloc: Global,
    source: S,
    unit: Scale,
    out: &mut W,
) -> Result<Result<(), RunFault>, Fail> {
    let options = options_of(alloc, &LEVELS, PLAN, unit)?;
    let mut sources = Vec::new(alloc);
    sources.push(source)?;
    Ok(run(rt, alloc, sources, &options, out))
}

// Runs in this unit over each text, and over it behind a byte order mark, by a few bytes a read and by all.
fn expect_reports<R: ThreadRuntime + Abort>(
    rt: &R,
    alloc: Global,
    unit: Scale,
    cases: &[(&[u8], &[u8])],
) -> Result<(), Fail> {
    for &(text, report) in cases {
        let mut marked = Vec::from_slice(alloc, b"\xEF\xBB\xBF")?;
        marked.extend_from_slice(text)?;
        for text in [text, marked.as_slice()] {
            expect_report(rt, alloc, unit, text, report)?;
        }
    }
    Ok(())
}

fn expect_report<R: ThreadRuntime + Abort>(
    rt: &R,
    alloc: Global,
    unit: Scale,
    text: &[u8],
    report: &[u8],
) -> Result<(), Fail> {
    for most in READS {
        let mut out = Vec::new(alloc);
        let source = ScriptedSource::new(text, most);
        let outcome = run_in(rt, alloc, source, unit, &mut out)?;
        assert!(rt; outcome == Ok(()) && status(&outcome) == 0);
        assert!(rt; out.as_slice() == report, "by {most} bytes");
    }
    Ok(())
}

#[test]
fn a_run_writes_this_report_and_ends_with_status_0(rt: HostRuntime) -> Result<(), Fail> {
    let cases = [
        (FILE_A, REPORT_A),
        (QUOTED_A, REPORT_A),
        (
            b"animal,second,easting,northing\n\xFF,7,16777216,3",
            b"animal,\xFF,fixes,1\nbox,\xFF,16777216,3,16777216,3\nrow,\xFF,1,7,1,0\ncorner,\xFF,1,16777216,3\npercent,\xFF,50,1,1,0\npercent,\xFF,95,1,1,0\npercent,\xFF,100,1,1,0\nend,1\n",
        ),
    ];
    expect_reports(&rt, rt.alloc(), Scale::Metre, &cases)
}

// Records that are used, and others among them, whose fixes are left out.
#[test]
fn fixes_of_records_that_are_not_used_are_left_out(rt: HostRuntime) -> Result<(), Fail> {
    let cases = [
        (
            b"animal,second,easting,northing,use\nA,0,0,0,1\nA,60,10,0,1\nA,120,10,10,1\nA,180,0,10,1\nA,240,5,5,1\n".as_slice(),
            REPORT_A,
        ),
        (
            b"animal,second,easting,northing,use\nA,0,99,0,0\nA,0,0,0,1\nA,60,10,0,1\nA,60,0,99,0\nA,120,10,10,1\nA,180,0,10,1\nA,240,5,5,1\nA,241,16777216,16777216,0\n",
            REPORT_A,
        ),
        (
            b"animal,second,easting,northing,use\nA,0,0,0,1\nA,60,10,0,1\nA,120,99,99,0\nA,180,10,10,1\n",
            b"animal,A,fixes,3\nbox,A,0,0,10,10\nrow,A,1,0,1,0\nrow,A,2,60,2,0\nrow,A,3,180,3,100\ncorner,A,1,0,0\ncorner,A,2,10,0\ncorner,A,3,10,10\npercent,A,50,2,2,0\npercent,A,95,3,3,100\npercent,A,100,3,3,100\nend,1\n",
        ),
    ];
    expect_reports(&rt, rt.alloc(), Scale::Metre, &cases)
}

// Ranges without area, the largest area, and corners that come, stay and go.
#[test]
fn ranges_of_each_shape_have_these_reports(rt: HostRuntime) -> Result<(), Fail> {
    let cases = [
        (
            FILE_B,
            b"animal,B,fixes,3\nbox,B,5,5,20,5\nrow,B,1,0,1,0\nrow,B,2,60,2,0\nrow,B,3,120,2,0\ncorner,B,1,5,5\ncorner,B,2,20,5\npercent,B,50,2,2,0\npercent,B,95,3,2,0\npercent,B,100,3,2,0\nend,1\n".as_slice(),
        ),
        (
            b"animal,second,easting,northing\nC,4,7,7\nC,4,7,7\nC,9,7,7\n".as_slice(),
            b"animal,C,fixes,3\nbox,C,7,7,7,7\nrow,C,1,4,1,0\nrow,C,2,4,1,0\nrow,C,3,9,1,0\ncorner,C,1,7,7\npercent,C,50,2,1,0\npercent,C,95,3,1,0\npercent,C,100,3,1,0\nend,1\n".as_slice(),
        ),
        (
            b"animal,second,easting,northing\nD,0,0,0\nD,1,2,2\nD,2,1,1\nD,3,4,4\n".as_slice(),
            b"animal,D,fixes,4\nbox,D,0,0,4,4\nrow,D,1,0,1,0\nrow,D,2,1,2,0\nrow,D,3,2,2,0\nrow,D,4,3,2,0\ncorner,D,1,0,0\ncorner,D,2,4,4\npercent,D,50,2,2,0\npercent,D,95,4,2,0\npercent,D,100,4,2,0\nend,1\n".as_slice(),
        ),
        (
            b"animal,second,easting,northing\nE,0,5,5\nE,1,6,5\nE,2,6,6\nE,3,0,5\n".as_slice(),
            b"animal,E,fixes,4\nbox,E,0,5,6,6\nrow,E,1,0,1,0\nrow,E,2,1,2,0\nrow,E,3,2,3,1\nrow,E,4,3,3,6\ncorner,E,1,0,5\ncorner,E,2,6,5\ncorner,E,3,6,6\npercent,E,50,2,2,0\npercent,E,95,4,3,6\npercent,E,100,4,3,6\nend,1\n".as_slice(),
        ),
        (
            b"animal,second,easting,northing\nF,0,0,0\nF,1,16777216,0\nF,2,16777216,16777216\nF,1099511627776,0,16777216\n".as_slice(),
            b"animal,F,fixes,4\nbox,F,0,0,16777216,16777216\nrow,F,1,0,1,0\nrow,F,2,1,2,0\nrow,F,3,2,3,281474976710656\nrow,F,4,1099511627776,4,562949953421312\ncorner,F,1,0,0\ncorner,F,2,16777216,0\ncorner,F,3,16777216,16777216\ncorner,F,4,0,16777216\npercent,F,50,2,2,0\npercent,F,95,4,4,562949953421312\npercent,F,100,4,4,562949953421312\nend,1\n".as_slice(),
        ),
        (
            b"animal,second,easting,northing\nG,0,0,0\nG,1,10,0\nG,2,10,10\nG,3,0,10\nG,4,15,5\nG,5,20,5\nG,6,5,5\n".as_slice(),
            b"animal,G,fixes,7\nbox,G,0,0,20,10\nrow,G,1,0,1,0\nrow,G,2,1,2,0\nrow,G,3,2,3,100\nrow,G,4,3,4,200\nrow,G,5,4,5,250\nrow,G,6,5,5,300\nrow,G,7,6,5,300\ncorner,G,1,0,0\ncorner,G,2,10,0\ncorner,G,3,20,5\ncorner,G,4,10,10\ncorner,G,5,0,10\npercent,G,50,4,4,100\npercent,G,95,7,5,300\npercent,G,100,7,5,300\nend,1\n".as_slice(),
        ),
        (
            b"animal,second,easting,northing\nH,0,0,0\nH,1,4,0\nH,2,5,2\nH,3,4,4\nH,4,0,4\nH,5,10,2\n".as_slice(),
            b"animal,H,fixes,6\nbox,H,0,0,10,4\nrow,H,1,0,1,0\nrow,H,2,1,2,0\nrow,H,3,2,3,8\nrow,H,4,3,4,20\nrow,H,5,4,5,36\nrow,H,6,5,5,56\ncorner,H,1,0,0\ncorner,H,2,4,0\ncorner,H,3,10,2\ncorner,H,4,4,4\ncorner,H,5,0,4\npercent,H,50,3,3,4\npercent,H,95,6,5,56\npercent,H,100,6,5,56\nend,1\n".as_slice(),
        ),
    ];
    expect_reports(&rt, rt.alloc(), Scale::Metre, &cases)
}

// Reports in decimetres, which begin with a line that says so: of the square of above, each coordinate ten
// times as great, and of the greatest square.
#[test]
fn a_report_in_decimetres_begins_with_its_unit(rt: HostRuntime) -> Result<(), Fail> {
    let cases = [
        (
            b"animal,second,easting,northing\nA,0,0,0\nA,60,100,0\nA,120,100,100\nA,180,0,100\nA,240,50,50\n".as_slice(),
            b"unit,dm\nanimal,A,fixes,5\nbox,A,0,0,100,100\nrow,A,1,0,1,0\nrow,A,2,60,2,0\nrow,A,3,120,3,10000\nrow,A,4,180,4,20000\nrow,A,5,240,4,20000\ncorner,A,1,0,0\ncorner,A,2,100,0\ncorner,A,3,100,100\ncorner,A,4,0,100\npercent,A,50,3,3,5000\npercent,A,95,5,4,20000\npercent,A,100,5,4,20000\nend,1\n".as_slice(),
        ),
        (
            b"animal,second,easting,northing\nF,0,0,0\nF,1,134217728,0\nF,2,134217728,134217728\nF,1099511627776,0,134217728\n",
            b"unit,dm\nanimal,F,fixes,4\nbox,F,0,0,134217728,134217728\nrow,F,1,0,1,0\nrow,F,2,1,2,0\nrow,F,3,2,3,18014398509481984\nrow,F,4,1099511627776,4,36028797018963968\ncorner,F,1,0,0\ncorner,F,2,134217728,0\ncorner,F,3,134217728,134217728\ncorner,F,4,0,134217728\npercent,F,50,2,2,0\npercent,F,95,4,4,36028797018963968\npercent,F,100,4,4,36028797018963968\nend,1\n",
        ),
    ];
    expect_reports(&rt, rt.alloc(), Scale::Decimetre, &cases)
}

#[test]
fn the_unit_of_two_animals_stands_once(rt: HostRuntime) -> Result<(), Fail> {
    let alloc = rt.alloc();
    let options = options_of(alloc, &[], PLAN, Scale::Decimetre)?;
    let first = b"animal,second,easting,northing\nA,0,16777217,0\n".as_slice();
    let second = b"animal,second,easting,northing\nB,0,16777217,0\n".as_slice();
    let sources = vec![in alloc; first, second]?;
    let mut out = Vec::new(alloc);
    assert!(rt; run(&rt, alloc, sources, &options, &mut out) == Ok(()));
    let report =
        b"unit,dm\nanimal,A,fixes,1\nbox,A,16777217,0,16777217,0\nrow,A,1,0,1,0\ncorner,A,1,16777217,0\nanimal,B,fixes,1\nbox,B,16777217,0,16777217,0\nrow,B,1,0,1,0\ncorner,B,1,16777217,0\noverlap,A,B,1,1\noverlap,B,A,1,1\nend,2\n";
    assert!(rt; out.as_slice() == report.as_slice());
    Ok(())
}

#[test]
fn coordinates_past_the_limit_of_their_unit_are_refused(rt: HostRuntime) -> Result<(), Fail> {
    let alloc = rt.alloc();
    let (m, dm) = (Scale::Metre, Scale::Decimetre);
    let (rec, field) = (1, 2);
    let cases = [
        (
            b"animal,second,easting,northing\nA,0,16777217,0\n".as_slice(),
            m,
            true,
        ),
        (
            b"animal,second,easting,northing\nA,0,16777217,0\n",
            dm,
            false,
        ),
        (
            b"animal,second,easting,northing\nA,0,134217729,0\n",
            dm,
            true,
        ),
    ];
    for (text, unit, is_refused) in cases {
        let mut out = Vec::new(alloc);
        let outcome = run_in(&rt, alloc, text, unit, &mut out)?;
        let fault = ReadFault::TooLarge { rec, field, unit };
        let refusal = RunFault::Analyse(AnalyseFault::File { file: 0, fault });
        assert!(rt; outcome == if is_refused { Err(refusal) } else { Ok(()) });
        assert!(rt; out.is_empty() == is_refused);
    }
    Ok(())
}

// A run over a text answers this fault with status 1 and writes nothing, by a few bytes a read and by all.
fn expect_fault<R: ThreadRuntime + Abort>(
    rt: &R,
    alloc: Global,
    text: &[u8],
    fault: ReadFault,
) -> Result<(), Fail> {
    for most in READS {
        let mut out = Vec::new(alloc);
        let source = ScriptedSource::new(text, most);
        let outcome = run_over(rt, alloc, source, &mut out)?;
        assert!(rt; status(&outcome) == 1 && out.is_empty());
        let refusal = RunFault::Analyse(AnalyseFault::File { file: 0, fault });
        assert!(rt; outcome == Err(refusal), "by {most} bytes");
    }
    Ok(())
}

#[test]
fn a_bad_file_ends_a_run_with_status_1_and_nothing_written(rt: HostRuntime) -> Result<(), Fail> {
    let alloc = rt.alloc();
    let wrong = |rec, found, wanted| ReadFault::WrongFieldCount { rec, found, wanted };
    let cases = [
        (b"".as_slice(), ReadFault::NoHeader),
        (HEADER, ReadFault::NoFixes),
        (b"Animal,second,easting,northing\n", ReadFault::BadHeader),
        (
            b"animal,second,easting,northing\nA,0,1,2\nA,0,3",
            wrong(2, 3, 4),
        ),
        (CUT_A, wrong(5, 3, 4)),
        (
            b"animal,second,easting,northing,Use\nA,0,0,0,1\n",
            ReadFault::BadHeader,
        ),
        (
            b"animal,second,easting,northing,use\nA,0,0,0,1\nA,0,0,0\n",
            wrong(2, 4, 5),
        ),
        (
            b"animal,second,easting,northing,use\nA,0,0,0,01\n",
            ReadFault::BadUse { rec: 1 },
        ),
        (
            b"animal,second,easting,northing,use\nA,60,0,0,0\nA,59,0,0,1\n",
            ReadFault::SecondFalls { rec: 2 },
        ),
        (
            b"animal,second,easting,northing,use\nA,0,0,0,0\nB,0,0,0,1\n",
            ReadFault::OtherAnimal { rec: 2 },
        ),
        (
            b"animal,second,easting,northing,use\nA,0,0,0,0\n",
            ReadFault::NoFixes,
        ),
    ];
    for (text, fault) in cases {
        expect_fault(&rt, alloc, text, fault)?;
    }
    Ok(())
}

// The animals of two files, and how they overlap; the same animal twice; and the first of two faults.
#[test]
fn two_files_have_a_report_with_overlaps_or_the_first_fault(rt: HostRuntime) -> Result<(), Fail> {
    let alloc = rt.alloc();
    let report =
        b"animal,A,fixes,5\nbox,A,0,0,10,10\nrow,A,1,0,1,0\nrow,A,2,60,2,0\nrow,A,3,120,3,100\nrow,A,4,180,4,200\nrow,A,5,240,4,200\ncorner,A,1,0,0\ncorner,A,2,10,0\ncorner,A,3,10,10\ncorner,A,4,0,10\npercent,A,100,5,4,200\npercent,A,50,3,3,50\nanimal,B,fixes,3\nbox,B,5,5,20,5\nrow,B,1,0,1,0\nrow,B,2,60,2,0\nrow,B,3,120,2,0\ncorner,B,1,5,5\ncorner,B,2,20,5\npercent,B,100,3,2,0\npercent,B,50,2,2,0\noverlap,A,B,1,5\noverlap,B,A,2,3\nend,2\n".as_slice();
    let same = AnalyseFault::SameAnimal {
        first: 0,
        second: 1,
        animal: Name::new(Vec::from_slice(alloc, b"A")?),
    };
    let empty = AnalyseFault::File {
        file: 0,
        fault: ReadFault::NoHeader,
    };
    let cases = [
        ([FILE_A, FILE_B], Ok(())),
        ([FILE_A, FILE_A], Err(RunFault::Analyse(same))),
        ([b"".as_slice(), HEADER], Err(RunFault::Analyse(empty))),
    ];
    for (files, expected) in cases {
        for plan in [PLAN, (1, 1, 8)] {
            let options = options_of(alloc, &[100, 50], plan, Scale::Metre)?;
            let sources = vec![in alloc; files[0], files[1]]?;
            let mut out = Vec::new(alloc);
            let outcome = run(&rt, alloc, sources, &options, &mut out);
            assert!(rt; outcome == expected);
            assert!(rt; outcome.is_ok() == (out.as_slice() == report));
            assert!(rt; outcome.is_ok() || out.is_empty());
        }
    }
    Ok(())
}

#[test]
fn each_end_of_a_run_has_its_status(rt: HostRuntime) -> Result<(), Fail> {
    let same = AnalyseFault::SameAnimal {
        first: 0,
        second: 1,
        animal: Name::new(Vec::from_slice(rt.alloc(), b"A")?),
    };
    let (file, fault) = (1, ReadFault::NoFixes);
    let cases = [
        (Ok(()), 0),
        (
            Err(RunFault::Analyse(AnalyseFault::File { file, fault })),
            1,
        ),
        (Err(RunFault::Analyse(same)), 1),
        (Err(RunFault::Analyse(AnalyseFault::OutOfMemory)), 3),
        (Err(RunFault::OutOfMemory), 3),
        (Err(RunFault::Write), 4),
        (Err(RunFault::Analyse(AnalyseFault::LineCut { file })), 5),
    ];
    for (outcome, expected) in cases {
        assert_eq!(rt; status(&outcome), expected);
    }
    Ok(())
}
