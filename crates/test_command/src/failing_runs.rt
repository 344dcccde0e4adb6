// Runs whose source or output fails at each of its calls, and a source without an end.

use crate::failures::{Failures, Output};
use crate::runs::{REPORT_A, run_over};
use range_analysis::AnalyseFault;
use range_fixes::ReadFault;
use range_pump::ThreadRuntime;
use range_run::{RunFault, status, write_text};
use std::alloc::Global;
use std::process::Abort;
use std::test::Fail;
use test_doubles::{FILE_A, HEADER, ScriptedSource};

// The number of a failure that the system gives.
const NUMBER: i32 = 5;

// The refusal of the only file.
fn refusal(fault: ReadFault) -> Result<(), RunFault> {
    Err(RunFault::Analyse(AnalyseFault::File { file: 0, fault }))
}

// Whether a run is whole whose source of so many bytes a read fails after so many reads. If not, it answers the
// failed read, and nothing is written.
fn is_whole<R: ThreadRuntime + Abort>(
    rt: &R,
    alloc: Global,
    most: usize,
    before: usize,
) -> Result<bool, Fail> {
    let source = ScriptedSource::failing(FILE_A, most, before as u64);
    let mut out = Vec::new(alloc);
    let outcome = run_over(rt, alloc, source, &mut out)?;
    if outcome == Ok(()) {
        assert!(rt; out.as_slice() == REPORT_A);
        return Ok(true);
    }
    assert!(rt; outcome == refusal(ReadFault::Read) && out.is_empty());
    assert!(rt; status(&outcome) == 1);
    Ok(false)
}

// How many pieces of so many bytes at most there are of these.
fn pieces_of(rt: &impl Abort, bytes: &[u8], most: usize) -> usize {
    assert!(rt; most > 0);
    bytes.len().div_ceil(most)
}

// A source fails at each of its reads in turn, and the last time at none: there is one for each of its pieces,
// and one at the end at least.
#[test]
fn a_read_that_fails_is_answered_and_nothing_is_written(rt: HostRuntime) -> Result<(), Fail> {
    let alloc = rt.alloc();
    for most in [1, 3, 8, FILE_A.len()] {
        let pieces = pieces_of(&rt, FILE_A, most);
        for before in 0..=pieces {
            assert!(rt; !is_whole(&rt, alloc, most, before)?);
        }
        assert!(rt; is_whole(&rt, alloc, most, pieces.saturating_add(3))?);
    }
    Ok(())
}

// A source that repeats a record without end has more fixes than a file may have, however it is cut into reads.
#[test]
fn a_source_without_end_has_too_many_fixes(rt: HostRuntime) -> Result<(), Fail> {
    for most in [1, 3, 8192] {
        let source = ScriptedSource::repeated(HEADER, b"A,0,0,0\n", u64::MAX, b"", most);
        let mut out = Vec::new(rt.alloc());
        let outcome = run_over(&rt, rt.alloc(), source, &mut out)?;
        assert!(rt; outcome == refusal(ReadFault::TooManyFixes) && out.is_empty());
    }
    Ok(())
}

// An output that fails after so many writes holds what these took of the report, and all of it is as many writes; the
// outcome says which.
fn expect_prefix<R: Abort>(
    rt: &R,
    outcome: &Result<(), RunFault>,
    out: &Output,
    before: usize,
    writes: usize,
) {
    let length = REPORT_A.len().min(out.most.saturating_mul(before));
    assert!(rt;
        out.held.as_slice() == &REPORT_A[..length],
        "after {before} writes"
    );
    let is_whole = before == writes;
    assert!(rt; outcome.is_ok() == is_whole && status(outcome) == if is_whole { 0 } else { 4 });
    assert!(rt; out.flushes == u32::from(is_whole));
}

// An output fails at each of its writes in turn, and then at none. A report as short as this goes out as one text: each
// write before gave all bytes that the output takes at once.
#[test]
fn a_write_that_fails_leaves_what_was_written_before(rt: HostRuntime) -> Result<(), Fail> {
    for most in [1, 10, REPORT_A.len()] {
        let writes = pieces_of(&rt, REPORT_A, most);
        for before in 0..=writes {
            let failures = Failures::one_after(before, NUMBER);
            let mut out = Output::new(Vec::new(rt.alloc()), most, failures);
            let outcome = run_over(&rt, rt.alloc(), FILE_A, &mut out)?;
            expect_prefix(&rt, &outcome, &out, before, writes);
            let mut out = Output::new(Vec::new(rt.alloc()), most, failures);
            let outcome = write_text(&mut out, REPORT_A);
            expect_prefix(&rt, &outcome, &out, before, writes);
        }
    }
    Ok(())
}

// An output that takes no byte, and one that cannot be flushed.
#[test]
fn an_output_that_takes_nothing_or_cannot_be_flushed_is_answered(
    rt: HostRuntime,
) -> Result<(), Fail> {
    let alloc = rt.alloc();
    for (most, can_flush, report) in [(0, true, b"".as_slice()), (999, false, REPORT_A)] {
        let mut out = Output::new(Vec::new(alloc), most, Failures::none());
        out.can_flush = can_flush;
        let outcome = run_over(&rt, alloc, FILE_A, &mut out)?;
        assert!(rt; outcome == Err(RunFault::Write) && status(&outcome) == 4);
        assert!(rt; out.held.as_slice() == report);
        let mut out = Output::new(Vec::new(alloc), most, Failures::none());
        out.can_flush = can_flush;
        assert!(rt; write_text(&mut out, REPORT_A) == Err(RunFault::Write));
        assert!(rt; out.held.as_slice() == report);
    }
    Ok(())
}
