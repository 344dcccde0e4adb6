// What the program says where the system fails, and failures that pass.

use crate::commands::expect_ended;
use crate::failures::{Failures, Output, Source};
use crate::memory::Memory;
use crate::runs::REPORT_A;
use range_pump::ThreadRuntime;
use std::fs::File;
use std::io::ErrorKind;
use std::process::Abort;
use std::rt::Files;
use std::test::Fail;
use test_doubles::{FILE_A, ScriptedSource};

// The numbers of failures that the system gives.
const INTERRUPTED: i32 = 4;

const INPUT_OUTPUT: i32 = 5;

const NO_SPACE: i32 = 28;

const BROKEN_PIPE: i32 = 32;

// These words, over file A in pieces of eight bytes whose reads and whose writes fail so, end with this status and this
// text, and so many bytes are written, of the report where there are no words. Whether the output's reader has gone.
fn is_left<R: ThreadRuntime + Files<File = File> + AllocGlobal + Abort>(
    rt: &R,
    words: &[&str],
    failures: (Failures, Failures),
    ended: (u8, &str),
    written: usize,
) -> Result<bool, Fail> {
    let (failures, writes) = failures;
    let pieces = ScriptedSource::new(FILE_A, 8);
    let source = Source { pieces, failures };
    let mut out = range_command::Output::new(Memory::new(Output::new(
        Vec::new(rt.alloc()),
        8,
        writes,
    )));
    expect_ended(rt, words, source, &mut out, ended)?;
    let held = out.outlet().writer.held.as_slice();
    assert!(rt; held.len() == written, "{written} bytes");
    assert!(rt; !words.is_empty() || REPORT_A.starts_with(held));
    let failure = out.failure();
    Ok(failure.is_some_and(|error| error.kind() == ErrorKind::BrokenPipe))
}

// The reason of a failed read, and nothing is written.
#[test]
fn a_failed_read_is_told_by_its_reason(rt: HostRuntime) -> Result<(), Fail> {
    let cases = [
        (INPUT_OUTPUT, "standard input: Input/output error"),
        (0, "standard input: a read failed"),
    ];
    for (number, text) in cases {
        for before in 0..12 {
            let failures = (Failures::one_after(before, number), Failures::none());
            assert!(rt; !is_left(&rt, &[], failures, (1, text), 0)?);
        }
    }
    Ok(())
}

// The reason of a failed write of the report and of the help.
#[test]
fn a_failed_write_is_told_by_its_reason(rt: HostRuntime) -> Result<(), Fail> {
    let cases = [
        (NO_SPACE, "standard output: No space left on device", false),
        (BROKEN_PIPE, "standard output: Broken pipe", true),
    ];
    for (number, text, has_gone) in cases {
        for words in [[].as_slice(), &["--help"]] {
            for before in [0, 1, REPORT_A.len() / 8] {
                let failures = (Failures::none(), Failures::one_after(before, number));
                let written = before.saturating_mul(8);
                let left = is_left(&rt, words, failures, (4, text), written)?;
                assert!(rt; left == has_gone);
            }
        }
    }
    Ok(())
}

// The reason of a flush that failed, after all was written.
#[test]
fn a_failed_flush_is_told_by_its_reason(rt: HostRuntime) -> Result<(), Fail> {
    let mut full = Output::new(Vec::new(rt.alloc()), 8, Failures::none());
    full.can_flush = false;
    let mut out = range_command::Output::new(Memory::new(full));
    let text = "standard output: No space left on device";
    expect_ended(&rt, &[], FILE_A, &mut out, (4, text))?;
    assert!(rt;
        out.outlet().writer.held.as_slice() == REPORT_A && out.outlet().writer.flushes == 1
    );
    Ok(())
}

// After a failed write the output does not answer again that all is out, though later writes pass; but it does where a
// signal interrupted that write.
#[test]
fn an_output_that_has_failed_stays_failed(rt: HostRuntime) -> Result<(), Fail> {
    let full = "standard output: No space left on device";
    let interrupted = "standard output: Interrupted system call";
    for (count, number, text, later) in [
        (1, NO_SPACE, full, (4, full)),
        (16, INTERRUPTED, interrupted, (0, "")),
    ] {
        let failures = Failures {
            before: 0,
            count,
            number,
        };
        let failing = Output::new(Vec::new(rt.alloc()), 8, failures);
        let mut out = range_command::Output::new(Memory::new(failing));
        expect_ended(&rt, &[], FILE_A, &mut out, (4, text))?;
        expect_ended(&rt, &[], FILE_A, &mut out, later)?;
        assert!(rt; out.outlet().writer.held.as_slice() == REPORT_A);
        assert!(rt; out.outlet().is_finished == (later.0 == 0));
    }
    Ok(())
}

// A read or a write that a signal interrupts fifteen times is as if it had not been, and one that is
// interrupted sixteen times has failed.
#[test]
fn fifteen_interruptions_are_as_none_and_sixteen_are_a_failure(
    rt: HostRuntime,
) -> Result<(), Fail> {
    for before in [0usize, 5, 11] {
        for (count, are_failed) in [(1, false), (15, false), (16, true)] {
            let failures = Failures {
                before,
                count,
                number: INTERRUPTED,
            };
            let (read, written) = if are_failed {
                (0, before.saturating_mul(8))
            } else {
                (REPORT_A.len(), REPORT_A.len())
            };
            let text = "standard input: Interrupted system call";
            let ended = if are_failed { (1, text) } else { (0, "") };
            let reads = (failures, Failures::none());
            assert!(rt; !is_left(&rt, &[], reads, ended, read)?);
            let text = "standard output: Interrupted system call";
            let ended = if are_failed { (4, text) } else { (0, "") };
            let writes = (Failures::none(), failures);
            assert!(rt; !is_left(&rt, &[], writes, ended, written)?);
        }
    }
    Ok(())
}
