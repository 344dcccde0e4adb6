// What the program answers to whole command lines: its status, its report and its line of fault.

use crate::failures::{Failures, Output};
use crate::memory::Memory;
use crate::options::{LEVELS_WORD, UNIT_WORD};
use crate::runs::REPORT_A;
use crate::started::status_of;
use range_pump::ThreadRuntime;
use std::fs::File;
use std::process::Abort;
use std::rt::Files;
use test_doubles::FILE_A;

/// A command line over an input is answered by this status and this line, and by file A's report where it is whole.
pub(crate) fn expect<R: ThreadRuntime + Files<File = File> + AllocGlobal + Abort>(
    rt: &R,
    words: &[&[u8]],
    input: &[u8],
    status: u8,
    line: &str,
) {
    let alloc = rt.alloc();
    let mut out = range_command::Output::new(Memory::new(Vec::new(alloc)));
    let mut errors = range_command::Output::new(Memory::new(Vec::new(alloc)));
    let answered = status_of(rt, words, input, &mut out, &mut errors);
    assert!(rt; answered == status, "{answered}");
    assert!(rt; errors.outlet().writer.as_slice() == line.as_bytes());
    assert!(rt; out.outlet().is_finished == (status == 0));
    let report = if status == 0 { REPORT_A } else { b"" };
    assert!(rt; out.outlet().writer.as_slice() == report);
}

#[test]
fn a_whole_run_is_answered_by_status_0_and_its_report(rt: HostRuntime) {
    let all = [
        b"homerange".as_slice(),
        b"--percent",
        LEVELS_WORD,
        b"--unit",
        UNIT_WORD,
        b"--block",
        b"2",
        b"--depth",
        b"3",
        b"--workers",
        b"1",
    ];
    for words in [&all[..1], all.as_slice()] {
        expect(&rt, words, FILE_A, 0, "");
    }
}

// No word is left out, wherever it stands, and none ends the line.
#[test]
fn no_word_is_left_out_wherever_it_stands(rt: HostRuntime) {
    let line = "homerange: unexpected argument '--bogus' found\n";
    let late = [
        b"homerange".as_slice(),
        b"--percent",
        b"50",
        b"--unit",
        UNIT_WORD,
        b"--block",
        b"2",
        b"--depth",
        b"3",
        b"--workers",
        b"1",
        b"--bogus",
    ];
    expect(&rt, &[b"homerange", b"--bogus"], FILE_A, 2, line);
    expect(&rt, &[b"homerange", b"", b"--bogus"], FILE_A, 2, line);
    expect(&rt, late.as_slice(), FILE_A, 2, line);
}

#[test]
fn a_file_that_is_missing_or_bad_is_told_with_status_1(rt: HostRuntime) {
    let line = "homerange: /no/such/fox.csv: No such file or directory\n";
    expect(&rt, &[b"homerange", b"/no/such/fox.csv"], FILE_A, 1, line);
    let fox = b"animal,second,easting,northing\nfox,1,2,3\nfox,1.5,2,3\n";
    let line =
        "homerange: standard input: record 2: second is not a whole number: no point, sign, space or exponent\n";
    expect(&rt, &[b"homerange"], fox, 1, line);
}

// An output that fails is told, but not where it is a pipe whose reader has gone.
#[test]
fn an_output_that_fails_is_told_but_not_a_closed_pipe(rt: HostRuntime) {
    let alloc = rt.alloc();
    let full = "homerange: standard output: No space left on device\n";
    for (number, line) in [(28, full), (32, "")] {
        for words in [
            [b"homerange".as_slice()].as_slice(),
            &[b"homerange", b"--help"],
        ] {
            let failures = Failures::one_after(1, number);
            let mut out = range_command::Output::new(Memory::new(Output::new(
                Vec::new(alloc),
                8,
                failures,
            )));
            let mut errors = range_command::Output::new(Memory::new(Vec::new(alloc)));
            let status = status_of(&rt, words, FILE_A, &mut out, &mut errors);
            assert!(rt; status == 4 && errors.outlet().writer.as_slice() == line.as_bytes());
        }
    }
}
