// Runs over files that words name, in the order of the words.

use crate::commands::expect_ended;
use crate::memory::Memory;
use range_command::Output;
use range_pump::ThreadRuntime;
use std::fs;
use std::fs::File;
use std::process::Abort;
use std::rt::Files;
use std::test::Fail;
use test_doubles::{FILE_A, FILE_B};

const LINES_A: &[u8] =
    b"animal,A,fixes,5\nbox,A,0,0,10,10\nrow,A,1,0,1,0\nrow,A,2,60,2,0\nrow,A,3,120,3,100\nrow,A,4,180,4,200\nrow,A,5,240,4,200\ncorner,A,1,0,0\ncorner,A,2,10,0\ncorner,A,3,10,10\ncorner,A,4,0,10\npercent,A,50,3,3,50\npercent,A,95,5,4,200\npercent,A,100,5,4,200\n";

const LINES_B: &[u8] =
    b"animal,B,fixes,3\nbox,B,5,5,20,5\nrow,B,1,0,1,0\nrow,B,2,60,2,0\nrow,B,3,120,2,0\ncorner,B,1,5,5\ncorner,B,2,20,5\npercent,B,50,2,2,0\npercent,B,95,3,2,0\npercent,B,100,3,2,0\n";

const A_FIRST: &[u8] = b"overlap,A,B,1,5\noverlap,B,A,2,3\nend,2\n";

const B_FIRST: &[u8] = b"overlap,B,A,2,3\noverlap,A,B,1,5\nend,2\n";

// Linux gives no byte of this file, for a reason of its own.
const MEMORY: &str = "/proc/self/mem";

// The words write these parts, or are refused with status 1 by this text, and then write nothing.
fn expect<R: ThreadRuntime + Files<File = File> + AllocGlobal + Abort>(
    rt: &R,
    words: &[&str],
    parts: &[&[u8]],
    text: &str,
) -> Result<(), Fail> {
    let alloc = rt.alloc();
    let mut report = Vec::new(alloc);
    for part in parts {
        report.extend_from_slice(part)?;
    }
    let mut out = Output::new(Memory::new(Vec::new(alloc)));
    let status = u8::from(!text.is_empty());
    expect_ended(rt, words, b"".as_slice(), &mut out, (status, text))?;
    assert!(rt; out.outlet().writer.as_slice() == report.as_slice());
    Ok(())
}

// The words over the files of the folder write these parts, or are refused by this text.
fn expect_each<R: ThreadRuntime + Files<File = File> + AllocGlobal + Abort>(
    rt: &R,
) -> Result<(), Fail> {
    let same = "a.csv and a.csv have the same animal, A";
    let fields = "cut.csv: record 1: 3 fields where 4 are wanted";
    let reason = "/proc/self/mem: Input/output error";
    let missing = "missing.csv: No such file or directory";
    let cases = [
        (
            ["a.csv", "b.csv"].as_slice(),
            [LINES_A, LINES_B, A_FIRST].as_slice(),
            "",
        ),
        (&["b.csv", "a.csv"], &[LINES_B, LINES_A, B_FIRST], ""),
        (&["b.csv"], &[LINES_B, b"end,1\n"], ""),
        (&["a.csv", "a.csv"], &[], same),
        (&["a.csv", "cut.csv"], &[], fields),
        (&["a.csv", MEMORY], &[], reason),
        (&[MEMORY, "cut.csv"], &[], reason),
        (&["a.csv", "cut.csv", MEMORY], &[], fields),
        (&["a.csv", "missing.csv", "cut.csv"], &[], missing),
    ];
    for (words, parts, text) in cases {
        expect(rt, words, parts, text)?;
    }
    Ok(())
}

#[test]
fn files_are_read_in_the_order_of_the_words(rt: HostRuntime) -> Result<(), Fail> {
    let cut = b"animal,second,easting,northing\nA,0,0\n".as_slice();
    let files = [("a.csv", FILE_A), ("b.csv", FILE_B), ("cut.csv", cut)];
    for (path, text) in files {
        fs::write(&rt, path, text)?;
    }
    expect_each(&rt)?;
    for (path, _) in files {
        fs::remove_file(&rt, path)?;
    }
    Ok(())
}
