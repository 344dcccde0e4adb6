// The line that says why there is no report, and the status.

use crate::commands::expect_ended;
use crate::line::texts;
use crate::memory::Memory;
use range_analysis::AnalyseFault;
use range_command::{Output, Refusal};
use range_fixes::{Name, ReadFault};
use range_options::FILE_LIMIT;
use range_pump::ThreadRuntime;
use range_run::RunFault;
use std::alloc::Global;
use std::fs::File;
use std::process::Abort;
use std::rt::Files;
use std::test::Fail;

// A refusal is told by this text and this status.
fn expect_told<R: Abort>(
    rt: &R,
    alloc: Global,
    refusal: &Refusal,
    status: u8,
    text: &str,
) -> Result<(), Fail> {
    let shown = format!(in alloc; "{refusal}")?;
    assert!(rt; shown.as_str() == text, "{shown}");
    assert!(rt; refusal.status() == status);
    Ok(())
}

// Words are refused by this text and this status, and nothing is written.
fn expect_refused<R: ThreadRuntime + Files<File = File> + AllocGlobal + Abort>(
    rt: &R,
    words: &[&str],
    status: u8,
    text: &str,
) -> Result<(), Fail> {
    let mut out = Output::new(Memory::new(Vec::new(rt.alloc())));
    expect_ended(rt, words, b"".as_slice(), &mut out, (status, text))?;
    assert!(rt; out.outlet().writer.is_empty());
    Ok(())
}

#[test]
fn bad_words_are_told_with_status_2(rt: HostRuntime) -> Result<(), Fail> {
    let cases = [
        (
            ["--bogus"].as_slice(),
            "unexpected argument '--bogus' found",
        ),
        (
            &["--block", "0"],
            "invalid value '0' for '--block <N>': 0 is not in 1..=1024",
        ),
        (
            &["--depth"],
            "a value is required for '--depth <N>' but none was supplied",
        ),
        (
            &["--percent", "50,x"],
            "--percent: level 2 is not a whole number from 1 to 100",
        ),
        (
            &["--percent", "1,2,3,4,5,6,7,8,9"],
            "--percent: more than 8 levels",
        ),
    ];
    for (words, text) in cases {
        expect_refused(&rt, words, 2, text)?;
    }
    Ok(())
}

// Words whose characters would end the line, or change how it is shown.
#[test]
fn characters_that_are_not_seen_are_written_out(rt: HostRuntime) -> Result<(), Fail> {
    let cases = [
        (
            ["--bo\ngus\u{1b}"].as_slice(),
            "unexpected argument '--bo\\ngus\\u{1b}' found",
        ),
        (
            &["--block", "5\n\nx"],
            "invalid value '5\\n\\nx' for '--block <N>': invalid digit found in string",
        ),
        (
            &["--unit", "k\\m\r\nm"],
            "invalid value 'k\\\\m\\r\\nm' for '--unit <UNIT>': k\\\\m\\r\\nm is neither m nor dm",
        ),
        (
            &["--\u{80}\u{9b}\u{9f}"],
            "unexpected argument '--\\u{80}\\u{9b}\\u{9f}' found",
        ),
        (
            &["--\u{2028}\u{202e}\u{2066}"],
            "unexpected argument '--\\u{2028}\\u{202e}\\u{2066}' found",
        ),
    ];
    for (words, text) in cases {
        expect_refused(&rt, words, 2, text)?;
    }
    Ok(())
}

// Files that cannot be opened, of which the first is told, so that its name can be told from the line.
#[test]
fn the_first_file_that_cannot_be_opened_is_told(rt: HostRuntime) -> Result<(), Fail> {
    let cases = [
        (
            ["/no/such.csv", "/"].as_slice(),
            "/no/such.csv: No such file or directory",
        ),
        (
            &["/no\n\n/such.csv"],
            "/no\\n\\n/such.csv: No such file or directory",
        ),
        (
            &["/no/\\n\u{2029}\u{200f}\u{61c}.csv"],
            "/no/\\\\n\\u{2029}\\u{200f}\\u{61c}.csv: No such file or directory",
        ),
        (
            &["/no/\u{85}\u{9b}31m\u{200b}\u{feff}.csv"],
            "/no/\\u{85}\\u{9b}31m\\u{200b}\\u{feff}.csv: No such file or directory",
        ),
        (&["/", "/no/such.csv"], "/: Is a directory"),
    ];
    for (words, text) in cases {
        expect_refused(&rt, words, 1, text)?;
    }
    Ok(())
}

#[test]
fn a_file_more_than_the_most_is_refused(rt: HostRuntime) -> Result<(), Fail> {
    let words = vec![in rt.alloc(); "/no/such.csv"; FILE_LIMIT as usize + 1]?;
    let text = "more than 64 files; MORE FILES in the manual page says how to run more";
    expect_refused(&rt, words.as_slice(), 2, text)
}

// Words are obeyed by a text that begins and ends so.
fn expect_written<R: ThreadRuntime + Files<File = File> + AllocGlobal + Abort>(
    rt: &R,
    words: &[&str],
    first: &[u8],
    last: &[u8],
) -> Result<(), Fail> {
    let mut out = Output::new(Memory::new(Vec::new(rt.alloc())));
    expect_ended(rt, words, b"".as_slice(), &mut out, (0, ""))?;
    assert!(rt; out.outlet().writer.starts_with(first) && out.outlet().writer.ends_with(last));
    Ok(())
}

#[test]
fn help_is_written(rt: HostRuntime) -> Result<(), Fail> {
    let first = b"Home ranges of tagged animals".as_slice();
    expect_written(&rt, &["--help"], first, b"has gone.\n")
}

#[test]
fn version_is_written(rt: HostRuntime) -> Result<(), Fail> {
    let words = ["--version", "/no/such.csv"];
    expect_written(&rt, &words, b"homerange 1.0.0 (", b")\n")
}

// A run over these files that ends with this fault is told by this text and this status.
fn expect_run<R: Abort>(
    rt: &R,
    alloc: Global,
    paths: &[&str],
    fault: RunFault,
    told: (u8, &str),
) -> Result<(), Fail> {
    let (status, text) = told;
    let refused = Refusal::Run {
        files: texts(alloc, paths)?,
        fault,
        reason: None,
    };
    expect_told(rt, alloc, &refused, status, text)
}

// The faults of a run over two files, and of one over standard input.
#[test]
fn a_fault_is_told_with_the_name_of_its_file(rt: HostRuntime) -> Result<(), Fail> {
    let alloc = rt.alloc();
    let fields = ReadFault::WrongFieldCount {
        rec: 5,
        found: 3,
        wanted: 4,
    };
    let of_file = |file, fault| RunFault::Analyse(AnalyseFault::File { file, fault });
    let text = "a\\tb.csv: record 5: 3 fields where 4 are wanted";
    let paths = ["b.csv", "a\tb.csv"];
    expect_run(&rt, alloc, &paths, of_file(1, fields), (1, text))?;
    let text = "standard input: no record after the header, or none that is used";
    expect_run(&rt, alloc, &[], of_file(0, ReadFault::NoFixes), (1, text))
}

// The name of an animal in two files, as it is shown in one line.
#[test]
fn an_animal_in_two_files_is_told_with_both(rt: HostRuntime) -> Result<(), Fail> {
    let alloc = rt.alloc();
    let cases = [
        (
            "Jörð\\".as_bytes(),
            "b.csv and a\\tb.csv have the same animal, Jörð\\\\",
        ),
        (
            "\u{202e}f\u{9b}ox".as_bytes(),
            "b.csv and a\\tb.csv have the same animal, \\u{202e}f\\u{9b}ox",
        ),
        (
            b"fox\xFF",
            "b.csv and a\\tb.csv have the same animal, fox\\xff",
        ),
    ];
    for (name, text) in cases {
        let same = AnalyseFault::SameAnimal {
            first: 0,
            second: 2,
            animal: Name::new(Vec::from_slice(alloc, name)?),
        };
        let paths = ["b.csv", "c.csv", "a\tb.csv"];
        expect_run(&rt, alloc, &paths, RunFault::Analyse(same), (1, text))?;
    }
    Ok(())
}

#[test]
fn faults_of_no_file_are_told_with_their_status(rt: HostRuntime) -> Result<(), Fail> {
    let alloc = rt.alloc();
    let paths = ["b.csv", "c.csv"];
    let cut = RunFault::Analyse(AnalyseFault::LineCut { file: 1 });
    let text = "c.csv: its fixes were not all handed on";
    expect_run(&rt, alloc, &paths, cut, (5, text))?;
    let memory = RunFault::Analyse(AnalyseFault::OutOfMemory);
    let text = "out of memory, or a thread could not be started";
    expect_run(&rt, alloc, &paths, memory, (3, text))?;
    expect_run(&rt, alloc, &[], RunFault::OutOfMemory, (3, "out of memory"))?;
    let text = "the report could not be written";
    expect_run(&rt, alloc, &[], RunFault::Write, (4, text))
}

// A help or a version that the system does not take is told by its reason, where it gave one.
#[test]
fn a_help_that_is_not_taken_is_told_by_its_reason(rt: HostRuntime) -> Result<(), Fail> {
    let alloc = rt.alloc();
    let full = String::from_str(alloc, "No space left on device")?;
    let text = "standard output: No space left on device";
    let refused = Refusal::Unwritten { reason: Some(full) };
    expect_told(&rt, alloc, &refused, 4, text)?;
    let text = "the help or the version could not be written";
    expect_told(&rt, alloc, &Refusal::Unwritten { reason: None }, 4, text)
}

// Names have at most the 32 bytes that the help tells.
#[test]
fn a_name_has_at_most_the_bytes_that_the_help_tells(rt: HostRuntime) -> Result<(), Fail> {
    let alloc = rt.alloc();
    let text =
        "standard input: record 1: animal is not a name of 1 to 32 bytes with no comma, double quote or control character";
    let cases = [
        (
            b"animal,second,easting,northing\nxxxxxxxxxxxxxxxxxxxxxxxxxxxxxxxx,0,0,0\n".as_slice(),
            (0, ""),
        ),
        (
            b"animal,second,easting,northing\nxxxxxxxxxxxxxxxxxxxxxxxxxxxxxxxxx,0,0,0\n".as_slice(),
            (1, text),
        ),
    ];
    for (file, ended) in cases {
        let mut out = Output::new(Memory::new(Vec::new(alloc)));
        expect_ended(&rt, &[], file, &mut out, ended)?;
        assert!(rt; out.outlet().writer.is_empty() == (ended.0 == 1));
    }
    Ok(())
}
