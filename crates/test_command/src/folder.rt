// Files that are held in memory, of which a contract knows what their paths come to.

ghost use Rattle.std.specs.Prelude.{Err, List, Ok, Option, Result, Some, codes, if◌then◌else◌, ℕ};
ghost use Rattle.std.specs.Str.{bytes_eq};

use crate::line::line;
use crate::memory::Memory;
use range_command::{OpenFault, Opener, Output, answer_to};
use range_pump::ThreadRuntime;
use std::alloc::Global;
use std::process::Abort;
use std::test::Fail;
use test_doubles::FILE_A;

// A path and the bytes of its file.
#[derive(Clone, Copy)]
struct Held<'a> {
    path: &'a str,
    bytes: &'a [u8],
}

// A folder of two files.
#[derive(Drop)]
struct Folder<'a> {
    first: Held<'a>,
    second: Held<'a>,
}

impl<'a> Opener for Folder<'a> {
    type File = &'a [u8];

    ghost finds = { λ folder path. if bytes_eq path folder.first.path.now then Some (Ok folder.first.bytes.now) else (if bytes_eq path folder.second.path.now then Some (Ok folder.second.bytes.now) else Some (Err (codes "not in the folder"))) };

    fn open(&self, alloc: Global, path: &str) -> Result<&'a [u8], OpenFault> {
        if path == self.first.path {
            return Ok(self.first.bytes);
        }
        if path == self.second.path {
            return Ok(self.second.bytes);
        }
        match String::from_str(alloc, "not in the folder") {
            Ok(reason) => Err(OpenFault::Refused(reason)),
            Err(_) => Err(OpenFault::OutOfMemory),
        }
    }
}

const FOX: &[u8] = b"animal,second,easting,northing\nfox,0,3,4\n";

// Words over the folder of file A and the fox are answered by this status, this line, and a report that begins so.
fn expect<R: ThreadRuntime + AllocGlobal + Abort>(
    rt: &R,
    words: &[&str],
    status: u8,
    said: &str,
    report: &[u8],
) -> Result<(), Fail> {
    let alloc = rt.alloc();
    let folder = Folder {
        first: Held {
            path: "a.csv",
            bytes: FILE_A,
        },
        second: Held {
            path: "fox.csv",
            bytes: FOX,
        },
    };
    let words = line(alloc, words)?;
    let mut out = Output::new(Memory::new(Vec::new(alloc)));
    let mut errors = Output::new(Memory::new(Vec::new(alloc)));
    let input = b"".as_slice();
    let answered = answer_to(rt, &folder, words.as_slice(), input, &mut out, &mut errors);
    assert!(rt; answered == status, "{answered}");
    assert!(rt; errors.outlet().writer.as_slice() == said.as_bytes());
    assert!(rt; out.outlet().writer.as_slice().starts_with(report));
    assert!(rt; out.outlet().writer.is_empty() == report.is_empty());
    Ok(())
}

// Reports come in the order of the words, and the first file that is not there is told, also behind a bad one.
#[test]
fn reports_follow_the_words_and_the_first_missing_file_is_told(
    rt: HostRuntime,
) -> Result<(), Fail> {
    expect(&rt, &["fox.csv", "a.csv"], 0, "", b"animal,fox,fixes,1\n")?;
    expect(&rt, &["a.csv", "fox.csv"], 0, "", b"animal,A,fixes,5\n")?;
    let missing = "homerange: b.csv: not in the folder\n";
    expect(&rt, &["a.csv", "b.csv", "c.csv"], 1, missing, b"")?;
    let same = "homerange: a.csv and a.csv have the same animal, A\n";
    expect(&rt, &["a.csv", "fox.csv", "a.csv"], 1, same, b"")?;
    expect(&rt, &["a.csv", "a.csv", "b.csv"], 1, missing, b"")?;
    let empty = "homerange: standard input: empty where animal,second,easting,northing is wanted\n";
    expect(&rt, &[], 1, empty, b"")?;
    expect(&rt, &["b.csv", "--version"], 0, "", b"homerange 1.0.0 (")
}
