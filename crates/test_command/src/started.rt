// The program, with the words that the system gives it.

use crate::answers::expect;
use crate::memory::Memory;
use range_command::{Outlet, Output, SystemFiles, answer};
use range_pump::ThreadRuntime;
use std::env::{Env, FillError};
use std::fs::File;
use std::process::Abort;
use std::rt::Files;
use std::test::Fail;
use test_doubles::FILE_A;

// A command line of these words, of which the first is the program's name.
#[derive(Drop)]
struct Line<'a>(&'a [&'a [u8]]);

impl Env for Line<'_> {
    fn arg(&self, i: usize, buf: &mut [u8]) -> Result<usize, FillError> {
        let Some(word) = self.0.get(i) else {
            return Err(FillError::NotPresent);
        };
        if word.len() > buf.len() {
            return Err(FillError::TooLong);
        }
        buf[..word.len()].copy_from_slice(word);
        Ok(word.len())
    }

    fn var(&self, _name: &str, _buf: &mut [u8]) -> Result<usize, FillError> {
        Err(FillError::NotPresent)
    }

    fn var_at(&self, _i: usize, _buf: &mut [u8]) -> Result<usize, FillError> {
        Err(FillError::NotPresent)
    }
}

/// The status that these words over an input are answered with.
pub(crate) fn status_of<R: ThreadRuntime + Files<File = File> + AllocGlobal, W: Outlet, E: Outlet>(
    rt: &R,
    words: &[&[u8]],
    input: &[u8],
    out: &mut Output<W>,
    errors: &mut Output<E>,
) -> u8 {
    answer(rt, &Line(words), &SystemFiles::new(rt), input, out, errors)
}

#[test]
fn the_name_of_the_program_is_not_read(rt: HostRuntime) {
    for name in [b"".as_slice(), b"\xFF/homerange", b"--help"] {
        expect(&rt, &[name], FILE_A, 0, "");
    }
    expect(&rt, &[], FILE_A, 0, "");
}

// The first word that is not UTF-8 is told by its number, and nothing is read or written.
#[test]
fn the_first_word_that_is_no_text_is_told_by_its_number(rt: HostRuntime) {
    let line = "homerange: word 1 of the command line is not UTF-8\n";
    expect(&rt, &[b"homerange", b"\xFF"], FILE_A, 2, line);
    expect(
        &rt,
        &[b"homerange", b"\xFF.csv", b"--help"],
        FILE_A,
        2,
        line,
    );
    let line = "homerange: word 2 of the command line is not UTF-8\n";
    expect(&rt, &[b"\xFF", b"--help", b"\xC3"], FILE_A, 2, line);
}

// A file that is missing is told by its whole path, whatever the reason.
fn expect_told<R: ThreadRuntime + Files<File = File> + AllocGlobal + Abort>(rt: &R, path: &[u8]) {
    let mut out = Output::new(Memory::new(Vec::new(rt.alloc())));
    let mut errors = Output::new(Memory::new(Vec::new(rt.alloc())));
    let words = [b"homerange".as_slice(), path];
    let status = status_of(rt, &words, FILE_A, &mut out, &mut errors);
    assert!(rt; out.outlet().writer.is_empty() && status == 1);
    let rest = errors
        .outlet()
        .writer
        .as_slice()
        .strip_prefix(b"homerange: ");
    let rest = rest.and_then(|rest| rest.strip_prefix(path));
    assert!(rt; rest.is_some_and(|rest| rest.starts_with(b": ")));
}

#[test]
fn a_word_of_any_length_is_read_whole(rt: HostRuntime) -> Result<(), Fail> {
    let alloc = rt.alloc();
    for length in [255, 256, 257, 511, 512, 513, 4097] {
        let mut path = Vec::from_slice(alloc, b"/no/such/")?;
        path.resize(length, b'/')?;
        expect_told(&rt, path.as_slice());
    }
    Ok(())
}
