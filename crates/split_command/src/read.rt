// The exports that the words name, read.

use crate::folder::refused_path;
use split_record::sum_of;
use split_refusal::{Kind, Refusal};
use split_words::Words;
use std::alloc::Global;
use std::fs;
use std::io::Read;
use std::rt::Files;

// The path that stands for standard input.
const STANDARD_INPUT: &str = "-";

/// Exports that were read.
#[derive(Drop)]
pub(crate) struct Exports {
    /// The bytes of each.
    pub all: Vec<Vec<u8>>,
    /// Their checksums.
    pub sums: Vec<[u8; 64]>,
}

// The bytes of standard input.
fn input_bytes<I: Read>(alloc: Global, input: &mut I) -> Result<Vec<u8>, Refusal> {
    let mut bytes = Vec::new(alloc);
    match input.read_to_end(&mut bytes) {
        Ok(_) => Ok(bytes),
        Err(error) => Err(refused_path(alloc, Kind::Text, "standard input", &error)),
    }
}

// The bytes of an export, which may be standard input.
fn export_bytes<R: Files + AllocGlobal, I: Read>(
    rt: &R,
    path: &str,
    input: &mut I,
) -> Result<Vec<u8>, Refusal> {
    if path == STANDARD_INPUT {
        return input_bytes(rt.alloc(), input);
    }
    match fs::read(rt, path) {
        Ok(bytes) => Ok(bytes),
        Err(error) => Err(refused_path(rt.alloc(), Kind::Text, path, &error)),
    }
}

// The refusal of an export that has the bytes of another.
fn same_refusal(alloc: Global, first: &str, other: &str) -> Refusal {
    match format!(in alloc; "{other} is {first} once more, byte for byte: name each export once") {
        Ok(words) => Refusal::new(alloc, Kind::Option, None, words.as_bytes()),
        Err(_) => Refusal::out_of_memory(alloc),
    }
}

// Refuses an export with this checksum, where one before it has the same.
fn refuse_same(
    alloc: Global,
    words: &Words<'_>,
    before: &[[u8; 64]],
    path: &str,
    sum: &[u8; 64],
) -> Result<(), Refusal> {
    let same = before.iter().position(|other| other == sum);
    match same.and_then(|export| words.exports.get(export).copied()) {
        Some(first) => Err(same_refusal(alloc, first, path)),
        None => Ok(()),
    }
}

/// Reads the exports that the words name.
///
/// # Errors
///
/// One cannot be read, two have the same bytes, or memory ran out.
pub(crate) fn read_exports<R: Files + AllocGlobal, I: Read>(
    rt: &R,
    words: &Words<'_>,
    input: &mut I,
) -> Result<Exports, Refusal> {
    let alloc = rt.alloc();
    let mut read = Exports {
        all: Vec::new(alloc),
        sums: Vec::new(alloc),
    };
    for path in words.exports.iter() {
        let bytes = export_bytes(rt, path, input)?;
        let sum = sum_of(&bytes);
        refuse_same(alloc, words, &read.sums, path, &sum)?;
        if read.all.push(bytes).is_err() || read.sums.push(sum).is_err() {
            return Err(Refusal::out_of_memory(alloc));
        }
    }
    Ok(read)
}
