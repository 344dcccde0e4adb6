// The reader's calls.

use crate::files::{FILE_A, end_of};
use range_fixes::{FixReader, ReadFault};
use range_plane::Scale;
use std::alloc::Global;
use std::io;
use std::io::Read;
use std::rt::Runtime;

// More calls than the file has fixes.
const CALLS: u32 = 9;

/// Reads a file to its end or its fault, asks once more, and prints how many fixes there were, how the reading
/// ended, whether the second answer is the first, and whether the name is known.
pub(crate) fn read_file<R: Runtime>(rt: &R, alloc: Global) -> io::Result<()> {
    let mut reader = FixReader::new(alloc, FILE_A, Scale::Metre);
    let end = read_on(&mut reader);
    let count = reader.count();
    let is_same = match (reader.next(), end) {
        (Ok(None), None) => true,
        (Err(fault), Some(end)) => fault == end,
        _ => false,
    };
    println!(rt;
        "next {count} {} {is_same} {}",
        end_of(end),
        reader.name().is_some()
    )
}

// Reads to the end, or to the fault that it gives back.
fn read_on<S: Read + Drop>(reader: &mut FixReader<S>) -> Option<ReadFault> {
    for _call in 0..CALLS {
        match reader.next() {
            Ok(Some(_)) => {}
            Ok(None) => return None,
            Err(fault) => return Some(fault),
        }
    }
    None
}
