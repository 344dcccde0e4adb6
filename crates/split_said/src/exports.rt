// The exports of which a table was made, and where its records stand in them.

use crate::said::Said;
use crate::words::{push, push_number};
use range_plane::OutOfMemory;
use split_join::place_of;
use std::alloc::{AllocError, Global};

// How many records are listed.
const LISTED_RECORDS: usize = 10;

/// The exports of which a table was made, one after the other. Of one alone nothing has to be told.
#[derive(Clone, Copy)]
pub struct Exports<'a> {
    pub names: &'a [&'a [u8]],
    /// How many records each has.
    pub counts: &'a [u32],
}

impl<'a> Exports<'a> {
    // Whether there are several.
    fn are_several(&self) -> bool {
        self.names.len() > 1
    }

    // The name of one.
    fn name(&self, export: usize) -> &'a [u8] {
        match self.names.get(export) {
            Some(name) => name,
            None => b"",
        }
    }
}

// Appends the name of an export behind numbers of its records.
fn push_name(text: &mut Vec<u8>, exports: &Exports<'_>, export: usize) -> Result<(), AllocError> {
    push(text, " of ")?;
    text.extend_from_slice(exports.name(export))
}

// Appends the numbers of records, and the name of each export behind those of its own.
fn push_placed(
    text: &mut Vec<u8>,
    records: &[u32],
    exports: &Exports<'_>,
) -> Result<(), AllocError> {
    let mut last = 0;
    for (at, record) in records.iter().enumerate() {
        let (export, number) = place_of(exports.counts, *record);
        if at > 0 && export != last {
            push_name(text, exports, last)?;
        }
        if at > 0 {
            push(text, ", ")?;
        }
        push_number(text, number as usize)?;
        last = export;
    }
    push_name(text, exports, last)
}

// Appends the numbers of records.
fn push_numbers(text: &mut Vec<u8>, records: &[u32]) -> Result<(), AllocError> {
    for (at, record) in records.iter().enumerate() {
        if at > 0 {
            push(text, ", ")?;
        }
        push_number(text, *record as usize)?;
    }
    Ok(())
}

/// Appends the numbers of the first records, and whether there are more; of several exports with their names.
pub(crate) fn push_records(
    text: &mut Vec<u8>,
    records: &[u32],
    exports: &Exports<'_>,
) -> Result<(), AllocError> {
    let listed = &records[..records.len().min(LISTED_RECORDS)];
    if exports.are_several() {
        push_placed(text, listed, exports)?;
    } else {
        push_numbers(text, listed)?;
    }
    if records.len() > LISTED_RECORDS {
        push(text, ", ..")?;
    }
    Ok(())
}

// How many records each export has.
fn counts_text(alloc: Global, exports: &Exports<'_>) -> Result<Vec<u8>, AllocError> {
    let mut text = Vec::new(alloc);
    push(&mut text, "exports: ")?;
    for (at, count) in exports.counts.iter().enumerate() {
        if at > 0 {
            push(&mut text, ", ")?;
        }
        text.extend_from_slice(exports.name(at))?;
        push(&mut text, " ")?;
        push_number(&mut text, *count as usize)?;
        push(&mut text, " records")?;
    }
    Ok(text)
}

/// Says how many records each of several exports has.
pub(crate) fn tell_exports(
    alloc: Global,
    said: &mut Said,
    exports: &Exports<'_>,
) -> Result<(), OutOfMemory> {
    if exports.are_several() {
        said.say(alloc, &counts_text(alloc, exports)?)?;
    }
    Ok(())
}
