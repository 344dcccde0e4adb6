// Why there is no folder, as a record of CSV, for programs that call this one.

use crate::stop::{Stop, text_of};
use csv::{Error, Writer};
use itoa::Buffer;
use split_record::push_one_line;
use std::alloc::{AllocError, Global};

/// The word that asks for such a record.
pub(crate) const MACHINE: &str = "--machine";

// A text in one line.
fn line_of(alloc: Global, text: &[u8]) -> Result<Vec<u8>, AllocError> {
    let mut line = Vec::new(alloc);
    push_one_line(&mut line, text)?;
    Ok(line)
}

// A record of these fields, with its line feed.
fn record_of(
    alloc: Global,
    kind: &[u8],
    path: &[u8],
    number: &[u8],
    text: &[u8],
) -> Result<Vec<u8>, Error> {
    let mut writer = Writer::from_writer(Vec::new(alloc));
    writer.write_field(kind)?;
    writer.write_field(path)?;
    writer.write_field(number)?;
    writer.write_field(text)?;
    writer.end_record()?;
    match writer.into_inner() {
        Ok(record) => Ok(record),
        Err(error) => Err(error.into_error()),
    }
}

/// Why there is no folder of an export at this path, as a record of CSV: the kind, the path, or that of the export that the refusal
/// names, the number of the record where one has
/// the fault, and the text. None where there is no memory for it.
pub(crate) fn machine_record(alloc: Global, stop: &Stop, export: &str) -> Option<Vec<u8>> {
    let path = match &stop.refusal.export {
        Some(own) => line_of(alloc, own).ok()?,
        None => line_of(alloc, export.as_bytes()).ok()?,
    };
    let text = text_of(alloc, stop)?;
    let mut buffer = Buffer::new();
    let number = match stop.refusal.record {
        Some(record) => buffer.format(record),
        None => "",
    };
    let kind = stop.refusal.kind.word();
    record_of(alloc, kind.as_bytes(), &path, number.as_bytes(), &text).ok()
}
