// Whether a record of tracks is that of a report.

use crate::fault::{PageFault, refused};
use page_record::{Record, track_of};
use page_report::Report;
use range_texts::Name;
use std::alloc::Global;

// The refusal of an animal that has other numbers of fixes in a report and in a record.
fn differs(alloc: Global, animal: &[u8], report: usize, record: usize) -> PageFault {
    let name = Name { bytes: animal };
    refused(format!(in alloc;
        "tracks/split.txt has {record} fixes of {name}, and report.txt {report}: was a track changed, or left out?"
    ))
}

// How many fixes of an animal a record says that are used.
fn used_in(record: &Record, animal: &[u8]) -> usize {
    match track_of(record, animal) {
        Some(made) => made.used as usize,
        None => 0,
    }
}

// Whether a report has an animal.
fn has(report: &Report, name: &[u8]) -> bool {
    report
        .animals
        .iter()
        .any(|animal| animal.name.as_slice() == name)
}

// Refuses a report with an animal of which the record has other numbers.
fn check_report(alloc: Global, report: &Report, record: &Record) -> Result<(), PageFault> {
    for animal in &report.animals {
        let used = used_in(record, &animal.name);
        if used != animal.rows.len() {
            return Err(differs(alloc, &animal.name, animal.rows.len(), used));
        }
    }
    Ok(())
}

// Refuses a record with an animal that the report has not, and that has fixes.
fn check_record(alloc: Global, report: &Report, record: &Record) -> Result<(), PageFault> {
    for (name, made) in record.tracks.iter() {
        if made.used > 0 && !has(report, name) {
            return Err(differs(alloc, name, 0, made.used as usize));
        }
    }
    Ok(())
}

// Refuses a report that is not of the tracks that a record has.
pub(crate) fn check_agrees(
    alloc: Global,
    report: &Report,
    record: Option<&Record>,
) -> Result<(), PageFault> {
    let Some(record) = record else {
        return Ok(());
    };
    if record.tracks.is_empty() {
        return Ok(());
    }
    check_report(alloc, report, record)?;
    check_record(alloc, report, record)
}
