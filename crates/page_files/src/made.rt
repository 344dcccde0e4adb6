// The tables and the page.

ghost use Rattle.std.specs.Prelude.{◌≡◌, IfOk, Some, option_map};
ghost use Rattle.page_report.specs.Reading.{found_in, read, report_of};
ghost use Rattle.page_tables.specs.Overlaps.{overlaps};
ghost use Rattle.page_tables.specs.Summary.{summary};

use crate::agree::check_agrees;
use crate::basis::basis_of_all;
use crate::beside::check_words;
use crate::drawn::drawn_of;
use crate::fault::{PageFault, record_fault, refused, report_fault};
use crate::given::{Given, Words};
use crate::known::known_of;
use crate::page::page_of;
use crate::sound::check_sound;
use crate::told::{causes_of, told_of_all};
use page_boundary::{BoundaryFault, read_boundary};
use page_facts::are_dates;
use page_map::Ground;
use page_record::{Record, read_record};
use page_report::{Report, read_report};
use page_sections::{Cause, Shown, Source, cause_word};
use page_tables::{push_animals, push_overlaps, push_summary};
use std::alloc::{AllocError, Global};

/// The tables and the page of a folder.
#[derive(Drop)]
pub struct Files {
    pub summary: Vec<u8>,
    pub animals: Vec<u8>,
    pub overlaps: Vec<u8>,
    pub page: Vec<u8>,
}

// The record without its export, if tracks were made of data in memory, whose table nobody has.
fn without_table(mut record: Record, is_data: bool) -> Record {
    if is_data {
        record.export = None;
        record.sum = None;
    }
    record
}

// The record, read, if there is one.
fn record_of(
    alloc: Global,
    text: Option<&[u8]>,
    is_data: bool,
) -> Result<Option<Record>, PageFault> {
    let Some(text) = text else {
        return Ok(None);
    };
    match read_record(alloc, text) {
        Ok(record) => Ok(Some(without_table(record, is_data))),
        Err(fault) => Err(record_fault(alloc, fault)),
    }
}

// The report, read.
fn report_of(alloc: Global, text: &[u8]) -> Result<Report, PageFault>
    ensures { IfOk result (λ report. found_in (report_of text.now) ≡ Some (read report)) }
{
    match read_report(alloc, text) {
        Ok(report) => Ok(report),
        Err(fault) => Err(report_fault(alloc, text, fault)),
    }
}

// The rings of the boundary, read, if there is one.
fn rings_of(alloc: Global, text: Option<&[u8]>) -> Result<Option<Vec<Vec<Ground>>>, PageFault> {
    let Some(text) = text else {
        return Ok(None);
    };
    match read_boundary(alloc, text) {
        Ok(rings) => Ok(Some(rings)),
        Err(BoundaryFault::OutOfMemory) => Err(PageFault::OutOfMemory),
        Err(BoundaryFault::Line { number }) => Err(refused(format!(in alloc;
            "boundary.csv: line {number} is not ring,easting,northing of a ring from 1 on, in metres with three decimals"
        ))),
    }
}

// What the fixes were in.
fn source_of(record: Option<&Record>) -> Source {
    match record {
        Some(record) if record.export.is_some() => Source::Export,
        _ => Source::Data,
    }
}

// The words of causes.
fn words_of(alloc: Global, causes: &[Cause]) -> Result<Vec<&'static [u8]>, AllocError> {
    let mut words = Vec::new(alloc);
    for cause in causes {
        words.push(cause_word(*cause))?;
    }
    Ok(words)
}

// The table of animals and levels.
fn summary_of(alloc: Global, report: &Report) -> Result<Vec<u8>, AllocError>
    ensures { IfOk result (λ text. text.items ≡ summary (read report.now)) }
{
    let mut text = Vec::new(alloc);
    push_summary(&mut text, report)?;
    Ok(text)
}

// The table of overlaps.
fn overlaps_of(alloc: Global, report: &Report) -> Result<Vec<u8>, AllocError>
    ensures { IfOk result (λ text. text.items ≡ overlaps (read report.now)) }
{
    let mut text = Vec::new(alloc);
    push_overlaps(&mut text, report)?;
    Ok(text)
}

// The table of animals.
fn animals_of(alloc: Global, shown: &Shown) -> Result<Vec<u8>, AllocError> {
    let words = words_of(alloc, shown.causes)?;
    let mut text = Vec::new(alloc);
    push_animals(&mut text, shown.report, &words, shown.told)?;
    Ok(text)
}

// The table of animals and the page of a report, where there is a record or none.
fn rest_of<'a>(
    alloc: Global,
    report: &'a Report,
    given: &'a Given<'a>,
    words: &'a Words<'a>,
    record: Option<&'a Record>,
) -> Result<(Vec<u8>, Vec<u8>), PageFault> {
    let known = known_of(alloc, report, record, given.tracks)?;
    let causes = causes_of(alloc, report, &known)?;
    let told = told_of_all(alloc, report, &known, &causes)?;
    let drawn = drawn_of(alloc, report, given.tracks)?;
    let basis = basis_of_all(alloc, report, &drawn)?;
    let shown = Shown {
        report,
        told: &told,
        basis: &basis,
        causes: &causes,
        source: source_of(record),
        dated: are_dates(report),
        clock: words.clock,
        zone: words.zone,
    };
    let rings = rings_of(alloc, given.boundary)?;
    let boundary = rings.as_deref();
    let page = page_of(
        alloc, &shown, given, words, record, &known, &drawn, boundary,
    )?;
    Ok((animals_of(alloc, &shown)?, page))
}

/// The tables and the page of a folder, of the bytes of its files.
///
/// # Errors
///
/// A file is not right, or two do not agree, or memory ran out.
pub fn files_of(alloc: Global, given: &Given, words: &Words) -> Result<Files, PageFault>
    ensures summary { IfOk result (λ files. option_map summary (found_in (report_of given.now.report.now)) ≡ Some files.summary.items) }
    ensures overlaps { IfOk result (λ files. option_map overlaps (found_in (report_of given.now.report.now)) ≡ Some files.overlaps.items) }
{
    let report = report_of(alloc, given.report)?;
    let record = record_of(alloc, given.record, words.is_data)?;
    check_words(alloc, given, words, record.as_ref())?;
    check_sound(alloc, &report)?;
    check_agrees(alloc, &report, record.as_ref())?;
    let (animals, page) = rest_of(alloc, &report, given, words, record.as_ref())?;
    Ok(Files {
        summary: summary_of(alloc, &report)?,
        animals,
        overlaps: overlaps_of(alloc, &report)?,
        page,
    })
}
