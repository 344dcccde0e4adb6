// The method as it may stand in a report, what was left out, and what was said when fixes were read.

use crate::cells::push_count;
use crate::reasons::{Cause, phrase};
use crate::shown::{Shown, Source, falling_levels, source_words};
use page_record::{Given, Record};
use page_text::{between, push_escaped, push_fixes};
use range_plane::Scale;
use std::alloc::{AllocError, Global};

// How many lines that were said the page quotes.
const MOST_SAID: usize = 12;

/// How many fixes were left out of all records, by causes.
#[derive(Clone, Copy)]
pub struct Totals<'a> {
    /// How many records the export or the table had.
    pub records: u64,
    pub left: &'a [(Cause, u64)],
}

// The name of a unit.
fn unit_words(unit: Scale) -> &'static [u8] {
    match unit {
        Scale::Metre => b"metres",
        Scale::Decimetre => b"decimetres",
    }
}

// Appends levels.
fn push_levels(text: &mut Vec<u8>, levels: &[u8]) -> Result<(), AllocError> {
    for (place, level) in levels.iter().enumerate() {
        push_count(text, u64::from(*level))?;
        text.extend_from_slice(b" %")?;
        text.extend_from_slice(between(levels.len() - place - 1).as_bytes())?;
    }
    Ok(())
}

// Appends what program computed ranges, and of what coordinates.
fn push_program(
    text: &mut Vec<u8>,
    version: &[u8],
    unit: Scale,
    system: &[u8],
) -> Result<(), AllocError> {
    text.extend_from_slice(
        b" of the fixes; that of all fixes is the one of Mohr (1947). They were computed by ",
    )?;
    push_escaped(text, version)?;
    text.extend_from_slice(b" from coordinates in whole ")?;
    text.extend_from_slice(unit_words(unit))?;
    text.extend_from_slice(b", ")?;
    push_escaped(text, system)?;
    text.extend_from_slice(b". ")
}

// How ranges were made, whatever the animals.
const RULE: &[u8] =
    b"Of n fixes, the polygon at p % has the p per cent of n, rounded up to whole fixes, that lie nearest to the arithmetic mean of all \
    (of fixes as near, the earlier). Areas are those on the grid. Here they are rounded, halves up, to whole hectares, below 100 \
    hectares to three digits, and below 1 hectare they are in square metres. The area of the 100 % polygon was followed fix by fix \
    (incremental area analysis, Harris et al. 1990).";

/// Appends how ranges were made, by a program of this version, of coordinates of this reference system.
///
/// # Errors
///
/// Memory ran out.
pub fn push_method(
    alloc: Global,
    text: &mut Vec<u8>,
    shown: &Shown,
    version: &[u8],
    system: &[u8],
) -> Result<(), AllocError> {
    text.extend_from_slice(b"Home ranges are minimum convex polygons (MCP) of ")?;
    push_levels(text, &falling_levels(alloc, shown.report)?)?;
    push_program(text, version, shown.report.unit, system)?;
    text.extend_from_slice(RULE)
}

// How many fixes were left out.
fn gone(totals: &Totals) -> u64 {
    let mut gone: u64 = 0;
    for (_cause, count) in totals.left {
        gone = gone.saturating_add(*count);
    }
    gone
}

// How many causes occur.
fn causes_that_occur(totals: &Totals) -> usize {
    totals.left.iter().filter(|own| own.1 > 0).count()
}

// Appends how many fixes were left out, and why.
fn push_causes(text: &mut Vec<u8>, totals: &Totals) -> Result<(), AllocError> {
    let mut left = causes_that_occur(totals);
    for (cause, count) in totals.left {
        if *count > 0 {
            left = left.saturating_sub(1);
            push_count(text, *count)?;
            text.extend_from_slice(b" ")?;
            text.extend_from_slice(phrase(*cause))?;
            text.extend_from_slice(between(left).as_bytes())?;
        }
    }
    text.extend_from_slice(b".")
}

// Appends that no fix was left out.
fn push_nothing_left(text: &mut Vec<u8>, source: Source, records: u64) -> Result<(), AllocError> {
    text.extend_from_slice(b"No fix of the ")?;
    text.extend_from_slice(source_words(source))?;
    text.extend_from_slice(b" was left out (")?;
    push_fixes(text, records)?;
    text.extend_from_slice(b").")
}

// Whether a line says that fixes were chosen since they were read, so that more may be left out than is counted.
fn is_of_choice(line: &[u8]) -> bool {
    line.starts_with(b"the fixes are not as they were read: ")
}

// Appends how many fixes were left out, and why, or that none was.
fn push_counted(text: &mut Vec<u8>, source: Source, totals: &Totals) -> Result<(), AllocError> {
    let gone = gone(totals);
    if gone == 0 {
        return push_nothing_left(text, source, totals.records);
    }
    text.extend_from_slice(b"Of ")?;
    push_count(text, totals.records)?;
    text.extend_from_slice(b" fixes of the ")?;
    text.extend_from_slice(source_words(source))?;
    text.extend_from_slice(b" ")?;
    push_count(text, gone)?;
    text.extend_from_slice(b" were left out: ")?;
    push_causes(text, totals)
}

/// Appends what was left out of all fixes of the export or the table, if it is known, when these lines were said of them.
///
/// # Errors
///
/// Memory ran out.
pub fn push_left_out(
    text: &mut Vec<u8>,
    source: Source,
    totals: Option<&Totals>,
    said: &[Vec<u8>],
) -> Result<(), AllocError> {
    match totals {
        Some(totals) if gone(totals) > 0 || !said.iter().any(|line| is_of_choice(line)) => {
            push_counted(text, source, totals)
        }
        _ => text.extend_from_slice(b"How many fixes were left out is not known."),
    }
}

// A line behind the number with which it begins; empty where it begins with none.
fn behind_number(line: &[u8]) -> &[u8] {
    let length = line.iter().position(|byte| !byte.is_ascii_digit());
    match line.split_at_checked(length.unwrap_or(0)) {
        Some((number, rest)) if !number.is_empty() => rest,
        _ => b"",
    }
}

// Whether a line says into which files fixes went.
fn is_of_files(line: &[u8]) -> bool {
    match behind_number(line).strip_prefix(b" fixes of ") {
        Some(rest) => behind_number(rest).starts_with(b" animals are in "),
        None => false,
    }
}

// Whether a line is on columns that were not read or on files, which the page has not. Its start tells: names and titles that stand
// in lines are those of strangers.
fn is_passed(line: &[u8]) -> bool {
    line.starts_with(b"not read: ") || is_of_files(line)
}

// Whether a line is on records of one animal. Such lines come last, since there may be many.
fn is_of_animal(line: &[u8]) -> bool {
    behind_number(line).starts_with(b" records of ")
}

// The lines that are quoted, in their order.
fn quoted<'a>(alloc: Global, lines: &'a [Vec<u8>]) -> Result<Vec<&'a [u8]>, AllocError> {
    let mut quoted: Vec<&[u8]> = Vec::new(alloc);
    for line in lines {
        if !is_passed(line) {
            quoted.push(line)?;
        }
    }
    quoted.sort_by_key(|line| is_of_animal(line))?;
    Ok(quoted)
}

// Appends a line that was said, in quotes.
fn push_line(text: &mut Vec<u8>, line: &[u8]) -> Result<(), AllocError> {
    text.extend_from_slice(b"\xE2\x80\x9C")?;
    push_escaped(text, line)?;
    text.extend_from_slice(b"\xE2\x80\x9D")
}

// Appends how many lines more there are.
fn push_more(text: &mut Vec<u8>, more: usize) -> Result<(), AllocError> {
    if more == 0 {
        return Ok(());
    }
    text.extend_from_slice(b"; and ")?;
    push_count(text, more as u64)?;
    let words: &[u8] = if more == 1 {
        b" line more"
    } else {
        b" lines more"
    };
    text.extend_from_slice(words)
}

// Appends the first lines, and how many more there are.
fn push_lines(text: &mut Vec<u8>, lines: &[&[u8]]) -> Result<(), AllocError> {
    for (place, line) in lines.iter().take(MOST_SAID).enumerate() {
        let before: &[u8] = if place == 0 { b"" } else { b"; " };
        text.extend_from_slice(before)?;
        push_line(text, line)?;
    }
    push_more(text, lines.len().saturating_sub(MOST_SAID))
}

/// Appends what was said when fixes were read, but for lines on columns that were not read and on files; lines on records of one animal come last.
///
/// # Errors
///
/// Memory ran out.
pub fn push_said(alloc: Global, text: &mut Vec<u8>, lines: &[Vec<u8>]) -> Result<(), AllocError> {
    let quoted = quoted(alloc, lines)?;
    if quoted.is_empty() {
        return Ok(());
    }
    text.extend_from_slice(b" When the fixes were read this was said: ")?;
    push_lines(text, &quoted)?;
    text.extend_from_slice(b".")
}

// Appends an option with its value, if it has one.
fn push_option(text: &mut Vec<u8>, option: &Given) -> Result<(), AllocError> {
    push_escaped(text, &option.name)?;
    match &option.value {
        Some(value) if !value.is_empty() => {
            text.extend_from_slice(b" ")?;
            push_escaped(text, value)
        }
        _ => Ok(()),
    }
}

/// Appends the options with which an export was split, or a frame read.
///
/// # Errors
///
/// Memory ran out.
pub fn push_options(text: &mut Vec<u8>, record: &Record) -> Result<(), AllocError> {
    if record.options.is_empty() {
        return Ok(());
    }
    let what: &[u8] = if record.export.is_some() {
        b"split"
    } else {
        b"call"
    };
    text.extend_from_slice(b" Options of the ")?;
    text.extend_from_slice(what)?;
    for (place, option) in record.options.iter().enumerate() {
        let before: &[u8] = if place == 0 { b": " } else { b", " };
        text.extend_from_slice(before)?;
        push_option(text, option)?;
    }
    text.extend_from_slice(b".")
}
