// Checksums of what a page stands on, and how they are checked.

use page_text::{push_escaped, push_named};
use std::alloc::AllocError;

/// What tracks were made of.
#[derive(Clone, Copy)]
pub enum Origin<'a> {
    /// An export, by its name and its checksum.
    Export(&'a [u8], &'a [u8]),
    /// A table in memory.
    Data,
    /// No record says of what.
    Unknown,
}

/// What the checksums of a page are of. Each is of SHA-256, in 64 digits.
#[derive(Clone, Copy)]
pub struct Sums<'a> {
    pub origin: Origin<'a>,
    /// None where the folder of the report is not handed in.
    pub report: Option<&'a [u8]>,
    /// What the program says of its version, and its checksum.
    pub program: (&'a [u8], &'a [u8]),
}

// Appends the end of the line of a checksum, of a field with this name.
fn push_sum(text: &mut Vec<u8>, field: &[u8], sum: &[u8]) -> Result<(), AllocError> {
    text.extend_from_slice(b"</td><td class=\"sum\" data-field=\"")?;
    text.extend_from_slice(field)?;
    text.extend_from_slice(b"\">")?;
    push_escaped(text, sum)?;
    text.extend_from_slice(b"</td></tr>")
}

// Appends the line of the export.
fn push_export(text: &mut Vec<u8>, origin: Origin) -> Result<(), AllocError> {
    text.extend_from_slice(b"<tr><th scope=\"row\">Export</th><td>")?;
    let sum = match origin {
        Origin::Export(name, sum) => {
            push_named(text, name)?;
            sum
        }
        Origin::Data => b"none: the tracks were made of a data frame",
        Origin::Unknown => b"not known, since no record of a split was named",
    };
    push_sum(text, b"export_sha256", sum)
}

// Appends the line of the report.
fn push_report(text: &mut Vec<u8>, report: Option<&[u8]>) -> Result<(), AllocError> {
    text.extend_from_slice(b"\n<tr><th scope=\"row\">Report</th><td>")?;
    match report {
        Some(sum) => {
            text.extend_from_slice(b"report.txt")?;
            push_sum(text, b"report_sha256", sum)
        }
        None => push_sum(
            text,
            b"report_sha256",
            b"none was kept: the ranges were made in memory",
        ),
    }
}

/// Appends the lines of checksums.
///
/// # Errors
///
/// Memory ran out.
pub fn push_sums(text: &mut Vec<u8>, sums: &Sums) -> Result<(), AllocError> {
    push_export(text, sums.origin)?;
    push_report(text, sums.report)?;
    text.extend_from_slice(b"\n<tr><th scope=\"row\">Program</th><td>")?;
    push_escaped(text, sums.program.0)?;
    push_sum(text, b"program_sha256", sums.program.1)
}

// Appends how a folder is checked, beside the export or alone.
fn push_verify_folder(text: &mut Vec<u8>, origin: Origin) -> Result<(), AllocError> {
    let words: &[u8] = match origin {
        Origin::Export(..) => b"FOLDER EXPORT",
        Origin::Data | Origin::Unknown => b"FOLDER",
    };
    text.extend_from_slice(
        b"This checks the folder that is handed in, and says what held and what was not looked at, in ",
    )?;
    text.extend_from_slice(b"a clone of homerange: <code>python3 tools/verify.py ")?;
    text.extend_from_slice(words)?;
    text.extend_from_slice(b"</code>")
}

/// Appends how all that is handed in is checked.
///
/// # Errors
///
/// Memory ran out.
pub fn push_verify(text: &mut Vec<u8>, sums: &Sums) -> Result<(), AllocError> {
    text.extend_from_slice(b"Sums are SHA-256. ")?;
    if sums.report.is_some() {
        return push_verify_folder(text, sums.origin);
    }
    text.extend_from_slice(
        b"No files of fixes and no report were kept, so this page alone cannot be verified.",
    )
}
