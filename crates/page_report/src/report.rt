// A report, read back.

ghost use Rattle.std.specs.Prelude.{◌≡◌, IfErr, IfOk, IsOk, Ok, Some, false, length, map, true};
ghost use Rattle.page_report.specs.Reading.{IsRefusal, ended, found_in, is_nothing, last_of, one, parts, read, report_in, report_of, report_with, said};

use crate::animal::{ReadAnimal, animals_of};
use crate::fields::behind;
use crate::lines::end_of;
use crate::overlaps::{Overlap, overlaps_of};
use crate::reading::{ReadFault, line_of, refused};
use range_plane::Scale;
use std::alloc::Global;

/// A report, as its text says it.
#[derive(Drop)]
pub struct Report {
    /// The unit of coordinates; areas are in its squares.
    pub unit: Scale,
    pub animals: Vec<ReadAnimal>,
    /// The overlap of each ordered pair of different animals, in their order.
    pub overlaps: Vec<Overlap>,
}

// The last line, of so many animals.
fn one_last(text: &[u8], animals: usize) -> Result<&[u8], ReadFault>
    ensures found { IfOk result (λ own. one (last_of animals) (parts text.now) ≡ Ok (animals, parts own.now)) }
    ensures fault { IfErr result (IsRefusal (one (last_of animals) (parts text.now))) }
{
    let (line, behind) = line_of(text)?;
    match end_of(line) {
        Some(own) if own as usize == animals => Ok(behind),
        _ => Err(refused(text)),
    }
}

// That nothing stands behind the last line.
fn check_nothing(text: &[u8]) -> Result<(), ReadFault>
    ensures nothing { IsOk result → is_nothing (parts text.now) ≡ true }
    ensures fault { IfErr result (λ fault. (is_nothing (parts text.now) ≡ false) × (fault ≡ ReadFault.Line (length (parts text.now)))) }
{
    match line_of(text) {
        Err(_no_line) if text.is_empty() => Ok(()),
        _ => Err(refused(text)),
    }
}

// What stands behind the last line, which is nothing.
fn end_behind(text: &[u8], animals: usize) -> Result<&[u8], ReadFault>
    ensures found { IfOk result (λ own. ended animals (parts text.now) ≡ Ok (animals, parts own.now)) }
    ensures fault { IfErr result (IsRefusal (ended animals (parts text.now))) }
{
    let behind = one_last(text, animals)?;
    match check_nothing(behind) {
        Ok(()) => Ok(behind),
        Err(fault) => Err(fault),
    }
}

// The overlaps and the last line behind animals.
fn report_with(
    alloc: Global,
    unit: Scale,
    animals: Vec<ReadAnimal>,
    text: &[u8],
) -> Result<(Report, &[u8]), ReadFault>
    ensures found { IfOk result (λ own. report_with unit (map said animals.items) (parts text.now) ≡ Ok (read own.0, parts own.1.now)) }
    ensures fault { IfErr result (IsRefusal (report_with unit (map said animals.items) (parts text.now))) }
{
    let (overlaps, rest) = overlaps_of(alloc, text, &animals)?;
    let behind = end_behind(rest, animals.len())?;
    let report = Report {
        unit,
        animals,
        overlaps,
    };
    Ok((report, behind))
}

// The report of a text that has its coordinates in this unit.
fn report_in(alloc: Global, unit: Scale, text: &[u8]) -> Result<(Report, &[u8]), ReadFault>
    ensures found { IfOk result (λ own. report_in unit text.now ≡ Ok (read own.0, parts own.1.now)) }
    ensures fault { IfErr result (IsRefusal (report_in unit text.now)) }
{
    let (animals, rest) = animals_of(alloc, text)?;
    report_with(alloc, unit, animals, rest)
}

/// The report that a text is.
///
/// # Errors
///
/// A line is none that may stand there, or memory ran out.
pub fn read_report(alloc: Global, text: &[u8]) -> Result<Report, ReadFault>
    ensures found { IfOk result (λ own. found_in (report_of text.now) ≡ Some (read own)) }
    ensures fault { IfErr result (IsRefusal (report_of text.now)) }
{
    let found = match behind(text, b"unit,dm\n") {
        Some(rest) => report_in(alloc, Scale::Decimetre, rest),
        None => report_in(alloc, Scale::Metre, text),
    };
    match found {
        Ok((report, _nothing)) => Ok(report),
        Err(fault) => Err(fault),
    }
}
