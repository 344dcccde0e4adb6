// What the lines of a report say.

ghost use Rattle.std.specs.Prelude.{◌≡◌, ◌<◌, ◌∷◌, ◌++◌, [], IfErr, IfOk, IfSome, IsNone, Ok, OnOk, false, length, true};
ghost use Rattle.page_report.specs.Reading.{IsRefusal, begins, corners_of, parts, percents_of, rows_of, stops};

use crate::corner::Corner;
use crate::fields::{behind, cut};
use crate::lines::{corner_of, percent_of, row_of};
use range_estimator::Row;
use range_stats::PercentRow;
use std::alloc::Global;

/// Why a text is not read as a report.
#[derive(Clone, Copy, PartialEq, Eq, Debug)]
pub enum ReadFault {
    OutOfMemory,
    /// A line is none that may stand there: so many parts are left from it on.
    Line { left: usize },
}

// How many parts a text has between ends of lines.
fn parts_left(text: &[u8]) -> usize
    ensures { result ≡ length (parts text.now) }
{
    text.iter().filter(|byte| **byte == b'\n').count() + 1
}

// The first line of a text, and what stands behind its end.
pub(crate) fn line_of(text: &[u8]) -> Result<(&[u8], &[u8]), ReadFault>
    ensures line { IfOk result (λ own. parts text.now ≡ own.0.now ∷ parts own.1.now) }
    ensures less { IfOk result (λ own. length own.1.now < length text.now) }
    ensures more { IfOk result (λ own. 0 < length (parts own.1.now)) }
    ensures fault { IfErr result (λ fault. (fault ≡ ReadFault.Line 1) × (parts text.now ≡ text.now ∷ [])) }
{
    match cut(text, b'\n') {
        Some((line, behind)) => Ok((line, behind)),
        None => Err(ReadFault::Line { left: 1 }),
    }
}

// That the first line of a text is refused.
pub(crate) fn refused(text: &[u8]) -> ReadFault
    ensures { result ≡ ReadFault.Line (length (parts text.now)) }
{
    ReadFault::Line {
        left: parts_left(text),
    }
}

// Whether a line begins with a kind.
fn begins(line: &[u8], kind: &[u8]) -> bool
    ensures { result ≡ begins kind.now line.now }
{
    behind(line, kind).is_some()
}

// The first line of a text and what stands behind its end, if it is a line of this kind.
pub(crate) fn next_of_kind<'a>(text: &'a [u8], kind: &[u8]) -> Option<(&'a [u8], &'a [u8])>
    ensures none { IsNone result → stops kind.now (parts text.now) ≡ true }
    ensures more { IfSome result (λ own. stops kind.now (parts text.now) ≡ false) }
    ensures line { IfSome result (λ own. parts text.now ≡ own.0.now ∷ parts own.1.now) }
    ensures less { IfSome result (λ own. length own.1.now < length text.now) }
{
    match line_of(text) {
        Ok((line, behind)) if begins(line, kind) => Some((line, behind)),
        _ => None,
    }
}

// Puts one behind others.
pub(crate) fn push<T: Drop>(items: &mut Vec<T>, item: T) -> Result<(), ReadFault>
    ensures items { OnOk result (items.new.items ≡ items.old.items ++ item ∷ []) }
    ensures fault { IfErr result (λ fault. fault ≡ ReadFault.OutOfMemory) }
{
    match items.push(item) {
        Ok(()) => Ok(()),
        Err(_no_memory) => Err(ReadFault::OutOfMemory),
    }
}

// Puts some behind others.
pub(crate) fn append<T: Copy>(items: &mut Vec<T>, more: &[T]) -> Result<(), ReadFault>
    ensures items { OnOk result (items.new.items ≡ items.old.items ++ more.now) }
    ensures fault { IfErr result (λ fault. fault ≡ ReadFault.OutOfMemory) }
{
    match items.extend_from_slice(more) {
        Ok(()) => Ok(()),
        Err(_no_memory) => Err(ReadFault::OutOfMemory),
    }
}

// The rows of an animal that stand next.
pub(crate) fn rows_of<'a>(
    alloc: Global,
    text: &'a [u8],
    name: &[u8],
) -> Result<(Vec<Row>, &'a [u8]), ReadFault>
    ensures found { IfOk result (λ own. rows_of name.now 0 (parts text.now) ≡ Ok (own.0.items, parts own.1.now)) }
    ensures fault { IfErr result (IsRefusal (rows_of name.now 0 (parts text.now))) }
{
    let mut rows = Vec::new(alloc);
    let mut rest = text;
    while let Some((line, behind)) = next_of_kind(rest, b"row,") {
        let Some(row) = row_of(line, name, rows.len() + 1) else {
            return Err(refused(rest));
        };
        push(&mut rows, row)?;
        rest = behind;
    }
    Ok((rows, rest))
}

// The corners of an animal that stand next.
pub(crate) fn corners_of<'a>(
    alloc: Global,
    text: &'a [u8],
    name: &[u8],
) -> Result<(Vec<Corner>, &'a [u8]), ReadFault>
    ensures found { IfOk result (λ own. corners_of name.now 0 (parts text.now) ≡ Ok (own.0.items, parts own.1.now)) }
    ensures fault { IfErr result (IsRefusal (corners_of name.now 0 (parts text.now))) }
{
    let mut corners = Vec::new(alloc);
    let mut rest = text;
    while let Some((line, behind)) = next_of_kind(rest, b"corner,") {
        let Some(corner) = corner_of(line, name, corners.len() + 1) else {
            return Err(refused(rest));
        };
        push(&mut corners, corner)?;
        rest = behind;
    }
    Ok((corners, rest))
}

// The percents of an animal that stand next.
pub(crate) fn percents_of<'a>(
    alloc: Global,
    text: &'a [u8],
    name: &[u8],
) -> Result<(Vec<PercentRow>, &'a [u8]), ReadFault>
    ensures found { IfOk result (λ own. percents_of name.now 0 (parts text.now) ≡ Ok (own.0.items, parts own.1.now)) }
    ensures fault { IfErr result (IsRefusal (percents_of name.now 0 (parts text.now))) }
{
    let mut percents = Vec::new(alloc);
    let mut rest = text;
    while let Some((line, behind)) = next_of_kind(rest, b"percent,") {
        let Some(percent) = percent_of(line, name) else {
            return Err(refused(rest));
        };
        push(&mut percents, percent)?;
        rest = behind;
    }
    Ok((percents, rest))
}
