// What one cell says.

ghost use Rattle.std.specs.Prelude.{◌≡◌};
ghost use Rattle.csv.specs.Records.{fields_of};
ghost use Rattle.split_reading.specs.Cells.{cell, is_missing, is_one_of, is_word, is_zero, mark_text, number_in, trillionths_in, truth_in, truth_of, word_in};

use crate::fault::CellFault;
use crate::rules::Rules;
use csv::ByteRecord;
use split_numbers::{is_same_number, trillionths, whole_units};

/// Whether a field is a word for what is missing: the same bytes, or the same number, as `-9999` and `-9999.0` are. In a number a
/// comma may stand in place of the point, where `has_commas` says so.
pub fn is_word(word: &[u8], text: &[u8], has_commas: bool) -> bool
    ensures { result ≡ is_word has_commas word.now text.now }
{
    word == text || is_same_number(word, text, has_commas)
}

// Whether a field is one of the words for what is missing.
fn is_one_of(words: &[&[u8]], text: &[u8], has_commas: bool) -> bool
    ensures { result ≡ is_one_of has_commas words.now text.now }
{
    for word in words {
        if is_word(word, text, has_commas) {
            return true;
        }
    }
    false
}

// The field of a record in a column; empty where it is not there, or is a word for what is missing.
pub(crate) fn cell<'a>(fields: &'a ByteRecord, column: usize, rules: &Rules<'_, '_>) -> &'a [u8]
    ensures { result.now ≡ cell rules.now (fields_of «fields».entry.now) column }
{
    let text = fields.get(column).unwrap_or(b"");
    if is_one_of(rules.missing, text, rules.has_commas) {
        b""
    } else {
        text
    }
}

// Whether a field is missing.
pub(crate) fn is_missing(text: &[u8]) -> bool
    ensures { result ≡ is_missing text.now }
{
    text.is_empty() || text == b"NA".as_slice()
}

// The units of a coordinate in metres, or none where it is missing.
pub(crate) fn number_in(
    text: &[u8],
    column: usize,
    rules: &Rules<'_, '_>,
) -> Result<Option<i64>, CellFault>
    ensures { result ≡ number_in rules.now column text.now }
{
    if is_missing(text) {
        return Ok(None);
    }
    match whole_units(text, rules.unit, rules.has_commas) {
        Some(units) => Ok(Some(units)),
        None => Err(CellFault::NotNumber { column }),
    }
}

// The trillionths of a number, or none where it is missing.
pub(crate) fn trillionths_in(
    text: &[u8],
    column: usize,
    rules: &Rules<'_, '_>,
) -> Result<Option<i64>, CellFault>
    ensures { result ≡ trillionths_in rules.now column text.now }
{
    if is_missing(text) {
        return Ok(None);
    }
    match trillionths(text, rules.has_commas) {
        Some(count) => Ok(Some(count)),
        None => Err(CellFault::NotNumber { column }),
    }
}

// The word of a record in a column; empty where it is missing, or there is no such column.
pub(crate) fn word_in<'a>(
    fields: &'a ByteRecord,
    column: Option<usize>,
    rules: &Rules<'_, '_>,
) -> &'a [u8]
    ensures { result.now ≡ word_in rules.now column (fields_of «fields».entry.now) }
{
    let Some(column) = column else {
        return b"";
    };
    let text = cell(fields, column, rules);
    if is_missing(text) { b"" } else { text }
}

// Whether a number is 0.
pub(crate) fn is_zero(text: &[u8]) -> bool
    ensures { result ≡ is_zero text.now }
{
    !is_missing(text)
        && text.iter().all(|byte| *byte == b'0' || *byte == b'-' || *byte == b'.' || *byte == b',')
}

// The truth that a text writes, if it writes one.
fn truth_of(text: &[u8]) -> Option<bool>
    ensures { result ≡ truth_of text.now }
{
    match text {
        b"true" | b"TRUE" | b"True" | b"1" | b"1.0" => Some(true),
        b"false" | b"FALSE" | b"False" | b"0" | b"0.0" => Some(false),
        _ => None,
    }
}

// The text of a mark: a truth is one even if it is a word for what is missing.
fn mark_text<'a>(fields: &'a ByteRecord, column: usize, rules: &Rules<'_, '_>) -> &'a [u8]
    ensures { result.now ≡ mark_text rules.now column (fields_of «fields».entry.now) }
{
    let text = fields.get(column).unwrap_or(b"");
    if truth_of(text).is_some() {
        text
    } else {
        cell(fields, column, rules)
    }
}

// The truth of a mark of a record, or none where it is missing.
pub(crate) fn truth_in(
    fields: &ByteRecord,
    column: usize,
    rules: &Rules<'_, '_>,
) -> Result<Option<bool>, CellFault>
    ensures { result ≡ truth_in rules.now column (fields_of «fields».now) }
{
    let text = mark_text(fields, column, rules);
    if is_missing(text) {
        return Ok(None);
    }
    match truth_of(text) {
        Some(truth) => Ok(Some(truth)),
        None => Err(CellFault::NotTruth { column }),
    }
}
