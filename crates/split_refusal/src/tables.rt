// Refusals of a file: its text, and its quotes.

ghost use Rattle.std.specs.Prelude.{◌≡◌, None};
ghost use Rattle.split_refusal.specs.Refused.{Names, below_titles, record_of_table};

use crate::kind::Kind;
use crate::push::push;
use crate::refusal::{Refusal, Sentence, refusal_of};
use range_plane::OutOfMemory;
use split_export::TextFault;
use split_table::TableFault;
use std::alloc::Global;

// A path, and words about it.
fn about(alloc: Global, kind: Kind, path: &[u8], words: &str) -> Result<Sentence, OutOfMemory> {
    let mut text = Vec::from_slice(alloc, path)?;
    push(&mut text, words)?;
    Ok(Sentence { kind, text })
}

/// The refusal of a file that has no text.
pub fn refused_text(alloc: Global, what: TextFault, path: &[u8]) -> Refusal
    ensures { Names None result }
{
    let words = match what {
        TextFault::ByteZero => " is no text: it has a byte 0",
        TextFault::NotUtf8 => {
            " is no text in UTF-8: name its coding, such as --encoding latin-1"
        }
    };
    refusal_of(alloc, None, about(alloc, Kind::Text, path, words))
}

// The number of a record that has a fault; none of the line of titles, and none past 2^32.
fn number_of(record: u64) -> Option<u32>
    ensures { result ≡ below_titles «record» }
{
    match u32::try_from(record) {
        Ok(number) if number > 0 => Some(number),
        _ => None,
    }
}

// What is said of a quote that stands where none may, and of one without an end.
const STRAY_QUOTE: &str =
    "a quote stands inside a field, or something behind it: quotes stand around a whole field, and are doubled inside it; and fields stand between commas, semicolons or tabs";

const OPEN_QUOTE: &str =
    "a quote has no end: quotes stand around a whole field, and are doubled inside it; and fields stand between commas, semicolons or tabs";

// A path, and words about its line of titles.
fn about_titles(alloc: Global, path: &[u8], words: &str) -> Result<Sentence, OutOfMemory> {
    let mut sentence = about(alloc, Kind::Text, path, ": in the line of titles ")?;
    push(&mut sentence.text, words)?;
    Ok(sentence)
}

// The refusal of a quote in a record.
fn refused_quote(alloc: Global, record: u64, path: &[u8], words: &str) -> Refusal
    ensures { Names (below_titles «record») result }
{
    match number_of(record) {
        Some(number) => Refusal::new(alloc, Kind::Text, Some(number), words.as_bytes()),
        None => refusal_of(alloc, None, about_titles(alloc, path, words)),
    }
}

/// The refusal of a text that is no table.
pub fn refused_table(alloc: Global, fault: TableFault, path: &[u8]) -> Refusal
    ensures { Names (record_of_table fault) result }
{
    match fault {
        TableFault::OutOfMemory => Refusal::out_of_memory(alloc),
        TableFault::StrayQuote { record } => refused_quote(alloc, record, path, STRAY_QUOTE),
        TableFault::OpenQuote { record } => refused_quote(alloc, record, path, OPEN_QUOTE),
        TableFault::NoTitles => {
            let sentence = about(alloc, Kind::Empty, path, " has no line of titles");
            refusal_of(alloc, None, sentence)
        }
    }
}
