// A sentence on animals that have no range.

use crate::cells::push_count;
use crate::shown::{Source, source_words};
use page_text::{between, push_named};
use std::alloc::AllocError;

// How many animals without a range have their names in the sentence.
const MOST_NAMED: usize = 20;

/// An animal none of whose fixes is used.
#[derive(Clone, Copy)]
pub struct Unused<'a> {
    pub name: &'a [u8],
    /// How many records it has.
    pub records: u64,
}

// Appends the names of animals, each with its records.
fn push_names(text: &mut Vec<u8>, animals: &[Unused]) -> Result<(), AllocError> {
    for (place, own) in animals.iter().enumerate() {
        push_named(text, own.name)?;
        text.extend_from_slice(b" (")?;
        push_count(text, own.records)?;
        text.extend_from_slice(b")")?;
        text.extend_from_slice(between(animals.len() - place - 1).as_bytes())?;
    }
    Ok(())
}

// Appends how many animals more there are than are named.
fn push_more(text: &mut Vec<u8>, animals: usize) -> Result<(), AllocError> {
    if animals > MOST_NAMED {
        text.extend_from_slice(b", and ")?;
        push_count(text, (animals - MOST_NAMED) as u64)?;
        text.extend_from_slice(b" more")?;
    }
    text.extend_from_slice(b".")
}

/// Appends a sentence on animals of the export or the table that have no range, in the order of their names.
///
/// # Errors
///
/// Memory ran out.
pub fn push_without_range(
    text: &mut Vec<u8>,
    source: Source,
    animals: &[Unused],
) -> Result<(), AllocError> {
    if animals.is_empty() {
        return Ok(());
    }
    text.extend_from_slice(b"Without a range, since none of their fixes is used (fixes of the ")?;
    text.extend_from_slice(source_words(source))?;
    text.extend_from_slice(b"): ")?;
    push_names(text, &animals[..animals.len().min(MOST_NAMED)])?;
    push_more(text, animals.len())
}
