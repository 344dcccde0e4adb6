// Words behind others, and fields under their titles.

use itoa::Buffer;
use split_titles::{push_shown, trimmed};
use std::alloc::AllocError;

// Appends words.
pub(crate) fn push(text: &mut Vec<u8>, words: &str) -> Result<(), AllocError> {
    text.extend_from_slice(words.as_bytes())
}

// Appends a number.
pub(crate) fn push_number(text: &mut Vec<u8>, number: u64) -> Result<(), AllocError> {
    let mut buffer = Buffer::new();
    push(text, buffer.format(number))
}

// The title of a column; one that is not there has none.
fn title_at<'a>(titles: &[&'a [u8]], at: usize) -> &'a [u8] {
    match titles.get(at) {
        Some(title) => trimmed(title),
        None => b"",
    }
}

// A field of a record, under its title.
#[derive(Clone, Copy)]
pub(crate) struct Field<'a> {
    pub title: &'a [u8],
    pub cell: &'a [u8],
}

// The field of a record in a column; one that is not there is empty, and so is its title.
pub(crate) fn field_at<'a>(
    titles: &[&'a [u8]],
    fields: &[&'a [u8]],
    column: Option<usize>,
) -> Field<'a> {
    let at = column.unwrap_or(usize::MAX);
    Field {
        title: title_at(titles, at),
        cell: fields.get(at).copied().unwrap_or(b""),
    }
}

// Appends a field, and words about it.
pub(crate) fn push_field(
    text: &mut Vec<u8>,
    field: Field<'_>,
    words: &str,
) -> Result<(), AllocError> {
    text.extend_from_slice(field.title)?;
    push(text, " is ")?;
    push_shown(text, field.cell)?;
    push(text, words)
}
