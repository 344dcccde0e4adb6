// Where signs stand in a text.

use memchr::{memchr, memmem};

/// What stands before the first such byte, and the rest from it on.
pub(crate) fn split_before(text: &[u8], byte: u8) -> Option<(&[u8], &[u8])> {
    text.split_at_checked(memchr(byte, text)?)
}

/// What stands before the first such sign, and behind it.
pub(crate) fn split_around<'a>(text: &'a [u8], sign: &[u8]) -> Option<(&'a [u8], &'a [u8])> {
    let (before, rest) = text.split_at_checked(memmem::find(text, sign)?)?;
    Some((before, rest.get(sign.len()..)?))
}

/// Whether a byte is a blank of XML.
pub(crate) fn is_blank(byte: u8) -> bool {
    byte == b' ' || byte == b'\t' || byte == b'\n' || byte == b'\r'
}

/// A text without the blanks at its head.
pub(crate) fn without_blanks(text: &[u8]) -> &[u8] {
    let blanks = text
        .iter()
        .position(|byte| !is_blank(*byte))
        .unwrap_or(text.len());
    text.get(blanks..).unwrap_or_default()
}

// Whether a byte may stand in a name. Those from 128 on, which are of other letters, all may.
fn is_of_name(byte: u8) -> bool {
    byte.is_ascii_alphanumeric() || byte >= 128 || b"_:-.".contains(&byte)
}

// Whether a byte may begin a name.
fn begins_name(byte: u8) -> bool {
    is_of_name(byte) && !byte.is_ascii_digit() && byte != b'-' && byte != b'.'
}

/// The name at the head of a text, and what follows it.
pub(crate) fn split_name(text: &[u8]) -> Option<(&[u8], &[u8])> {
    if !begins_name(*text.first()?) {
        return None;
    }
    let length = text
        .iter()
        .position(|byte| !is_of_name(*byte))
        .unwrap_or(text.len());
    text.split_at_checked(length)
}

/// A name without the prefix of its namespace.
pub(crate) fn local_name(name: &[u8]) -> &[u8] {
    match split_before(name, b':') {
        Some((_, [_, local @ ..])) => local,
        _ => name,
    }
}
