// The declaration of XML, and the encoding that it names.

use crate::attributes::split_attribute;
use crate::signs::without_blanks;

/// The encoding that a declaration names, and what follows it.
#[derive(Clone, Copy)]
struct Declaration<'a> {
    encoding: Option<&'a [u8]>,
    rest: &'a [u8],
}

// The value of the attribute at the head of a text, if it has this name and blanks before it, and what follows it; else the
// text.
fn split_named<'a>(text: &'a [u8], name: &[u8]) -> (Option<&'a [u8]>, &'a [u8]) {
    let next = without_blanks(text);
    match split_attribute(next) {
        Some((attribute, rest)) if next.len() < text.len() && attribute.name == name => {
            (Some(attribute.value), rest)
        }
        _ => (None, text),
    }
}

// The declaration at the head of a text: its version, an encoding if it names one, and whether it stands alone if it says.
fn declaration_at(text: &[u8]) -> Option<Declaration<'_>> {
    let (version, rest) = split_named(text.strip_prefix(b"<?xml")?, b"version");
    let (encoding, rest) = split_named(rest, b"encoding");
    let (_, rest) = split_named(rest, b"standalone");
    let rest = without_blanks(rest).strip_prefix(b"?>")?;
    match version {
        Some(_) => Some(Declaration { encoding, rest }),
        None => None,
    }
}

/// The text behind the declaration at its head, if it has one.
pub(crate) fn without_declaration(text: &[u8]) -> &[u8] {
    match declaration_at(text) {
        Some(declaration) => declaration.rest,
        None => text,
    }
}

/// A text without the byte order mark of UTF-8.
pub(crate) fn without_mark(text: &[u8]) -> &[u8] {
    match text {
        [0xEF, 0xBB, 0xBF, rest @ ..] => rest,
        _ => text,
    }
}

/// The name of the encoding of GPX, from its first bytes: `utf-16` where they are the byte order mark of that, else what
/// the declaration of XML names. `None` where nothing is named, and it has to be UTF-8.
pub fn declared_encoding(bytes: &[u8]) -> Option<&[u8]> {
    match bytes {
        [0xFF, 0xFE, ..] | [0xFE, 0xFF, ..] => Some(b"utf-16"),
        _ => declaration_at(without_mark(bytes))?.encoding,
    }
}
