// Attributes of tags.

use crate::references::left_from_bad_reference;
use crate::signs::{split_before, split_name, without_blanks};

/// An attribute, whose value is as it stands in the text.
#[derive(Clone, Copy)]
pub(crate) struct Attribute<'a> {
    pub(crate) name: &'a [u8],
    pub(crate) value: &'a [u8],
}

// What stands between the quotes at the head of a text, and what follows them.
fn split_quoted(text: &[u8]) -> Option<(&[u8], &[u8])> {
    let (quote, quoted) = text.split_first()?;
    if *quote != b'"' && *quote != b'\'' {
        return None;
    }
    let (value, rest) = split_before(quoted, *quote)?;
    Some((value, rest.get(1..)?))
}

// Whether a value has no `<`, and each `&` in it begins a reference.
fn is_value(value: &[u8]) -> bool {
    !value.contains(&b'<') && left_from_bad_reference(value).is_none()
}

/// The attribute at the head of a text, and what follows it.
pub(crate) fn split_attribute(text: &[u8]) -> Option<(Attribute<'_>, &[u8])> {
    let (name, rest) = split_name(text)?;
    let (equals, rest) = without_blanks(rest).split_first()?;
    let (value, rest) = split_quoted(without_blanks(rest))?;
    if *equals == b'=' && is_value(value) {
        Some((Attribute { name, value }, rest))
    } else {
        None
    }
}
