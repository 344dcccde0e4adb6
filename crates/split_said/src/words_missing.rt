// Names of animals that look as if there were none, or as numbers that have lost digits.

use crate::said::Said;
use crate::words::{push, push_number, push_quoted};
use indexmap::IndexSet;
use range_plane::OutOfMemory;
use range_texts::is_unseen;
use std::alloc::{AllocError, Global};

// What tables write where something is missing, in small letters.
const MISSING: [&[u8]; 14] = [
    b"na",
    b"n/a",
    b"n.a",
    b"n/d",
    b"nat",
    b"null",
    b"nan",
    b"none",
    b"nil",
    b"missing",
    b"undefined",
    b"unknown",
    b"not available",
    b"na_character",
];

// What databases write so.
const OF_DATABASES: &[u8] = b"\\N";

// Whether a byte is a sign that may stand around such a word, or for what is missing.
fn is_around(byte: u8) -> bool {
    matches!(
        byte,
        b' ' | b'\t'
            | b'<'
            | b'>'
            | b'#'
            | b'?'
            | b'-'
            | b'.'
            | b'('
            | b')'
            | b'['
            | b']'
            | b'_'
            | b'!'
            | b'*'
            | b'/'
            | b'\\'
            | b'"'
            | b'\''
            | b'`'
            | b'+'
    )
}

// A text without such signs at its start.
fn behind_signs(text: &[u8]) -> &[u8] {
    let length = text.iter().position(|byte| !is_around(*byte));
    text.get(length.unwrap_or(text.len())..).unwrap_or(b"")
}

// A text without such signs at its end.
fn before_signs(text: &[u8]) -> &[u8] {
    let mut rest = text;
    for _sign in 0..text.len() {
        match rest {
            [others @ .., last] if is_around(*last) => rest = others,
            _ => return rest,
        }
    }
    rest
}

// Whether characters are blanks of Unicode alone, or such as are not seen.
fn are_blanks(name: &[u8]) -> bool {
    match str::from_utf8(name) {
        Ok(text) => text.chars().all(|character| character.is_whitespace() || is_unseen(character)),
        Err(_) => false,
    }
}

// Whether a name is one of these words, in whatever signs, or signs or blanks alone.
fn is_missing(name: &[u8]) -> bool {
    let own = before_signs(behind_signs(name));
    let is_of_database = name == OF_DATABASES;
    own.is_empty()
        || is_of_database
        || are_blanks(name)
        || MISSING.iter().any(|word| own.eq_ignore_ascii_case(word))
}

// Says a question for each name that looks as if there were no animal, of animals that have so many records.
pub(crate) fn ask_missing(
    alloc: Global,
    said: &mut Said,
    names: &IndexSet<Vec<u8>>,
    counts: &[usize],
) -> Result<(), OutOfMemory> {
    for (name, count) in names.iter().zip(counts) {
        if is_missing(name) {
            said.say(alloc, &missing_text(alloc, name, *count)?)?;
        }
    }
    Ok(())
}

// The question whether records that have this name, so many, have an animal.
fn missing_text(alloc: Global, name: &[u8], count: usize) -> Result<Vec<u8>, AllocError> {
    let mut text = Vec::new(alloc);
    push(&mut text, "animal ")?;
    push_quoted(&mut text, name)?;
    push(&mut text, " has ")?;
    push_number(&mut text, count)?;
    push(&mut text, " records: are they of no animal?")?;
    Ok(text)
}

// What follows the digits at the start of a text.
fn behind_digits(text: &[u8]) -> &[u8] {
    let end = text.iter().position(|byte| !byte.is_ascii_digit());
    text.get(end.unwrap_or(text.len())..).unwrap_or(b"")
}

// A text behind the point and the decimals at its start, and whether there are some.
fn behind_decimals(text: &[u8]) -> (&[u8], bool) {
    match text {
        [b'.' | b',', rest @ ..] => (behind_digits(rest), true),
        _ => (text, false),
    }
}

// Whether a text is digits alone, and some.
fn are_digits(text: &[u8]) -> bool {
    !text.is_empty() && behind_digits(text).is_empty()
}

// Whether a name is a number as spreadsheets write long ones, such as 3.00434E+14: other numbers are written so too.
pub(crate) fn has_lost_digits(name: &[u8]) -> bool {
    if !name.first().is_some_and(|byte| byte.is_ascii_digit()) {
        return false;
    }
    let (rest, has_decimals) = behind_decimals(behind_digits(name));
    match rest {
        [b'E' | b'e', b'+', digits @ ..] => are_digits(digits),
        [b'E' | b'e', digits @ ..] => has_decimals && are_digits(digits),
        _ => false,
    }
}
