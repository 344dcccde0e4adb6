// What stands between brackets at the end of titles.

use crate::signs::{sign_at, sign_before};
use crate::words::{behind, start_of, word_from};

// Where two points last stand side by side in a text.
fn last_points(text: &[u8]) -> Option<usize> {
    let mut last: Option<usize> = None;
    for place in 0..text.len() {
        if behind(text, place).starts_with(b"..") {
            last = Some(place);
        }
    }
    last
}

// What stands behind the first bracket of a text that opens.
fn behind_bracket(text: &[u8]) -> Option<&[u8]> {
    for place in 0..text.len() {
        let rest = behind(text, place);
        match sign_at(rest) {
            Some((b'(' | b'[' | b'{', length)) => return Some(behind(rest, length)),
            _ => {}
        }
    }
    None
}

// What stands between brackets at the end of a title, or between the points that R writes for them; none where nothing does.
fn bracketed(title: &[u8]) -> Option<&[u8]> {
    let (sign, length) = sign_before(title)?;
    let inside = start_of(title, title.len().saturating_sub(length));
    match sign {
        b')' | b']' | b'}' => behind_bracket(inside),
        b'.' => Some(behind(inside, last_points(inside)?.saturating_add(1))),
        _ => None,
    }
}

// Whether a byte stands beside a word between brackets: a blank, or the point that R writes for one.
fn is_beside(byte: u8) -> bool {
    byte.is_ascii_whitespace() || byte == b'.'
}

// A text without what stands before and behind a word between brackets.
fn without_sides(text: &[u8]) -> &[u8] {
    let first = text.iter().position(|byte| !is_beside(*byte));
    let rest = behind(text, first.unwrap_or(text.len()));
    rest.trim_ascii_end()
}

// The word that stands alone between brackets at the end of a title, if it has no digits.
pub(crate) fn lone_word(title: &[u8]) -> Option<&[u8]> {
    let word = without_sides(bracketed(title)?);
    let is_whole = !word.is_empty() && word_from(word, 0).len() == word.len();
    let has_digits = word.iter().any(|byte| byte.is_ascii_digit());
    if is_whole && !has_digits {
        Some(word)
    } else {
        None
    }
}
