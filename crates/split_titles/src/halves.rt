// Halves of the day, as they stand behind clocks of 12 hours, or in a column of their own.

use crate::dictionary::{
    AFTERNOONS, AFTERNOONS_BEHIND, FORENOONS, FORENOONS_BEHIND, HALF_TITLES, HALVES,
    SMALL_AFTERNOONS, SMALL_FORENOONS,
};
use crate::words::{behind, has_word, is_one_of, is_one_word};

// Whether a text is one of these, in their own letters.
fn is_own(text: &[u8], words: &[&str]) -> bool {
    words.iter().any(|own| text == own.as_bytes())
}

/// Whether a text names the half of the day behind noon; none where it names no half.
pub fn half_named(text: &[u8]) -> Option<bool> {
    let half = text.trim_ascii();
    if is_own(half, &SMALL_FORENOONS) || is_one_of(half, &FORENOONS) {
        Some(false)
    } else if is_own(half, &SMALL_AFTERNOONS) || is_one_of(half, &AFTERNOONS) {
        Some(true)
    } else {
        None
    }
}

/// Whether a text is a half of the day.
pub fn is_half_of_day(text: &[u8]) -> bool {
    half_named(text).is_some()
}

/// Whether the words of a title are those of a column of halves of the day.
pub fn is_of_halves(title: &[u8]) -> bool {
    let (has_am, has_pm) = (has_word(title, &["am"]), has_word(title, &["pm"]));
    let is_asked = has_word(title, &["is"]) && (has_am || has_pm);
    let is_one = has_word(title, &HALVES) || is_one_of(title.trim_ascii(), &HALF_TITLES);
    is_one || is_asked || has_am && has_pm
}

/// Whether the words of a title are those of a column that says which times are behind noon.
pub fn is_of_afternoon(title: &[u8]) -> bool {
    let is_asked = is_one_word(title) || has_word(title, &["is"]);
    has_word(title, &["ispm"]) || has_word(title, &["pm"]) && is_asked
}

// A text without blanks before it, and without one that does not break.
fn without_blanks_before(text: &[u8]) -> &[u8] {
    let text = text.trim_ascii_start();
    match text {
        [0xC2, 0xA0, rest @ ..] | [0xE2, 0x80, 0xAF, rest @ ..] => rest.trim_ascii_start(),
        _ => text,
    }
}

// Where the last digit of a text stands.
fn last_digit(text: &[u8]) -> Option<usize> {
    let mut last: Option<usize> = None;
    for (place, byte) in text.iter().enumerate() {
        if byte.is_ascii_digit() {
            last = Some(place);
        }
    }
    last
}

// Which half of the day a word behind a clock is, or before one: whether it is the one behind noon.
fn half_of(word: &[u8]) -> Option<bool> {
    if is_one_of(word, &FORENOONS) || is_one_of(word, &FORENOONS_BEHIND) {
        Some(false)
    } else if is_one_of(word, &AFTERNOONS) || is_one_of(word, &AFTERNOONS_BEHIND) {
        Some(true)
    } else {
        None
    }
}

// The clock behind a half of the day at the start of a text, as they stand in China and Japan, and whether that is behind noon.
fn clock_behind(text: &[u8]) -> Option<(&[u8], bool)> {
    let place = text.iter().position(u8::is_ascii_digit)?;
    let (start, clock) = text.split_at_checked(place)?;
    let is_behind_noon = half_of(start.trim_ascii_end())?;
    Some((clock, is_behind_noon))
}

/// The clock, or whatever else ends with a digit, beside which a half of the day stands in a text, at its end or, before a clock, at its
/// start; and whether this half is the one behind noon.
pub fn clock_of_half(text: &[u8]) -> Option<(&[u8], bool)> {
    let text = text.trim_ascii();
    let length = last_digit(text)?.saturating_add(1);
    if length == text.len() {
        return clock_behind(text);
    }
    let is_behind_noon = half_of(without_blanks_before(behind(text, length)))?;
    Some((text.get(..length)?, is_behind_noon))
}
