// What titles say of units.

use crate::axes::{is_axis, is_of_degrees};
use crate::brackets::lone_word;
use crate::dictionary::{
    ANGLES, COORDINATE_LETTERS, COORDS, DEGREES, GLUED_ANGLES, GLUED_LENGTHS, LENGTHS, METRES,
    OF_FIXES, PARTS_OF_DEGREES, PARTS_OF_METRES, SYSTEMS_AND_AXES,
};
use crate::multiples::multiple_said;
use crate::sides::is_side;
use crate::words::{behind, first_word, has_word, is_one_of, start_of, word_from};

// Gons in English, and degrees in other languages, and words beside which they are gons.
const GRADS: [&str; 1] = ["grad"];

const ENGLISH_AXES: [&str; 6] = ["lon", "long", "lng", "longitude", "lat", "latitude"];

// Whether a word of the title of a coordinate is known, and says no unit other than metres and degrees.
pub(crate) fn is_known(word: &[u8]) -> bool {
    is_one_of(word, &SYSTEMS_AND_AXES)
        || is_one_of(word, &COORDINATE_LETTERS)
        || is_one_of(word, &METRES)
        || is_one_of(word, &DEGREES)
}

// Whether a word alone between brackets is known, and says no unit other than metres and degrees.
fn is_known_alone(word: &[u8]) -> bool {
    is_known(word)
        || is_axis(word)
        || is_side(word)
        || is_one_of(word, &COORDS)
        || is_one_of(word, &OF_FIXES)
}

// Whether a word is a multiple or a part of metres.
fn is_of_metres(word: &[u8]) -> bool {
    for place in 1..word.len() {
        let (part, metres) = (start_of(word, place), behind(word, place));
        if is_one_of(metres, &METRES) && is_one_of(part, &PARTS_OF_METRES) {
            return true;
        }
    }
    false
}

// Whether a word is the name of an axis, before which no other unit than its own stands.
fn is_of_axis(word: &[u8], is_metres: bool) -> bool {
    is_axis(word) || is_metres && (is_side(word) || is_one_of(word, &["x", "y", "e", "n"]))
}

// The short name of another unit at the end of a word, right behind the name of an axis, as in `xkm`.
fn unit_in(word: &[u8], is_metres: bool) -> Option<&[u8]> {
    for place in 1..word.len() {
        let (axis, unit) = (start_of(word, place), behind(word, place));
        let is_unit = if is_metres {
            is_one_of(unit, &GLUED_LENGTHS)
        } else {
            is_one_of(unit, &GLUED_ANGLES)
        };
        if is_unit && is_of_axis(axis, is_metres) {
            return Some(unit);
        }
    }
    None
}

// The unit of angles that a text says. A `grad` is one but beside words for a longitude or a latitude in languages that call degrees so.
fn angle_in(text: &[u8]) -> Option<&[u8]> {
    let has_own_axis = is_of_degrees(text) && !has_word(text, &ENGLISH_AXES);
    let grad = if has_own_axis {
        None
    } else {
        first_word(text, &GRADS)
    };
    first_word(text, &ANGLES)
        .or(first_word(text, &PARTS_OF_DEGREES))
        .or(grad)
}

// The first short name of another unit in a title that stands right behind the name of an axis.
fn glued_unit(title: &[u8], is_metres: bool) -> Option<&[u8]> {
    for place in 0..title.len() {
        let unit = unit_in(word_from(title, place), is_metres);
        if unit.is_some() {
            return unit;
        }
    }
    None
}

// The first word of a title that is a multiple or a part of metres.
fn first_of_metres(title: &[u8]) -> Option<&[u8]> {
    for place in 0..title.len() {
        let word = word_from(title, place);
        if is_of_metres(word) {
            return Some(word);
        }
    }
    None
}

// The power of ten at the start of a text, as in `e7` and `E-7`; empty where there is none.
fn power_in(text: &[u8]) -> &[u8] {
    let length = match text {
        [b'e' | b'E', b'3'..=b'9', next, ..] if next.is_ascii_alphanumeric() => 0,
        [b'e' | b'E', b'3'..=b'9', ..] => 2,
        [b'e' | b'E', b'+' | b'-', b'3'..=b'9', next, ..] if next.is_ascii_alphanumeric() => 0,
        [b'e' | b'E', b'+' | b'-', b'3'..=b'9', ..] => 3,
        _ => 0,
    };
    text.get(..length).unwrap_or(b"")
}

// The first power of ten by which a title says that its numbers are multiplied: one that begins a word.
fn first_power(title: &[u8]) -> Option<&[u8]> {
    for place in 0..title.len() {
        if word_from(title, place).len() == 1 {
            let power = power_in(title.get(place..).unwrap_or(b""));
            if !power.is_empty() {
                return Some(power);
            }
        }
    }
    None
}

// The word that stands alone between brackets at the end of a title, if it is none that is known.
fn unknown_word(title: &[u8]) -> Option<&[u8]> {
    match lone_word(title) {
        Some(word) if !is_known_alone(word) => Some(word),
        _ => None,
    }
}

// What a text says of another unit than metres, or than degrees, by words that are known.
pub(crate) fn known_unit(text: &[u8], is_metres: bool) -> Option<&[u8]> {
    let own = if is_metres {
        first_word(text, &LENGTHS).or(first_of_metres(text))
    } else {
        angle_in(text).or(first_power(text))
    };
    own.or(glued_unit(text, is_metres))
        .or(multiple_said(text, is_metres))
}

// What a title says of another unit than metres, or than degrees.
pub(crate) fn unit_said(title: &[u8], is_metres: bool) -> Option<&[u8]> {
    known_unit(title, is_metres).or(unknown_word(title))
}
