// What titles say of the axis of coordinates: whether they are the first of two, or the second.

use crate::dictionary::{EASTINGS, LATITUDES, LONGITUDES, NORTHINGS};
use crate::named::Role;
use crate::sides::{is_first, straight_side};
use crate::words::{
    first_word, has_word, is_one_of, is_one_word, is_same, next_word, word_before, word_from,
};

/// Whether a title has a word for a longitude or a latitude.
pub(crate) fn is_of_degrees(title: &[u8]) -> bool {
    has_word(title, &LONGITUDES) || has_word(title, &LATITUDES)
}

/// Whether a word is one for coordinates of one of the two axes.
pub(crate) fn is_axis(word: &[u8]) -> bool {
    is_one_of(word, &LONGITUDES)
        || is_one_of(word, &LATITUDES)
        || is_one_of(word, &EASTINGS)
        || is_one_of(word, &NORTHINGS)
}

// The letter of an axis that stands right before the word `utm` of a title, or behind it, as in `UTM_E` and `N_utm`.
fn letter_beside_utm<'t>(title: &'t [u8], letter: &str) -> Option<&'t [u8]> {
    for place in 0..title.len() {
        let word = word_from(title, place);
        let before = word_before(title, place);
        let behind = next_word(title, place.saturating_add(word.len()));
        if is_same(word, b"utm") && is_same(before, letter.as_bytes()) {
            return Some(before);
        }
        if is_same(word, b"utm") && is_same(behind, letter.as_bytes()) {
            return Some(behind);
        }
    }
    None
}

// The letter of an axis beside `utm`, where no `x` and no `y` says the axis.
fn letter_of_utm(title: &[u8], is_first: bool) -> Option<&[u8]> {
    if has_word(title, &["x", "y"]) {
        None
    } else {
        letter_beside_utm(title, if is_first { "e" } else { "n" })
    }
}

// The first word of a title for coordinates of this axis; that of a side is one where it stands alone.
fn word_of(title: &[u8], is_first: bool) -> Option<&[u8]> {
    let word = match is_first {
        true => first_word(title, &LONGITUDES).or(first_word(title, &EASTINGS)),
        false => first_word(title, &LATITUDES).or(first_word(title, &NORTHINGS)),
    };
    match word {
        Some(word) => Some(word),
        None if is_one_word(title) => straight_side(title, is_first),
        None => letter_of_utm(title, is_first),
    }
}

/// Which axis the words of a title say: the first of the two, the second, or none, where they say neither or both.
pub(crate) fn axis_of(title: &[u8]) -> Option<bool> {
    match (word_of(title, true), word_of(title, false)) {
        (Some(_), None) => Some(true),
        (None, Some(_)) => Some(false),
        _ => None,
    }
}

// The word by which the title of a coordinate says that it is the other one of the two.
pub(crate) fn other_axis_said(title: &[u8], role: Role) -> Option<&[u8]> {
    let is_first = is_first(role);
    match axis_of(title) {
        Some(own) if own != is_first => word_of(title, own),
        _ => None,
    }
}
