// What titles say of the side to which coordinates are counted.

use crate::axes::{is_axis, is_of_degrees as has_axis_of_degrees};
use crate::dictionary::{
    BEHIND_SIDES, COORDINATE_LETTERS, COORDS, DEGREES, EASTINGS, EASTS, GEOGRAPHIC, HEMISPHERES,
    LONGITUDES_OF_O, METRES, NORTHINGS, NORTHS, OF_PLANES, SIGNED, SOUTHS, WESTINGS, WESTS,
};
use crate::named::Role;
use crate::signs::sign_at;
use crate::units::is_known;
use crate::words::{behind, first_word, has_word, is_one_of, is_one_word, next_word, word_from};

// Whether a role is that of the first of two coordinates.
pub(crate) fn is_first(role: Role) -> bool {
    role == Role::Longitude || role == Role::Easting
}

// Whether a role is that of degrees.
fn is_of_degrees(role: Role) -> bool {
    role == Role::Longitude || role == Role::Latitude
}

// Whether a word is one for the west, of a first coordinate, or for the south, of a second.
fn is_written_out(word: &[u8], role: Role) -> bool {
    if is_first(role) {
        is_one_of(word, &WESTS)
    } else {
        is_one_of(word, &SOUTHS)
    }
}

// Whether what is said ends before the start of a text: by the end of a title, or a sign.
fn ends_before(text: &[u8]) -> bool {
    match sign_at(text.trim_ascii_start()) {
        None | Some((b'(' | b')' | b'[' | b']' | b'{' | b'}' | b',' | b';', _)) => true,
        _ => false,
    }
}

// Whether a word for a side says that of degrees before the rest of a title, and is not that of a place, as in `South Africa`.
fn may_stand_before(rest: &[u8]) -> bool {
    let next = next_word(rest, 0);
    ends_before(rest)
        || next.is_empty()
        || is_known(next)
        || is_axis(next)
        || is_one_of(next, &COORDS)
        || is_one_of(next, &HEMISPHERES)
        || is_one_of(next, &BEHIND_SIDES)
        || is_one_of(next, &GEOGRAPHIC)
}

// Whether a word of the title of a plane is none of a system or of a place.
fn is_of_plane(word: &[u8], role: Role) -> bool {
    is_one_of(word, &OF_PLANES)
        || is_one_of(word, &COORDINATE_LETTERS)
        || is_one_of(word, &COORDS)
        || is_one_of(word, &EASTINGS)
        || is_one_of(word, &NORTHINGS)
        || is_one_of(word, &METRES)
        || is_written_out(word, role)
}

// Whether all words of a title are none of a system or of a place.
fn are_of_plane(title: &[u8], role: Role) -> bool {
    for place in 0..title.len() {
        let word = word_from(title, place);
        if !word.is_empty() && !is_of_plane(word, role) {
            return false;
        }
    }
    true
}

// The letter of the side to which a role of degrees is not counted.
fn letter_of(role: Role) -> &'static str {
    if is_first(role) { "w" } else { "s" }
}

// Whether letters of a title may stand for sides: beside a word for longitudes or latitudes, or alone, and not where the other title has
// the letter too, as `lon_s` beside `lat_s`.
fn may_have_letter(title: &[u8], other: &[u8], role: Role) -> bool {
    is_of_degrees(role)
        && (has_axis_of_degrees(title) || has_word(title, &DEGREES) || is_one_word(title))
        && !has_word(other, &[letter_of(role)])
}

// The first word of a title for the side to which the first of two coordinates is counted, or the second.
pub(crate) fn straight_side(title: &[u8], is_first: bool) -> Option<&[u8]> {
    if is_first {
        first_word(title, &EASTS).or(first_word(title, &["e"]))
    } else {
        first_word(title, &NORTHS).or(first_word(title, &["n"]))
    }
}

// Whether a word is one for a side of the Earth.
pub(crate) fn is_side(word: &[u8]) -> bool {
    is_one_of(word, &EASTS)
        || is_one_of(word, &NORTHS)
        || is_one_of(word, &WESTS)
        || is_one_of(word, &SOUTHS)
}

// Whether a title says both sides, or which of them has a sign.
fn says_both(title: &[u8], role: Role) -> bool {
    straight_side(title, is_first(role)).is_some() || has_word(title, &SIGNED)
}

// What a title has that tells whether its words say a side.
#[derive(Clone, Copy)]
struct Facts {
    role: Role,
    // Whether it is of degrees, or of a plane without words of a system or a place.
    is_plain: bool,
    may_have_letter: bool,
    has_o: bool,
    is_straight: bool,
}

// What a title has, beside that of the other coordinate.
fn facts_of(title: &[u8], other: &[u8], role: Role) -> Facts {
    Facts {
        role,
        is_plain: is_of_degrees(role) || are_of_plane(title, role),
        may_have_letter: may_have_letter(title, other, role),
        has_o: role == Role::Longitude && has_word(title, &LONGITUDES_OF_O),
        is_straight: has_word(title, &EASTINGS) || has_word(title, &NORTHINGS),
    }
}

// Whether a word is a letter for a side.
fn is_lettered(word: &[u8], facts: Facts) -> bool {
    let is_one = word.eq_ignore_ascii_case(letter_of(facts.role).as_bytes());
    facts.may_have_letter && (is_one || facts.has_o && word == b"O".as_slice())
}

// Whether a word says a side before the rest of its title.
fn says_side(word: &[u8], rest: &[u8], facts: Facts) -> bool {
    let is_one = facts.is_plain && is_written_out(word, facts.role) || is_lettered(word, facts);
    let is_turned = is_one_of(word, &WESTINGS) && !facts.is_straight;
    is_turned || is_one && (!is_of_degrees(facts.role) || may_stand_before(rest))
}

// The word by which the title of a coordinate says that it is counted to the west, or to the south, of two coordinates of which the
// other has this title.
pub(crate) fn side_said<'t>(title: &'t [u8], other: &[u8], role: Role) -> Option<&'t [u8]> {
    if says_both(title, role) {
        return None;
    }
    let facts = facts_of(title, other, role);
    for place in 0..title.len() {
        let word = word_from(title, place);
        if says_side(word, behind(title, place.saturating_add(word.len())), facts) {
            return Some(word);
        }
    }
    None
}
