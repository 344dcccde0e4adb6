// What titles say of multiples and parts of their unit, as `x (10 m)`, `E_100m`, `easting x 1000` and `lat*10^7`.

use crate::axes::is_axis;
use crate::dictionary::{
    COORDINATE_LETTERS, COORDS, DEGREES, EASTS, METRES, MULTIPLES, NORTHS, NUMBERED_SYSTEMS,
};
use crate::signs::{sign_at, sign_before};
use crate::words::{begins_at, behind, is_one_of, start_of, word_before, word_from};

// The short name of metres.
const METRE: &str = "m";

// Whether a byte goes on with a number: a digit, or a sign that stands between digits.
fn is_of_number(text: &[u8]) -> bool {
    match text {
        [b'.' | b',', next, ..] => next.is_ascii_digit(),
        [byte, ..] => byte.is_ascii_digit(),
        [] => false,
    }
}

// The number at the start of a text; empty where there is none.
fn number_at(text: &[u8]) -> &[u8] {
    for place in 0..text.len() {
        if !is_of_number(behind(text, place)) {
            return start_of(text, place);
        }
    }
    text
}

// Whether a number is going on behind the start of a title.
fn is_within_number(before: &[u8]) -> bool {
    match before {
        [.., digit, b'.' | b','] => digit.is_ascii_digit(),
        _ => false,
    }
}

// Whether a number is a power of ten from 10 on, which may have signs of thousands.
fn is_multiple(number: &[u8]) -> bool {
    let Some((b'1', rest)) = number.split_first() else {
        return false;
    };
    let zeros = rest.iter().filter(|byte| **byte == b'0').count();
    let are_all = rest.iter().all(|byte| !(b'1'..=b'9').contains(byte));
    are_all && 1 <= zeros && (zeros == rest.len() || zeros % 3 == 0)
}

// Whether a number is a power of ten below 1, as 0.1.
fn is_part(number: &[u8]) -> bool {
    match number {
        [b'0', b'.' | b',', parts @ .., b'1'] => parts.iter().all(|byte| *byte == b'0'),
        _ => false,
    }
}

// Whether a byte may stand between a number and its unit or its sign.
fn is_gap(byte: u8) -> bool {
    matches!(byte, b' ' | b'_' | b'.' | b'-')
}

// How long the exponent at the start of a text is, behind a power of ten or, in letters, behind 1: as in `e3`, `E-7` and `^7`; 0
// where there is none.
fn exponent_length(text: &[u8]) -> usize {
    match text {
        [b'e' | b'E' | b'^', b'+' | b'-', digit, ..] if digit.is_ascii_digit() => 3,
        [b'e' | b'E' | b'^', digit, ..] if digit.is_ascii_digit() => 2,
        [b'*', b'*', digit, ..] if digit.is_ascii_digit() => 3,
        [b'*', b'*', b'+' | b'-', digit, ..] if digit.is_ascii_digit() => 4,
        [0xC2, 0xB2 | 0xB3 | 0xB9, ..] => 2,
        [0xE2, 0x81, _, ..] => 3,
        _ => 0,
    }
}

// Whether a word is the unit of a coordinate.
fn is_unit(word: &[u8], is_metres: bool) -> bool {
    if is_metres {
        word.eq_ignore_ascii_case(METRE.as_bytes()) || is_one_of(word, &METRES)
    } else {
        is_one_of(word, &DEGREES)
    }
}

// How long the unit at the start of a text is, with what may stand before it; 0 where there is none.
fn unit_length(text: &[u8], is_metres: bool) -> usize {
    let gap = match text.first() {
        Some(byte) if is_gap(*byte) => 1,
        _ => 0,
    };
    let rest = behind(text, gap);
    let word = word_from(rest, 0);
    match rest {
        _ if is_unit(word, is_metres) => word.len().saturating_add(gap),
        [0xC2, 0xB0, ..] if !is_metres => gap.saturating_add(2),
        _ => 0,
    }
}

// Whether an `x` behind a word is a sign.
fn is_multiplied(word: &[u8]) -> bool {
    is_one_of(word, &COORDINATE_LETTERS)
        || is_one_of(word, &COORDS)
        || is_axis(word)
        || is_one_of(word, &EASTS)
        || is_one_of(word, &NORTHS)
        || is_one_of(word, &METRES)
        || is_one_of(word, &DEGREES)
}

// Whether an `x` behind this start of a title is a sign, before a number of so many digits, which stands right behind it or not.
fn is_times(start: &[u8], digits: usize, is_joined: bool) -> bool {
    let is_bracket = matches!(sign_before(start), Some((b'(' | b'[' | b'{', _)));
    is_bracket || is_joined && digits >= 3 || is_multiplied(word_before(start, start.len()))
}

// How long the sign of multiplication or division at the end of a text is, before a number of so many digits that stands right
// behind it or not; 0 where there is none.
fn sign_length(text: &[u8], digits: usize, is_joined: bool) -> usize {
    match text {
        [.., digit, b'/'] if digit.is_ascii_digit() => 0,
        [.., b'*' | b'/'] => 1,
        [.., 0xC2, 0xB7] | [.., 0xC3, 0x97] => 2,
        [start @ .., b'x' | b'X']
            if begins_at(text, start.len()) && is_times(start, digits, is_joined) => 1,
        _ => 0,
    }
}

// How long the sign before a number of so many digits is, with what may stand between; 0 where there is none.
fn times_length(before: &[u8], digits: usize) -> usize {
    match before {
        [start @ .., gap] if is_gap(*gap) => match sign_length(start, digits, false) {
            0 => 0,
            length => length.saturating_add(1),
        },
        _ => sign_length(before, digits, true),
    }
}

// Whether a number stands alone between brackets.
fn is_in_brackets(before: &[u8], rest: &[u8]) -> bool {
    match (sign_before(before), sign_at(rest)) {
        (Some((b'(' | b'[' | b'{', _)), Some((b')' | b']' | b'}', _))) => true,
        _ => false,
    }
}

// How long what says a multiple is from the number on at the start of a text, which stands behind a start of its title; 0 where
// that says none.
fn length_behind(before: &[u8], text: &[u8], number: &[u8], is_metres: bool) -> usize {
    let rest = behind(text, number.len());
    let is_power = is_multiple(number) || number == b"1".as_slice();
    let exponent = exponent_length(rest);
    if is_power && exponent > 0 {
        return number.len().saturating_add(exponent);
    }
    if !is_multiple(number) && !is_part(number) {
        return 0;
    }
    let is_of_system = is_one_of(word_before(before, before.len()), &NUMBERED_SYSTEMS);
    match unit_length(rest, is_metres) {
        0 if is_in_brackets(before, rest) => number.len(),
        0 => 0,
        _ if is_of_system => 0,
        unit => number.len().saturating_add(unit),
    }
}

// What a title says of a multiple at a place.
fn multiple_at(title: &[u8], place: usize, is_metres: bool) -> Option<&[u8]> {
    let (before, text) = title.split_at_checked(place)?;
    if !begins_at(title, place) || is_within_number(before) {
        return None;
    }
    let number = number_at(text);
    let length = length_behind(before, text, number, is_metres);
    if length > 0 {
        return Some(start_of(text, length));
    }
    let is_one = is_multiple(number) || is_part(number);
    let sign = times_length(before, number.len());
    if is_one && sign > 0 {
        return title.get(place.saturating_sub(sign)..place.saturating_add(number.len()));
    }
    None
}

// What a title says of a multiple or a part of its unit, which is metres or degrees.
pub(crate) fn multiple_said(title: &[u8], is_metres: bool) -> Option<&[u8]> {
    for place in 0..title.len() {
        let word = word_from(title, place);
        if is_one_of(word, &MULTIPLES) {
            return Some(word);
        }
        let said = multiple_at(title, place, is_metres);
        if said.is_some() {
            return said;
        }
    }
    None
}
