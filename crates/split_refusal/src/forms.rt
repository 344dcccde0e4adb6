// The form of an ISO text, and blanks beside a text.

use crate::digits::are_digits;

// Whether a text is written as a form, in which 0 stands for any digit.
pub(crate) fn has_form(text: &[u8], form: &[u8]) -> bool {
    text.len() == form.len()
        && text.iter().zip(form).all(|(byte, sign)| {
            if *sign == b'0' {
                byte.is_ascii_digit()
            } else {
                byte == sign
            }
        })
}

// Whether nothing stands behind a second, or a point and digits.
fn are_decimals(part: &[u8]) -> bool {
    match part.split_first() {
        None => true,
        Some((first, digits)) => *first == b'.' && are_digits(digits),
    }
}

// Whether nothing stands behind a minute, or a second.
fn are_seconds(text: &[u8]) -> bool {
    if text.is_empty() {
        return true;
    }
    match text.split_at_checked(3) {
        Some((second, part)) => has_form(second, b":00") && are_decimals(part),
        None => false,
    }
}

// Whether nothing stands behind a clock, or an offset.
fn is_offset(text: &[u8]) -> bool {
    match text.split_first() {
        None => true,
        Some((b'Z', rest)) => rest.is_empty(),
        Some((_, digits)) => {
            has_form(digits, b"00") || has_form(digits, b"0000") || has_form(digits, b"00:00")
        }
    }
}

// Where an offset begins, or where a text ends.
fn offset_place(text: &[u8]) -> usize {
    text.iter()
        .position(|byte| *byte == b'Z' || *byte == b'+' || *byte == b'-')
        .unwrap_or(text.len())
}

// Whether nothing stands behind a day, or a clock.
fn is_clock(text: &[u8]) -> bool {
    if text.is_empty() {
        return true;
    }
    let Some((minute, rest)) = text.split_at_checked(6) else {
        return false;
    };
    let is_minute = has_form(minute, b" 00:00") || has_form(minute, b"T00:00");
    match rest.split_at_checked(offset_place(rest)) {
        Some((seconds, offset)) => is_minute && are_seconds(seconds) && is_offset(offset),
        None => false,
    }
}

// Whether a text begins with the form of a day of ISO, whatever its numbers are.
pub(crate) fn has_iso_day(text: &[u8]) -> bool {
    match text.split_at_checked(10) {
        Some((day, _)) => has_form(day, b"0000-00-00"),
        None => false,
    }
}

// Whether a text has the form of a time of ISO, whatever its numbers are.
pub(crate) fn has_iso_form(text: &[u8]) -> bool {
    match text.split_at_checked(10) {
        Some((day, clock)) => has_form(day, b"0000-00-00") && is_clock(clock),
        None => false,
    }
}

// The rest of a text from a place on.
fn from_place(text: &[u8], place: usize) -> &[u8] {
    match text.split_at_checked(place) {
        Some((_, rest)) => rest,
        None => b"",
    }
}

// A text up to a place.
fn up_to_place(text: &[u8], place: usize) -> &[u8] {
    match text.split_at_checked(place) {
        Some((start, _)) => start,
        None => text,
    }
}

// A text without the blanks beside it. Tabs stay.
pub(crate) fn without_blanks(text: &[u8]) -> &[u8] {
    let before = text.iter().position(|byte| *byte != b' ');
    let rest = from_place(text, before.unwrap_or(text.len()));
    let behind = rest.iter().rev().position(|byte| *byte != b' ');
    up_to_place(rest, rest.len().saturating_sub(behind.unwrap_or(0)))
}
