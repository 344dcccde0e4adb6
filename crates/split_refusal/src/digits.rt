// Digits, and numbers of seconds.

use range_numbers::value_of;

// Whether a text is one digit or more, and nothing else.
pub(crate) fn are_digits(text: &[u8]) -> bool {
    value_of(text, 0).is_some()
}

// Whether a text is digits, with a minus before them or not, and with at most one point among them.
pub(crate) fn is_number(text: &[u8]) -> bool {
    let digits = text.strip_prefix(b"-").unwrap_or(text);
    let points = digits.iter().filter(|byte| **byte == b'.').count();
    let are_all = digits
        .iter()
        .all(|byte| byte.is_ascii_digit() || *byte == b'.');
    points <= 1 && are_all && digits.len() > points
}
