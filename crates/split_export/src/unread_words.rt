// What texts of columns that are not read look like.

// The most hours, minutes and seconds of an offset from UTC, and the minutes that all are multiples of.
const MOST_HOURS: u32 = 14;

const MOST_MINUTES: u32 = 840;

const MOST_SECONDS: u32 = 50_400;

const QUARTER: u32 = 15;

/// Whether a text begins with a digit.
pub(crate) fn is_numbered(text: &[u8]) -> bool {
    text.first().is_some_and(|byte| byte.is_ascii_digit())
}

/// Whether a text is a number other than 0, or begins as one.
pub(crate) fn is_place(text: &[u8]) -> bool {
    let number = text.strip_prefix(b"-").unwrap_or(text);
    is_numbered(number) && number.iter().any(|byte| (b'1'..=b'9').contains(byte))
}

// The number of a text of at most five digits.
fn number_of(text: &[u8]) -> Option<u32> {
    if text.is_empty() || text.len() > 5 || !text.iter().all(|byte| byte.is_ascii_digit()) {
        return None;
    }
    str::from_utf8(text).ok()?.parse::<u32>().ok()
}

// Whether a whole number is one of the hours, minutes or seconds of an offset.
fn is_of_offset(number: u32) -> bool {
    number <= MOST_HOURS
        || number <= MOST_MINUTES && number % QUARTER == 0
        || number <= MOST_SECONDS && number % (QUARTER * 60) == 0
}

// Whether a text is the size of an offset: a number of hours, minutes or seconds, hours and minutes, or hours with quarters.
fn is_size(text: &[u8]) -> bool {
    let text = text.strip_suffix(b"h").unwrap_or(text).trim_ascii();
    let place = text
        .iter()
        .position(|byte| matches!(*byte, b':' | b'.' | b','));
    let (whole, parts) = text.split_at(place.unwrap_or(text.len()));
    let are_parts = parts.len() <= 3 && parts.iter().skip(1).all(|byte| byte.is_ascii_digit());
    match number_of(whole) {
        Some(hours) if !parts.is_empty() => hours <= MOST_HOURS && are_parts,
        Some(number) => is_of_offset(number),
        None => false,
    }
}

// Whether a text is the size of an offset as hours and minutes without a colon, as in `+0200`.
fn is_plain_size(text: &[u8]) -> bool {
    match text {
        [b'0', b'0'..=b'9', b'0'..=b'5', b'0'..=b'9'] => true,
        [b'1', b'0'..=b'4', b'0'..=b'5', b'0'..=b'9'] => true,
        _ => is_size(text),
    }
}

// A text without the name of UTC before it.
fn without_utc(text: &[u8]) -> &[u8] {
    match text.split_at_checked(3) {
        Some((name, rest))
            if name.eq_ignore_ascii_case(b"utc") || name.eq_ignore_ascii_case(b"gmt") => rest,
        _ => text,
    }
}

// Whether a text is an offset from UTC.
fn is_offset(text: &[u8]) -> bool {
    match without_utc(text).trim_ascii() {
        [b'+' | b'-', size @ ..] => is_plain_size(size.trim_ascii()),
        size => is_size(size),
    }
}

// Whether a byte is a capital letter, or one of a letter that is none of ASCII.
fn is_of_capital(byte: u8) -> bool {
    byte.is_ascii_uppercase() || !byte.is_ascii()
}

// Whether a text is written as the name of a zone of time, as in `Europe/Vienna`, `CET` and `SELČ`.
fn is_zone_name(text: &[u8]) -> bool {
    let is_short = 3 <= text.len() && text.len() <= 6;
    let starts = text.first().is_some_and(|byte| byte.is_ascii_alphabetic());
    starts && text.contains(&b'/') || is_short && text.iter().all(|byte| is_of_capital(*byte))
}

/// Whether a text is an offset from UTC, or written as the name of a zone of time.
pub(crate) fn is_of_clock(text: &[u8]) -> bool {
    is_offset(text) || is_zone_name(text)
}

// The last digits of a text that stand side by side; empty where there are none.
fn last_digits(text: &[u8]) -> &[u8] {
    let mut last: &[u8] = b"";
    for digits in text.split(|byte| !byte.is_ascii_digit()) {
        if !digits.is_empty() {
            last = digits;
        }
    }
    last
}

/// Whether a text may be a zone of UTM, as `33`, `33N`, `UTM 33 N` and `WGS 84 / UTM zone 33N`, its letter alone, or the code of a
/// system, as `EPSG:32633`.
pub(crate) fn is_grid_zone(text: &[u8]) -> bool {
    let is_number = text.contains(&b'.') || text.contains(&b',') || text.starts_with(b"-");
    match (text, last_digits(text)) {
        ([letter], []) => letter.is_ascii_alphabetic(),
        (_, _) if is_number => false,
        (_, [b'1'..=b'9'] | [b'0'..=b'5', _] | [b'6', b'0']) => true,
        (_, [b'0', b'0'..=b'5', _] | [b'0', b'6', b'0']) => true,
        (_, [b'2' | b'3', _, _, _, _]) => true,
        _ => false,
    }
}

// Whether two digits are those of a minute or a second.
fn is_minute(tens: u8, ones: u8) -> bool {
    (b'0'..=b'5').contains(&tens) && ones.is_ascii_digit()
}

// Whether one digit or two are those of an hour.
fn is_hour(text: &[u8]) -> bool {
    match text {
        [b'2', ones] => (b'0'..=b'3').contains(ones),
        [b'0' | b'1', ones] => ones.is_ascii_digit(),
        [only] => only.is_ascii_digit(),
        _ => false,
    }
}

/// Whether a text is a clock in digits alone, as 930, 0930 and 93000, whose first zero may be lost.
pub(crate) fn is_clock_of_digits(text: &[u8]) -> bool {
    match text {
        [hour @ .., ten, minute] if hour.len() <= 2 => is_hour(hour) && is_minute(*ten, *minute),
        [hour @ .., ten, minute, tens, second] => {
            is_hour(hour) && is_minute(*ten, *minute) && is_minute(*tens, *second)
        }
        _ => false,
    }
}
