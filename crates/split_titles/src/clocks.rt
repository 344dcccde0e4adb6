// What titles say of the clock of their times.

use crate::clock_words::{clock_word, is_official};
use crate::dictionary::{ACCENTED_CLOCKS, CLOCK_ABBREVIATIONS, NAMELESS, WORDS_OF_UTC};
use crate::signs::{sign_at, sign_before};
use crate::words::{begins_at, behind, is_one_of, start_of, word_from};

// What names of zones begin with, before a `/`.
const AREAS: [&str; 16] = [
    "Africa",
    "America",
    "Antarctica",
    "Arctic",
    "Asia",
    "Atlantic",
    "Australia",
    "Brazil",
    "Canada",
    "Chile",
    ETC,
    "Europe",
    "Indian",
    "Mexico",
    "Pacific",
    "US",
];

// The area of zones that are no places, such as `Etc/GMT-3`.
const ETC: &str = "Etc";

// Names of UTC, before which `Etc/` may stand.
const ZONES_OF_UTC: [&str; 9] = [
    "UTC",
    "GMT",
    "UCT",
    "Zulu",
    "Universal",
    "Greenwich",
    "GMT0",
    "GMT+0",
    "GMT-0",
];

// What a title says of a clock.
#[derive(Clone, Copy, PartialEq, Eq, Debug)]
pub(crate) enum ClockSaid<'t> {
    Nothing,
    // That of UTC, by this word.
    Utc(&'t [u8]),
    // Another one, by this word.
    Local(&'t [u8]),
}

// Whether a byte stands between words of a title and before an offset.
fn parts_words(byte: u8) -> bool {
    match byte {
        b' '
        | b'\t'
        | b'_'
        | b'.'
        | b'/'
        | b'-'
        | b':'
        | b','
        | b';'
        | b'('
        | b')'
        | b'['
        | b']'
        | b'{'
        | b'}' => true,
        _ => false,
    }
}

// The length of the word at the start of a text.
fn word_length(text: &[u8]) -> usize {
    text.iter()
        .position(|byte| parts_words(*byte))
        .unwrap_or(text.len())
}

// Whether the digits of an offset go on at the start of a text: by a digit, a colon, or a point before a digit.
fn is_of_digits(text: &[u8]) -> bool {
    match text {
        [b'.', next, ..] => next.is_ascii_digit(),
        [byte, ..] => byte.is_ascii_digit() || *byte == b':',
        [] => false,
    }
}

// The length of the digits of an offset at the start of a text.
fn digits_length(text: &[u8]) -> usize {
    for place in 0..text.len() {
        if !is_of_digits(behind(text, place)) {
            return place;
        }
    }
    text.len()
}

// How long a sign and the digits behind it are, as in `+2` or `-05:30`; 0 where there are none, or only zeros.
fn offset_length(text: &[u8]) -> usize {
    let Some((b'+' | b'-', length)) = sign_at(text) else {
        return 0;
    };
    let rest = behind(text, length);
    let digits = start_of(rest, digits_length(rest));
    if digits.iter().any(|byte| (b'1'..=b'9').contains(byte)) {
        digits.len().saturating_add(length)
    } else {
        0
    }
}

// Whether these are the digits of an hour of an offset, which are at most 14.
fn is_hour(tens: u8, ones: u8) -> bool {
    match (tens, ones) {
        (b'0', b'0'..=b'9') | (b'1', b'0'..=b'4') => true,
        _ => false,
    }
}

// Whether these are the digits of a minute.
fn is_minute(tens: u8, ones: u8) -> bool {
    (b'0'..=b'5').contains(&tens) && ones.is_ascii_digit()
}

// Whether digits are those of an offset, as `3`, `03`, `3.5`, `3.30`, `3:30`, `03:30` and `0330`.
fn is_offset(digits: &[u8]) -> bool {
    match digits {
        [hour, b'.', b'0' | b'3', b'0'] | [hour, b'.', b'4', b'5'] => is_hour(b'0', *hour),
        [tens, hour, b'.', b'0' | b'3', b'0'] | [tens, hour, b'.', b'4', b'5'] => {
            is_hour(*tens, *hour)
        }
        [hour] | [hour, b'.', b'0' | b'5'] | [hour, b'.', b'7', b'5'] => is_hour(b'0', *hour),
        [tens, hour] | [tens, hour, b'.', b'0' | b'5'] | [tens, hour, b'.', b'7', b'5'] => {
            is_hour(*tens, *hour)
        }
        [hour, b':', ten, minute] => is_hour(b'0', *hour) && is_minute(*ten, *minute),
        [tens, hour, b':', ten, minute] | [tens, hour, ten, minute] => {
            is_hour(*tens, *hour) && is_minute(*ten, *minute)
        }
        _ => false,
    }
}

// Whether an offset may begin with this sign behind a byte of a title: a minus, which also joins words and parts of days,
// behind a bracket that opens, or before hours and minutes; and a plus behind a letter before these.
fn may_begin(before: u8, sign: u8, digits: &[u8]) -> bool {
    match (before, sign) {
        (b'(' | b'[' | b'{', b'+' | b'-') | (b' ' | b'\t' | b'_' | b')' | b']' | b'}', b'+') =>
            true,
        (b' ' | b'\t' | b')' | b']' | b'}', b'-') | (b'a'..=b'z' | b'A'..=b'Z', b'+') => {
            digits.contains(&b':')
        }
        _ => false,
    }
}

// Whether an offset may end before the start of a text, or before an `h` there.
fn may_end(text: &[u8]) -> bool {
    match sign_at(text.strip_prefix(b"h").unwrap_or(text)) {
        None | Some((b' ' | b'\t' | b')' | b']' | b'}' | b',' | b';', _)) => true,
        _ => false,
    }
}

// Whether a letter between brackets is that of UTC.
fn is_zulu(before: u8, letter: u8, behind: &[u8]) -> bool {
    match (before, letter, sign_at(behind)) {
        (b'(' | b'[' | b'{', b'Z' | b'z', Some((b')' | b']' | b'}', _))) => true,
        _ => false,
    }
}

// What an offset without `UTC` at the start of a text says, which stands behind a byte of its title.
fn offset_at(before: u8, text: &[u8]) -> ClockSaid<'_> {
    let Some((sign, length)) = sign_at(text) else {
        return ClockSaid::Nothing;
    };
    let rest = behind(text, length);
    if is_zulu(before, sign, rest) {
        return ClockSaid::Utc(start_of(text, length));
    }
    let digits = start_of(rest, digits_length(rest));
    let is_one = is_offset(digits)
        && may_begin(before, sign, digits)
        && may_end(behind(rest, digits.len()));
    let word = start_of(text, digits.len().saturating_add(length));
    match offset_length(text) {
        _ if !is_one => ClockSaid::Nothing,
        0 => ClockSaid::Utc(word),
        _ => ClockSaid::Local(word),
    }
}

// Whether the name of a zone goes on at the start of a text: by a letter, or by a sign before one, and a digit may be one, as
// in `Etc/GMT-3`. Behind `_` that is a great letter, or one of `of` and `es`, as in `Port_of_Spain`.
fn is_of_name(text: &[u8], has_digits: bool) -> bool {
    let is_one = |byte: u8| byte.is_ascii_alphabetic() || has_digits && byte.is_ascii_digit();
    match text {
        [b'_', next, ..] => {
            next.is_ascii_uppercase() || text.starts_with(b"_of_") || text.starts_with(b"_es_")
        }
        [b'/' | b'-' | b'+', next, ..] => is_one(*next),
        [byte, ..] => is_one(*byte),
        [] => false,
    }
}

// The length of the name of a zone at the start of a text.
fn name_length(text: &[u8], has_digits: bool) -> usize {
    for place in 0..text.len() {
        if !is_of_name(behind(text, place), has_digits) {
            return place;
        }
    }
    text.len()
}

// The length of the name of a zone of no place, with an offset whose sign is none of ASCII, as in `Etc/GMT−3`; the name is so long
// without it.
fn length_with_offset(text: &[u8], length: usize) -> usize {
    let rest = behind(text, length);
    match (sign_at(rest), offset_length(rest)) {
        (Some((_, 1)) | None, _) => length,
        (_, offset) => length.saturating_add(offset),
    }
}

// The name of a zone with its area, at the start of a text.
fn region_at(text: &[u8]) -> Option<&[u8]> {
    let area = start_of(text, word_length(text));
    let is_area = AREAS
        .iter()
        .any(|own| area.eq_ignore_ascii_case(own.as_bytes()));
    match behind(text, area.len()) {
        [b'/', first, ..] if is_area && first.is_ascii_alphabetic() => {
            let has_digits = area.eq_ignore_ascii_case(ETC.as_bytes());
            let length = name_length(text, has_digits);
            Some(start_of(text, length_with_offset(text, length)))
        }
        _ => None,
    }
}

// What follows `UTC` or `GMT` at the start of a text, if that is a word.
fn behind_utc(text: &[u8]) -> Option<&[u8]> {
    if is_one_of(word_from(text, 0), &["utc", "gmt"]) {
        Some(behind(text, 3))
    } else {
        None
    }
}

// Whether a word is the abbreviation of a clock, also one that has to have its accents.
fn is_abbreviation(word: &[u8]) -> bool {
    let is_accented = !word.is_ascii() && is_one_of(word, &ACCENTED_CLOCKS);
    is_accented || is_one_of(word, &CLOCK_ABBREVIATIONS)
}

// What the word at the start of a text says, which is not the name of UTC.
fn local_at(text: &[u8]) -> ClockSaid<'_> {
    let word = word_from(text, 0);
    if is_one_of(word, &NAMELESS) || is_abbreviation(word) {
        ClockSaid::Local(word)
    } else if is_one_of(word, &WORDS_OF_UTC) {
        ClockSaid::Utc(word)
    } else {
        ClockSaid::Nothing
    }
}

// Whether a byte is a blank, or stands in its place.
fn is_gap(byte: u8) -> bool {
    byte == b' ' || byte == b'_' || byte == b'.'
}

// A text without the blanks, and the signs in their place, at its start.
fn without_gaps(text: &[u8]) -> &[u8] {
    let mut rest = text;
    for _ in 0..text.len() {
        rest = match sign_at(rest) {
            Some((sign, length)) if is_gap(sign) => behind(rest, length),
            _ => return rest,
        };
    }
    rest
}

// Whether what a text begins with is a sign, or a word for one: whether it is ahead of UTC, and what follows.
fn behind_sign(text: &[u8]) -> Option<(bool, &[u8])> {
    match sign_at(text) {
        Some((b'+', length)) => Some((true, behind(text, length))),
        Some((b'-', length)) => Some((false, behind(text, length))),
        _ if start_of(text, 4).eq_ignore_ascii_case(b"plus") => Some((true, behind(text, 4))),
        _ if start_of(text, 5).eq_ignore_ascii_case(b"minus") => Some((false, behind(text, 5))),
        _ => None,
    }
}

// Whether an offset may end before the start of a text that R or a person wrote, who have signs in the place of brackets.
fn may_end_before(text: &[u8]) -> bool {
    match sign_at(text) {
        Some((sign, _)) if is_gap(sign) => true,
        _ => may_end(text),
    }
}

// How long an offset with gaps or a word for its sign is behind `UTC`, as in ` + 2` and `_plus_2`, or one whose sign is lost, as
// R writes `.2.` for `+2)`; 0 where there is none.
fn spelled_length(text: &[u8]) -> usize {
    let rest = without_gaps(text);
    let rest = match behind_sign(rest) {
        Some((_, behind)) => without_gaps(behind),
        None => rest,
    };
    let digits = start_of(rest, digits_length(rest));
    let tail = behind(rest, digits.len());
    let is_one = is_offset(digits) && may_end_before(tail);
    if is_one && digits.iter().any(|byte| (b'1'..=b'9').contains(byte)) {
        text.len().saturating_sub(tail.len())
    } else {
        0
    }
}

// What the name of a zone says.
fn said_by(zone: &[u8]) -> ClockSaid<'_> {
    if is_of_utc(zone) {
        ClockSaid::Utc(zone)
    } else {
        ClockSaid::Local(zone)
    }
}

// What the word at the start of a text says.
fn word_at(text: &[u8]) -> ClockSaid<'_> {
    if let Some(region) = region_at(text) {
        return said_by(region);
    }
    let Some(rest) = behind_utc(text) else {
        return local_at(text);
    };
    let blanks = rest.iter().take_while(|byte| **byte == b' ').count();
    match offset_length(behind(rest, blanks)) {
        0 => match spelled_length(rest) {
            0 => ClockSaid::Utc(start_of(text, 3)),
            length => ClockSaid::Local(start_of(text, length.saturating_add(3))),
        },
        length => {
            let whole = length.saturating_add(blanks).saturating_add(3);
            ClockSaid::Local(start_of(text, whole))
        }
    }
}

// Whether an offset may stand behind a byte of a title.
fn may_stand_behind(byte: u8) -> bool {
    parts_words(byte) || byte.is_ascii_alphabetic()
}

// What stands at a place of a title says, if a word or an offset begins there.
fn said_at(title: &[u8], place: usize) -> ClockSaid<'_> {
    let text = behind(title, place);
    let word = if begins_at(title, place) {
        word_at(text)
    } else {
        ClockSaid::Nothing
    };
    match sign_before(start_of(title, place)) {
        Some((before, _)) if word == ClockSaid::Nothing && may_stand_behind(before) => {
            offset_at(before, text)
        }
        _ => word,
    }
}

// Whether a word that says another clock than that of UTC tells its zone too.
fn tells_zone(word: &[u8]) -> bool {
    is_zone(word) || whole_hours(word).is_some()
}

// The length of the word that says a clock; 0 where none does.
fn length_of(said: ClockSaid<'_>) -> usize {
    match said {
        ClockSaid::Nothing => 0,
        ClockSaid::Utc(word) | ClockSaid::Local(word) => word.len(),
    }
}

// What a title says of the clock of its times by names and offsets: by the first word that says another one than that of UTC, of several by the
// first that tells its zone; or else by the first that says that of UTC.
fn name_said(title: &[u8]) -> ClockSaid<'_> {
    let mut said = ClockSaid::Nothing;
    let mut end: usize = 0;
    for place in 0..title.len() {
        let own = if place < end {
            ClockSaid::Nothing
        } else {
            said_at(title, place)
        };
        end = end.max(place.saturating_add(length_of(own)));
        match (said, own) {
            (_, ClockSaid::Local(word)) if tells_zone(word) => return ClockSaid::Local(word),
            (ClockSaid::Local(_), _) | (_, ClockSaid::Nothing) => {}
            (_, ClockSaid::Local(word)) => said = ClockSaid::Local(word),
            (ClockSaid::Nothing, ClockSaid::Utc(word)) => said = ClockSaid::Utc(word),
            (ClockSaid::Utc(_), ClockSaid::Utc(_)) => {}
        }
    }
    said
}

// Whether a title says no clock by names and offsets, so that its words may mean something else too.
pub(crate) fn is_loose(title: &[u8]) -> bool {
    name_said(title) == ClockSaid::Nothing
}

// What a title says of the clock of its times: by names and offsets, or else by words that say one of a season or a place.
pub(crate) fn clock_said(title: &[u8]) -> ClockSaid<'_> {
    match (name_said(title), clock_word(title)) {
        (ClockSaid::Nothing, Some(word)) => ClockSaid::Local(word),
        (said, _) => said,
    }
}

// The name of a zone without `Etc/` before it.
fn without_etc(zone: &[u8]) -> &[u8] {
    match zone.split_at_checked(4) {
        Some((start, rest)) if start.eq_ignore_ascii_case(b"Etc/") => rest,
        _ => zone,
    }
}

// The digits of an offset behind the name of UTC, or of one alone, and whether it is ahead of UTC, if its sign is there.
pub(crate) fn offset_of(word: &[u8]) -> Option<(Option<bool>, &[u8])> {
    let rest = match behind_utc(word) {
        Some(rest) => without_gaps(rest),
        None => word,
    };
    let (is_ahead, digits) = match behind_sign(rest) {
        Some((is_ahead, digits)) => (Some(is_ahead), without_gaps(digits)),
        None if rest.len() < word.len() => (None, rest),
        None => return None,
    };
    if is_offset(digits) {
        Some((is_ahead, digits))
    } else {
        None
    }
}

// Whether a word says an offset from UTC.
pub(crate) fn is_of_offset(word: &[u8]) -> bool {
    offset_of(word).is_some()
}

// Whether an offset, ahead of UTC or behind it as far as that is known, is another one than that of a zone, as far as the name of
// that tells.
fn is_other_offset(is_ahead: Option<bool>, digits: &[u8], zone: &[u8]) -> bool {
    if is_of_utc(zone) {
        return true;
    }
    let own = without_etc(zone);
    match offset_of(own) {
        Some((Some(is_behind), hours)) if own.len() < zone.len() => {
            hours_of(digits) != hours_of(hours) || is_ahead == Some(is_behind)
        }
        _ => false,
    }
}

// Whether a word of a title says another clock than that of a zone, as far as both tell theirs.
pub(crate) fn is_other_clock(word: &[u8], zone: &[u8]) -> bool {
    if is_zone(word) {
        return !word.eq_ignore_ascii_case(zone);
    }
    match offset_of(word) {
        Some((is_ahead, digits)) => is_other_offset(is_ahead, digits, zone),
        None => is_of_utc(zone) && !is_one_of(word, &NAMELESS) && !is_official(word),
    }
}

// Whether the name of a zone is one of UTC.
pub(crate) fn is_of_utc(zone: &[u8]) -> bool {
    let name = without_etc(zone);
    ZONES_OF_UTC
        .iter()
        .any(|own| name.eq_ignore_ascii_case(own.as_bytes()))
}

// Whether a word of a title is the name of a zone, with its area as it is written in such names.
pub(crate) fn is_zone(word: &[u8]) -> bool {
    let is_of_area = AREAS.iter().any(|own| word.starts_with(own.as_bytes()));
    is_of_area && word.contains(&b'/') && word.is_ascii()
}

// The hours of an offset, without a 0 before them and minutes of `00` behind them; or all of its digits, where it has other
// minutes.
fn hours_of(digits: &[u8]) -> &[u8] {
    let hours = match digits {
        [_, b':' | b'.', b'0', b'0'] | [_, b'.', b'0'] => start_of(digits, 1),
        [_, _, b':' | b'.', b'0', b'0'] | [_, _, b'0', b'0'] | [_, _, b'.', b'0'] => {
            start_of(digits, 2)
        }
        _ => digits,
    };
    hours.strip_prefix(b"0").unwrap_or(hours)
}

// The hours of an offset that is of whole hours, and whether it is ahead of UTC.
pub(crate) fn whole_hours(word: &[u8]) -> Option<(bool, &[u8])> {
    let (Some(is_ahead), digits) = offset_of(word)? else {
        return None;
    };
    let hours = hours_of(digits);
    match hours {
        [b'1'..=b'9'] | [b'1', b'0'..=b'2'] => Some((is_ahead, hours)),
        [b'1', b'3' | b'4'] if is_ahead => Some((is_ahead, hours)),
        _ => None,
    }
}
