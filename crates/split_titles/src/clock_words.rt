// Words by which titles of times say a clock that is no UTC, as seasons, parts of the world and places do.

use crate::brackets::lone_word;
use crate::dictionary::{
    DATES, DAYS, DAYS_OF_YEARS, HALVES, HOURS, MINUTES, MONTHS, NO_CLOCKS, ODD_PARTS, OFFICIAL,
    PARTS_OF_THE_WORLD, PLACE_CLOCKS, SEASON_CLOCKS, SECONDS, SUMMER_CLOCKS, SUMMERS, TIMES,
    WINTERS, WORDS_OF_UTC, YEARS, ZONE_LETTERS,
};
use crate::words::{behind, has_word, is_one_of, is_one_word, next_word, word_from};

// The word for the clock of a zone, right before one for the time.
const STANDARD: &str = "standard";

// Whether a byte is a letter of forms such as `YYYYMMDD`, `TTMMJJ` and `hhmmss`.
fn is_of_form(letter: u8) -> bool {
    matches!(
        letter.to_ascii_lowercase(),
        b'y' | b'm' | b'd' | b'h' | b's' | b'j' | b't' | b'a' | b'g'
    )
}

// Whether a letter stands beside its like at a place of a word.
fn is_doubled(word: &[u8], place: usize) -> bool {
    match behind(word, place.saturating_sub(1)) {
        [one, two, three, ..] if place > 0 => {
            two.eq_ignore_ascii_case(one) || two.eq_ignore_ascii_case(three)
        }
        [one, two, ..] => one.eq_ignore_ascii_case(two),
        _ => false,
    }
}

// Whether each letter of a word stands beside its like.
fn are_doubled(word: &[u8]) -> bool {
    for place in 0..word.len() {
        if !is_doubled(word, place) {
            return false;
        }
    }
    true
}

// Whether a word is the form of a day or of a clock: of letters that stand beside their like, or of one letter.
fn is_form(word: &[u8]) -> bool {
    let are_of_form = word.iter().all(|letter| is_of_form(*letter));
    are_of_form && (word.len() == 1 || are_doubled(word))
}

/// Whether a title has a word for the time.
pub(crate) fn has_time(title: &[u8]) -> bool {
    has_word(title, &TIMES) || has_word(title, &HOURS)
}

// Whether a word is one for the time, or for a part of a day or of a date.
fn is_of_time(word: &[u8]) -> bool {
    is_one_of(word, &TIMES)
        || is_one_of(word, &DATES)
        || is_one_of(word, &YEARS)
        || is_one_of(word, &MONTHS)
        || is_one_of(word, &DAYS)
        || is_one_of(word, &DAYS_OF_YEARS)
        || is_one_of(word, &ODD_PARTS)
        || is_one_of(word, &HOURS)
        || is_one_of(word, &MINUTES)
        || is_one_of(word, &SECONDS)
        || is_one_of(word, &HALVES)
}

// Whether a word alone between brackets is known to say no clock other than that of UTC.
fn is_known(word: &[u8]) -> bool {
    is_of_time(word) || is_one_of(word, &WORDS_OF_UTC) || is_one_of(word, &NO_CLOCKS)
}

// The word that stands alone between brackets at the end of the title of a time, if it is none that is known to say no clock.
pub(crate) fn unknown_place(title: &[u8]) -> Option<&[u8]> {
    match lone_word(title) {
        Some(word) if !is_known(word) && !is_form(word) => Some(word),
        _ => None,
    }
}

// Whether a word is that of the clock of a land.
pub(crate) fn is_official(word: &[u8]) -> bool {
    is_one_of(word, &OFFICIAL)
}

// Whether a word is that of a clock, with the time in it.
fn is_compound(word: &[u8]) -> bool {
    is_one_of(word, &SEASON_CLOCKS)
        || is_one_of(word, &SUMMER_CLOCKS)
        || is_one_of(word, &PLACE_CLOCKS)
}

// Whether a word is that of a season or of the sun.
fn is_season(word: &[u8]) -> bool {
    is_one_of(word, &SUMMERS) || is_one_of(word, &WINTERS)
}

// Whether a word is that of a zone of North America, in great letters.
fn is_zone_letters(word: &[u8]) -> bool {
    ZONE_LETTERS.iter().any(|own| word == own.as_bytes())
}

// Whether a word says a clock before the rest of its title, which has a word for the time, or one for the time or the day, or is this
// word alone.
fn says_clock(word: &[u8], rest: &[u8], has_time: bool, may_be_place: bool) -> bool {
    let is_standard = word.eq_ignore_ascii_case(STANDARD.as_bytes());
    let next = next_word(rest, 0);
    is_compound(word)
        || has_time && (is_season(word) || is_official(word))
        || has_time && next.is_empty() && is_zone_letters(word)
        || may_be_place && is_one_of(word, &PARTS_OF_THE_WORLD)
        || is_standard && (is_one_of(next, &TIMES) || is_one_of(next, &HOURS))
}

// The word by which a title of times says a clock that is no UTC.
pub(crate) fn clock_word(title: &[u8]) -> Option<&[u8]> {
    let has_time = has_time(title);
    let has_day = has_word(title, &DATES) || has_word(title, &DAYS) || has_word(title, &ODD_PARTS);
    let may_be_place = has_time || has_day || is_one_word(title);
    for place in 0..title.len() {
        let word = word_from(title, place);
        let rest = behind(title, place.saturating_add(word.len()));
        if says_clock(word, rest, has_time, may_be_place) {
            return Some(word);
        }
    }
    unknown_place(title)
}
