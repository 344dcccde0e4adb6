// Words of titles of columns that are read, and that are not known.

use crate::dictionary::{
    COORDINATE_LETTERS, COORDS, DATES, DAYS, DAYS_OF_YEARS, DEGREES, EASTINGS, EASTS, GEOGRAPHIC,
    HALVES, HOURS, JOINING, LATITUDES, LONGITUDES, METRES, MINUTES, MONTHS, NO_CLOCKS, NORTHINGS,
    NORTHS, NUMBERED_SYSTEMS, ODD_PARTS, OF_FIXES, OF_PLANES, SECONDS, SIGNED, SYSTEMS_AND_AXES,
    TIMES, WORDS_OF_UTC, YEARS,
};
use crate::halves::is_half_of_day;
use crate::lookup::is_usual;
use crate::usual::TIMES as USUAL_TIMES;
use crate::words::{behind, is_one_of, start_of, word_from};

// Whether a word says an axis or a side to which coordinates are counted.
fn is_of_axes(word: &[u8]) -> bool {
    is_one_of(word, &LONGITUDES)
        || is_one_of(word, &LATITUDES)
        || is_one_of(word, &EASTINGS)
        || is_one_of(word, &NORTHINGS)
        || is_one_of(word, &EASTS)
        || is_one_of(word, &NORTHS)
        || is_one_of(word, &SYSTEMS_AND_AXES)
}

// Whether a word is one beside which the name of an axis stands in one word, as in `xcoord`.
fn is_beside_axis(word: &[u8]) -> bool {
    is_one_of(word, &COORDS)
        || is_one_of(word, &NUMBERED_SYSTEMS)
        || is_one_of(word, &BESIDE_AXES)
        || word.len() > 1 && is_one_of(word, &DEGREES)
}

// Words that stand right before the name of an axis, or behind it, in one word.
const BESIDE_AXES: [&str; 9] = [
    "gps", "gnss", "wgs", "dec", "decimal", "pos", "position", "loc", "location",
];

// Whether a word is the name of an axis, also in a letter.
fn is_axis_or_letter(word: &[u8]) -> bool {
    is_of_axes(word) || is_one_of(word, &["x", "y", "e", "n"])
}

// Whether a word is the name of an axis with another one of a title of coordinates, as `utmx` and `declat` are.
fn is_glued(word: &[u8]) -> bool {
    for place in 1..word.len() {
        let (start, end) = (start_of(word, place), behind(word, place));
        let is_first = is_axis_or_letter(start) && is_beside_axis(end);
        if is_first || is_beside_axis(start) && is_axis_or_letter(end) {
            return true;
        }
    }
    false
}

// Whether a word of the title of a coordinate is known.
fn is_of_coordinates(word: &[u8]) -> bool {
    is_of_axes(word)
        || is_one_of(word, &COORDS)
        || is_one_of(word, &COORDINATE_LETTERS)
        || is_one_of(word, &OF_PLANES)
        || is_one_of(word, &OF_FIXES)
        || is_one_of(word, &NUMBERED_SYSTEMS)
        || is_one_of(word, &GEOGRAPHIC)
        || is_one_of(word, &METRES)
        || is_one_of(word, &DEGREES)
        || is_one_of(word, &SIGNED)
        || is_glued(word)
}

// Whether a word is a part of a time.
fn is_part(word: &[u8]) -> bool {
    is_one_of(word, &YEARS)
        || is_one_of(word, &MONTHS)
        || is_one_of(word, &DAYS)
        || is_one_of(word, &DAYS_OF_YEARS)
        || is_one_of(word, &ODD_PARTS)
        || is_one_of(word, &HOURS)
        || is_one_of(word, &MINUTES)
        || is_one_of(word, &SECONDS)
}

// Whether a word says that a time is one of fixes: not `loc`, which may be short for local.
fn is_of_fixes(word: &[u8]) -> bool {
    is_one_of(word, &OF_FIXES) && !is_one_of(word, &["loc"])
}

// Whether a word of the title of a time is known.
fn is_of_times(word: &[u8]) -> bool {
    is_one_of(word, &TIMES)
        || is_one_of(word, &DATES)
        || is_part(word)
        || is_one_of(word, &HALVES)
        || is_half_of_day(word)
        || is_of_fixes(word)
        || is_one_of(word, &NO_CLOCKS)
        || is_one_of(word, &WORDS_OF_UTC)
        || is_one_of(word, &OTHERS_OF_TIMES)
        || is_one_of(word, &JOINING)
        || is_glued_time(word)
}

// Words and letters of titles of times.
const OTHERS_OF_TIMES: [&str; 7] = ["utc", "gmt", "t", "s", "h", "stamp", "moment"];

// Words that stand right before one for the time, or behind it, in one word.
const BESIDE_TIMES: [&str; 10] = [
    "gps", "gnss", "utc", "gmt", "fix", "date", "datum", "stamp", "collar", "acq",
];

// Whether a word is one for the time with another one of a title of times, as `gpstime` and `datumzeit` are.
fn is_glued_time(word: &[u8]) -> bool {
    for place in 1..word.len() {
        let (start, end) = (start_of(word, place), behind(word, place));
        let is_time = is_one_of(end, &TIMES) || is_one_of(end, &DATES);
        let is_first = is_one_of(start, &TIMES) && is_one_of(end, &BESIDE_TIMES);
        if is_first || is_time && is_one_of(start, &BESIDE_TIMES) {
            return true;
        }
    }
    false
}

// Whether a word is a number, or one of several letters that joins others.
fn is_plain(word: &[u8]) -> bool {
    word.iter().all(u8::is_ascii_digit) || word.len() > 1 && is_one_of(word, &JOINING)
}

/// What is read of a column.
#[derive(Clone, Copy, PartialEq, Eq, Debug)]
pub enum Subject {
    Coordinates,
    Times,
}

/// The first word of the title of a column that is not known of what is read there; none where all are, or the title is a usual one.
pub fn unknown_word(title: &[u8], subject: Subject) -> Option<&[u8]> {
    if subject == Subject::Times && is_usual(title, &USUAL_TIMES) {
        return None;
    }
    for place in 0..title.len() {
        let word = word_from(title, place);
        let is_known = match subject {
            Subject::Coordinates => is_plain(word) || is_of_coordinates(word),
            Subject::Times => is_plain(word) || is_of_times(word),
        };
        if !is_known {
            return Some(word);
        }
    }
    None
}
