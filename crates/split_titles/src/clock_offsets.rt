// How far the clock that a title or a form says is ahead of UTC.

use crate::clocks::{ClockSaid, clock_said, offset_of};
use crate::words::{behind, is_one_of, start_of};

// Abbreviations of clocks, and the minutes by which they are ahead of UTC. One that stands for several clocks is not here.
const ABBREVIATIONS: [(&str, i64); 34] = [
    ("WET", 0),
    ("WEST", 60),
    ("CET", 60),
    ("MEZ", 60),
    ("CEST", 120),
    ("MESZ", 120),
    ("EET", 120),
    ("EEST", 180),
    ("MSK", 180),
    ("SAST", 120),
    ("EAT", 180),
    ("WAT", 60),
    ("CAT", 120),
    ("JST", 540),
    ("KST", 540),
    ("AWST", 480),
    ("ACST", 570),
    ("ACDT", 630),
    ("AEST", 600),
    ("AEDT", 660),
    ("NZST", 720),
    ("NZDT", 780),
    ("BRT", -180),
    ("ART", -180),
    ("EST", -300),
    ("EDT", -240),
    ("CDT", -300),
    ("MST", -420),
    ("MDT", -360),
    ("PST", -480),
    ("PDT", -420),
    ("AKST", -540),
    ("AKDT", -480),
    ("HST", -600),
];

/// How far a clock is said to be ahead of UTC.
#[derive(Clone, Copy, PartialEq, Eq, Debug)]
pub struct SaidOffset {
    /// Minutes, below 0 for one that is behind UTC.
    pub minutes: i64,
    /// Whether it is said by a number, and not by an abbreviation, which people also have for the clock of a place in all seasons.
    pub is_number: bool,
}

// The number that one or two digits are.
fn number_of(digits: &[u8]) -> Option<i64> {
    match digits {
        [ones @ b'0'..=b'9'] => Some(i64::from(*ones) - 48),
        [tens @ b'0'..=b'9', ones @ b'0'..=b'9'] => {
            Some((i64::from(*tens) - 48) * 10 + i64::from(*ones) - 48)
        }
        _ => None,
    }
}

// The minutes that digits behind hours are: of `:30`, `30`, `.30` and of decimals such as `.5`.
fn minutes_behind(digits: &[u8]) -> Option<i64> {
    match digits {
        [] | [b'.', b'0'] => Some(0),
        [b'.', b'5'] => Some(30),
        [b'.', b'7', b'5'] => Some(45),
        [b':' | b'.', tens, ones] | [tens, ones] => number_of(&[*tens, *ones]),
        _ => None,
    }
}

// How many digits of an offset are its hours.
fn hours_length(digits: &[u8]) -> usize {
    let length = digits.iter().position(|byte| !byte.is_ascii_digit());
    length.unwrap_or(digits.len()).min(2)
}

// The minutes of the digits of an offset.
fn minutes_of(digits: &[u8]) -> Option<i64> {
    let length = hours_length(digits);
    let hours = number_of(start_of(digits, length))?;
    let minutes = minutes_behind(behind(digits, length))?;
    Some(hours.saturating_mul(60).saturating_add(minutes))
}

// The offset of an abbreviation.
fn abbreviated(word: &[u8]) -> Option<SaidOffset> {
    for (own, minutes) in ABBREVIATIONS {
        if is_one_of(word, &[own]) {
            return Some(SaidOffset {
                minutes,
                is_number: false,
            });
        }
    }
    None
}

// The offset that a word says.
fn said_by(word: &[u8]) -> Option<SaidOffset> {
    match offset_of(word) {
        Some((Some(is_ahead), digits)) => {
            let minutes = minutes_of(digits)?;
            Some(SaidOffset {
                minutes: if is_ahead {
                    minutes
                } else {
                    0_i64.saturating_sub(minutes)
                },
                is_number: true,
            })
        }
        Some(_) => None,
        None => abbreviated(word),
    }
}

/// How far the clock that a title or a form says is ahead of UTC; none where it says no other clock than that of UTC, or one of which
/// that is not known.
pub fn offset_said(title: &[u8]) -> Option<SaidOffset> {
    match clock_said(title) {
        ClockSaid::Local(word) => said_by(word),
        _ => None,
    }
}
