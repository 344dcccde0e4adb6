// The parts of a time, and what a word under a sign says of them.

ghost use Rattle.std.specs.Prelude.{◌≡◌, ◌<◌, ◌≤◌, ◌^◌, IfSome, length, drop};
ghost use Rattle.split_times.specs.Words.{HasPart, digits_ahead, few_digits, full_year, half_in, is_byte, month_in, nanosecond_in, no_parts, with_second, with_sign, with_word};

use crate::fields::{are_decimals, number_in};
use crate::iso::nanoseconds;
use crate::sign::{Piece, Sign};

// A half of the day.
#[derive(Clone, Copy, PartialEq, Eq, Debug)]
pub(crate) enum Half {
    Morning,
    Afternoon,
}

// What a text says of a time.
#[derive(Clone, Copy, PartialEq, Eq, Debug)]
pub(crate) struct TimeParts {
    pub year: u32,
    pub month: u32,
    pub day: u32,
    // The day of the year, where it is said in place of a month and a day.
    pub day_of_year: Option<u32>,
    pub hour: u32,
    // The half of the day, where the hour is one of it.
    pub half: Option<Half>,
    pub minute: u32,
    pub second: u32,
    // The nanoseconds; none where more than nine digits say the fraction of the second.
    pub nanosecond: Option<u32>,
}

// What nothing says of a time: what a form has no sign for is midnight.
pub(crate) fn no_parts() -> TimeParts
    ensures value { result ≡ no_parts }
    ensures within { HasPart result }
{
    TimeParts {
        year: 1970,
        month: 1,
        day: 1,
        day_of_year: None,
        hour: 0,
        half: None,
        minute: 0,
        second: 0,
        nanosecond: Some(0),
    }
}

// How many digits stand first in a text.
pub(crate) fn digits_ahead(text: &[u8]) -> usize
    ensures value { result ≡ digits_ahead text.now }
    ensures within { result ≤ length text.now }
{
    match text.iter().position(|byte| !byte.is_ascii_digit()) {
        Some(place) => place,
        None => text.len(),
    }
}

// The number of at least so many digits, and of at most so many; `None` where the word is other.
fn few_digits(least: usize, most: usize, word: &[u8]) -> Option<u32>
    requires { most ≤ 9 }
    ensures value { result ≡ few_digits least most word.now }
    ensures small { IfSome result (λ number. number < 10 ^ 9) }
{
    if least <= word.len() && word.len() <= most {
        number_in(word)
    } else {
        None
    }
}

// The year of two digits: those from 69 on are of 1969 to 1999.
fn full_year(short: u32) -> u32
    requires { short < 10 ^ 9 }
    ensures { result ≡ full_year short }
{
    if short < 69 {
        2000 + short
    } else {
        1900 + short
    }
}

// The month of a name of three letters, in any capitals.
fn month_in(word: &[u8]) -> Option<u32>
    ensures { result ≡ month_in word.now }
{
    if word.eq_ignore_ascii_case(b"jan") {
        Some(1)
    } else if word.eq_ignore_ascii_case(b"feb") {
        Some(2)
    } else if word.eq_ignore_ascii_case(b"mar") {
        Some(3)
    } else if word.eq_ignore_ascii_case(b"apr") {
        Some(4)
    } else if word.eq_ignore_ascii_case(b"may") {
        Some(5)
    } else if word.eq_ignore_ascii_case(b"jun") {
        Some(6)
    } else if word.eq_ignore_ascii_case(b"jul") {
        Some(7)
    } else if word.eq_ignore_ascii_case(b"aug") {
        Some(8)
    } else if word.eq_ignore_ascii_case(b"sep") {
        Some(9)
    } else if word.eq_ignore_ascii_case(b"oct") {
        Some(10)
    } else if word.eq_ignore_ascii_case(b"nov") {
        Some(11)
    } else if word.eq_ignore_ascii_case(b"dec") {
        Some(12)
    } else {
        None
    }
}

// The half of the day of `am` or `pm`, in any capitals.
fn half_in(word: &[u8]) -> Option<Half>
    ensures { result ≡ half_in word.now }
{
    if word.eq_ignore_ascii_case(b"am") {
        Some(Half::Morning)
    } else if word.eq_ignore_ascii_case(b"pm") {
        Some(Half::Afternoon)
    } else {
        None
    }
}

// The nanoseconds of a point and digits, or of nothing; `None` where more than nine digits stand there.
fn nanosecond_in(decimals: &[u8]) -> Option<u32>
    ensures value { result ≡ nanosecond_in decimals.now }
    ensures within { IfSome result (λ nanosecond. nanosecond < 10 ^ 9) }
{
    if decimals.is_empty() {
        Some(0)
    } else if decimals.len() <= 10 {
        Some(nanoseconds(&decimals[1..]))
    } else {
        None
    }
}

// The parts with the second of a word, which may have decimals.
#[tactic(auto, unfolding(crate::specs::Words::with_second))]
fn with_second(word: &[u8], parts: TimeParts) -> Option<TimeParts>
    requires { HasPart parts }
    ensures value { result ≡ with_second word.now parts }
    ensures within { IfSome result HasPart }
{
    let (whole, decimals) = word.split_at(digits_ahead(word));
    let second = few_digits(1, 2, whole)?;
    if are_decimals(decimals) {
        Some(TimeParts {
            second,
            nanosecond: nanosecond_in(decimals),
            ..parts
        })
    } else {
        None
    }
}

// Whether a word is this byte, or the same letter in another capital.
fn is_byte(byte: u8, word: &[u8]) -> bool
    ensures { result ≡ is_byte byte word.now }
{
    word.len() == 1 && byte.eq_ignore_ascii_case(&word[0])
}

// The parts with what a word says under a sign; `None` where it says nothing.
#[tactic(auto, unfolding(crate::specs::Words::with_sign))]
fn with_sign(sign: Sign, word: &[u8], parts: TimeParts) -> Option<TimeParts>
    requires { HasPart parts }
    ensures value { result ≡ with_sign sign word.now parts }
    ensures within { IfSome result HasPart }
{
    Some(match sign {
        Sign::Year => TimeParts {
            year: few_digits(4, 4, word)?,
            ..parts
        },
        Sign::ShortYear => TimeParts {
            year: full_year(few_digits(2, 2, word)?),
            ..parts
        },
        Sign::Month => TimeParts {
            month: few_digits(1, 2, word)?,
            ..parts
        },
        Sign::MonthName => TimeParts {
            month: month_in(word)?,
            ..parts
        },
        Sign::Day => TimeParts {
            day: few_digits(1, 2, word)?,
            ..parts
        },
        Sign::DayOfYear => TimeParts {
            day_of_year: Some(few_digits(1, 3, word)?),
            ..parts
        },
        Sign::Hour | Sign::HourOfHalf => TimeParts {
            hour: few_digits(1, 2, word)?,
            ..parts
        },
        Sign::Half => TimeParts {
            half: Some(half_in(word)?),
            ..parts
        },
        Sign::Minute => TimeParts {
            minute: few_digits(1, 2, word)?,
            ..parts
        },
        Sign::Second => return with_second(word, parts),
        Sign::Unknown => return None,
    })
}

// The parts with what a word says under a piece of a form; `None` where it is none of its words.
pub(crate) fn with_word(piece: Piece, word: &[u8], parts: TimeParts) -> Option<TimeParts>
    requires { HasPart parts }
    ensures value { result ≡ with_word piece word.now parts }
    ensures within { IfSome result HasPart }
{
    match piece {
        Piece::Byte(byte) if is_byte(byte, word) => Some(parts),
        Piece::Byte(_) => None,
        Piece::Sign(sign) => with_sign(sign, word, parts),
    }
}
