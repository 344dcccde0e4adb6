// Which signs a form of times has, and why they make no form.

ghost use Rattle.std.specs.Prelude.{◌≡◌};
ghost use Rattle.split_times.specs.Forms.{pieces_of};
ghost use Rattle.split_times.specs.Signs.{form_fault, no_signs, noted, once, signs_of, unclear};

use crate::sign::{Piece, Sign, first_piece};
use std::mem;

/// Why a text is no form of times.
#[derive(Clone, Copy, PartialEq, Eq, Debug)]
pub enum FormFault {
    /// It has more bytes than [`FORM_LIMIT`](crate::FORM_LIMIT).
    TooLong,
    /// A letter behind `%` stands for nothing.
    UnknownSign,
    /// Two signs say one thing, such as `%m` and `%b` the month.
    SaidTwice,
    /// No sign says the year.
    NoYear,
    /// No sign says the day: neither `%j` alone, nor `%d` with `%m` or `%b`.
    NoDay,
    /// `%I` stands without `%p`, or `%p` without `%I`.
    HalfOfDay,
    /// Minutes are said without hours.
    MinuteWithoutHour,
    /// Seconds are said without minutes.
    SecondWithoutMinute,
}

// Of what a form has a sign.
#[derive(Clone, Copy, PartialEq, Eq, Debug)]
pub(crate) struct Signs {
    pub year: bool,
    pub month: bool,
    pub day: bool,
    pub day_of_year: bool,
    pub hour: bool,
    pub hour_of_half: bool,
    pub half: bool,
    pub minute: bool,
    pub second: bool,
}

// Of what a form without signs has one.
fn no_signs() -> Signs
    ensures { result ≡ no_signs }
{
    Signs {
        year: false,
        month: false,
        day: false,
        day_of_year: false,
        hour: false,
        hour_of_half: false,
        half: false,
        minute: false,
        second: false,
    }
}

// The signs with another one, if what it says was not said before.
fn once(said: bool, signs: Signs) -> Result<Signs, FormFault>
    ensures { result ≡ once said signs }
{
    if said {
        Err(FormFault::SaidTwice)
    } else {
        Ok(signs)
    }
}

// The signs with another one.
fn noted(sign: Sign, signs: Signs) -> Result<Signs, FormFault>
    ensures { result ≡ noted sign signs }
{
    let mut more = signs;
    let said = match sign {
        Sign::Year | Sign::ShortYear => mem::replace(&mut more.year, true),
        Sign::Month | Sign::MonthName => mem::replace(&mut more.month, true),
        Sign::Day => mem::replace(&mut more.day, true),
        Sign::DayOfYear => mem::replace(&mut more.day_of_year, true),
        Sign::Hour => mem::replace(&mut more.hour, true),
        Sign::HourOfHalf => mem::replace(&mut more.hour_of_half, true),
        Sign::Half => mem::replace(&mut more.half, true),
        Sign::Minute => mem::replace(&mut more.minute, true),
        Sign::Second => mem::replace(&mut more.second, true),
        Sign::Unknown => return Err(FormFault::UnknownSign),
    };
    once(said, more)
}

// The signs of a form, beside those that it had before, or the first fault of one.
#[tactic(auto, unfolding(crate::specs::Signs::signs_of))]
fn signs_of(form: &[u8], signs: Signs) -> Result<Signs, FormFault>
    ensures { result ≡ signs_of (pieces_of form.now) signs }
{
    match first_piece(form) {
        None => Ok(signs),
        Some((Piece::Byte(_), others)) => signs_of(others, signs),
        Some((Piece::Sign(sign), others)) => signs_of(others, noted(sign, signs)?),
    }
}

// Why signs that are known and that say nothing twice make no form.
fn unclear(signs: Signs) -> Option<FormFault>
    ensures { result ≡ unclear signs }
{
    if signs.day_of_year && (signs.month || signs.day) || signs.hour && signs.hour_of_half {
        Some(FormFault::SaidTwice)
    } else if !signs.year {
        Some(FormFault::NoYear)
    } else if !signs.day_of_year && !(signs.month && signs.day) {
        Some(FormFault::NoDay)
    } else if signs.hour_of_half && !signs.half || !signs.hour_of_half && signs.half {
        Some(FormFault::HalfOfDay)
    } else if signs.minute && !signs.hour && !signs.hour_of_half {
        Some(FormFault::MinuteWithoutHour)
    } else if signs.second && !signs.minute {
        Some(FormFault::SecondWithoutMinute)
    } else {
        None
    }
}

// Why a text is no form.
pub(crate) fn form_fault(form: &[u8]) -> Option<FormFault>
    ensures { result ≡ form_fault form.now }
{
    match signs_of(form, no_signs()) {
        Ok(signs) => unclear(signs),
        Err(fault) => Some(fault),
    }
}
