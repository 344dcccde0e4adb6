// What the values of options say.

use crate::fault::{WordFault, refused_value};
use jiff_core::civil::Date;
use page_ground::{Difference, Differences};
use split_clock::is_zone_name;
use std::alloc::Global;

// How many metres are added to a coordinate at most.
const MOST_METRES: u32 = 999_999_999;

// How many digits a checksum has.
const DIGITS: usize = 64;

// The number that digits come to, none of which is missing and of which there are so many at most.
fn number_of(digits: &str, most: usize) -> Option<u32> {
    let is_plain = digits.bytes().all(|byte| byte.is_ascii_digit());
    if digits.is_empty() || digits.len() > most || !is_plain {
        return None;
    }
    digits.parse::<u32>().ok()
}

// Whether a text begins with a minus, and what stands behind it, or behind a plus.
fn without_sign(text: &str) -> (bool, &str) {
    match text.strip_prefix('-') {
        Some(rest) => (true, rest),
        None => (false, text.strip_prefix('+').unwrap_or(text)),
    }
}

// A whole number of metres, with a minus or without one.
fn metres_of(text: &str) -> Option<i32> {
    let (is_less, digits) = without_sign(text);
    let metres = number_of(digits, 9)?.min(MOST_METRES) as i32;
    Some(if is_less { -metres } else { metres })
}

// Metres that were added to eastings and northings.
fn both_metres(text: &str) -> Option<(i32, i32)> {
    let (east, north) = text.split_once(',')?;
    Some((metres_of(east)?, metres_of(north)?))
}

// A difference in per cent, with two places.
fn difference_of(text: &str) -> Option<Difference> {
    let (is_less, digits) = without_sign(text);
    let (whole, rest) = digits.split_once('.')?;
    if rest.len() != 2 {
        return None;
    }
    let hundredths = number_of(whole, 3)?
        .saturating_mul(100)
        .saturating_add(number_of(rest, 2)?);
    Some(Difference {
        is_less: is_less && hundredths > 0,
        hundredths,
    })
}

// The least and the greatest difference.
fn both_differences(text: &str) -> Option<Differences> {
    let (least, most) = text.split_once(',')?;
    Some(Differences {
        least: difference_of(least)?,
        most: difference_of(most)?,
    })
}

// A day of the calendar, as a year, a month and a day of it.
fn day_of(text: &str) -> Option<(u64, u64, u64)> {
    let (year, rest) = text.split_once('-')?;
    let (month, day) = rest.split_once('-')?;
    if year.len() != 4 || month.len() != 2 || day.len() != 2 {
        return None;
    }
    let (year, month, day) = (
        number_of(year, 4)?,
        number_of(month, 2)?,
        number_of(day, 2)?,
    );
    Date::new(
        i16::try_from(year).ok()?,
        i8::try_from(month).ok()?,
        i8::try_from(day).ok()?,
    )
    .ok()?;
    Some((u64::from(year), u64::from(month), u64::from(day)))
}

// Whether a text is a checksum.
fn is_sum(text: &str) -> bool {
    let are_digits = text.bytes().all(|byte| byte.is_ascii_digit()
        || (b'a'..=b'f').contains(&byte));
    text.len() == DIGITS && are_digits
}

// The shift, which is nothing where it is not given.
pub(crate) fn shift_in(alloc: Global, value: Option<&str>) -> Result<(i32, i32), WordFault> {
    let Some(text) = value else {
        return Ok((0, 0));
    };
    let wanted = "two whole numbers of metres with a comma between, such as 500000,0";
    both_metres(text).ok_or_else(|| refused_value(alloc, "shift", text, wanted))
}

// By how much areas differ, if it was given.
pub(crate) fn differences_in(
    alloc: Global,
    value: Option<&str>,
) -> Result<Option<Differences>, WordFault> {
    let Some(text) = value else {
        return Ok(None);
    };
    match both_differences(text) {
        Some(differences) => Ok(Some(differences)),
        None => {
            let wanted = "two numbers of per cent with two places each, such as -0.07,+0.12";
            Err(refused_value(alloc, "area-difference", text, wanted))
        }
    }
}

// The day of making, if it was given.
pub(crate) fn day_in(
    alloc: Global,
    value: Option<&str>,
) -> Result<Option<(u64, u64, u64)>, WordFault> {
    let Some(text) = value else {
        return Ok(None);
    };
    match day_of(text) {
        Some(day) => Ok(Some(day)),
        None => Err(refused_value(alloc, "made", text, "a day, such as 2026-11-30")),
    }
}

// The checksum of the program, if it was given.
pub(crate) fn sum_in<'a>(
    alloc: Global,
    value: Option<&'a str>,
) -> Result<Option<&'a str>, WordFault> {
    match value {
        Some(text) if !is_sum(text) => {
            let wanted = "a checksum of SHA-256 of 64 digits from 0 to f";
            Err(refused_value(alloc, "program-sum", text, wanted))
        }
        own => Ok(own),
    }
}

// The name of the zone of dates.
pub(crate) fn clock_in<'a>(alloc: Global, value: Option<&'a str>) -> Result<&'a str, WordFault> {
    let name = value.unwrap_or("UTC");
    if is_zone_name(name.as_bytes()) {
        Ok(name)
    } else {
        let wanted = "the name of a time zone, such as Europe/Ljubljana";
        Err(refused_value(alloc, "clock", name, wanted))
    }
}
