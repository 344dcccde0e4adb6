// How the times of an export are read.

use crate::fault::{WordFault, refused};
use split_clock::is_zone_name;
use split_refusal::{Kind, Refusal};
use split_times::{FORM_LIMIT, FormFault, Forms};
use split_titles::{ClockDoubt, clock_doubt, is_half_of_day};
use std::alloc::{AllocError, Global};

// The first form of several that is none.
fn wrong_form(forms: &str) -> &str {
    for form in forms.split('|') {
        if Forms::new(form.as_bytes()).is_err() {
            return form;
        }
    }
    forms
}

// The refusal of forms of times.
fn refused_forms(alloc: Global, forms: &str, fault: FormFault) -> WordFault {
    let words = match fault {
        FormFault::TooLong => {
            let length = forms.len();
            format!(in alloc;
                "time-format has {length} bytes, and may have {FORM_LIMIT}: name fewer forms, or shorter ones"
            )
        }
        _ => {
            let form = wrong_form(forms);
            format!(in alloc;
                "time-format is '{form}', which is no form of a day, such as %Y-%m-%d, %d.%m.%y, %d %b %Y or %Y %j, with %H:%M:%S or %I:%M %p"
            )
        }
    };
    match words {
        Ok(words) => refused(alloc, Kind::Option, words.as_str()),
        Err(_) => WordFault::OutOfMemory,
    }
}

// What a part of a form between two `%` has behind the sign with which it begins.
fn behind_sign(part: &[u8]) -> &[u8] {
    match part {
        [_sign, behind @ ..] => behind,
        [] => b"",
    }
}

// Whether a text is UTC, or no offset from it.
fn is_utc(text: &[u8]) -> bool {
    let names = [b"Z".as_slice(), b"UTC", b"GMT", b"+00:00", b"+0000", b"+00"];
    names.iter().any(|name| *name == text)
}

// Whether a text may be a zone of time: three letters or more, all of them great, or an offset.
fn may_be_zone(text: &[u8]) -> bool {
    match text {
        [b'+' | b'-', digits @ ..] => digits.iter().any(u8::is_ascii_digit),
        _ => text.len() >= 3 && text.iter().all(u8::is_ascii_uppercase),
    }
}

// What stands between two signs of a form, or behind the last, says of the clock of times against the zone that was named.
fn doubt_of_part(part: &[u8], zone: Option<&[u8]>) -> Option<ClockDoubt> {
    let word = part.trim_ascii();
    match zone {
        Some(_) if is_utc(word) => clock_doubt(b"UTC", zone),
        None if may_be_zone(word) && !is_utc(word) => Some(ClockDoubt::Local),
        _ => clock_doubt(part, zone),
    }
}

// What a form says of the clock of times against the zone that was named, by what stands for itself in it.
fn doubt_of(form: &[u8], zone: Option<&[u8]>) -> Option<ClockDoubt> {
    for part in form.split(|byte| *byte == b'%') {
        let doubt = doubt_of_part(behind_sign(part), zone);
        if doubt.is_some() {
            return doubt;
        }
    }
    None
}

// Whether a form has a half of the day as a text that stands for itself.
fn has_half(form: &[u8]) -> bool {
    form.split(|byte| *byte == b'%')
        .any(|part| is_half_of_day(behind_sign(part)))
}

// Where a sign first stands in a form.
fn place_of(form: &str, sign: &str) -> Option<usize> {
    form.as_bytes()
        .windows(2)
        .position(|bytes| bytes == sign.as_bytes())
}

// Whether a form has the minute before the hour.
fn has_minute_first(form: &str) -> bool {
    let hour = place_of(form, "%H").or(place_of(form, "%I"));
    match (place_of(form, "%M"), hour) {
        (Some(minute), Some(hour)) => minute < hour,
        _ => false,
    }
}

// Whether a form has the day, as a number, before the month; none where it does not have both.
fn is_day_first(form: &str) -> Option<bool> {
    match (place_of(form, "%d"), place_of(form, "%m")) {
        (Some(day), Some(month)) => Some(day < month),
        _ => None,
    }
}

// Whether two bytes of forms are the same, or the signs of day and month.
fn are_same_or_turned(one: u8, other: u8) -> bool {
    one == other || matches!((one, other), (b'd', b'm') | (b'm', b'd'))
}

// Whether two forms have all but the order of day and month in common.
fn are_turned(form: &str, other: &str) -> bool {
    let are_alike = form.len() == other.len()
        && form
            .as_bytes()
            .iter()
            .zip(other.as_bytes())
            .all(|(one, own)| are_same_or_turned(*one, *own));
    are_alike && is_day_first(form).is_some() && is_day_first(form) != is_day_first(other)
}

// Why a form is refused among others: minutes stand where a month may be meant, or it is the other way round.
fn order_words(alloc: Global, forms: &str, form: &str) -> Result<Option<String>, AllocError> {
    if has_minute_first(form) {
        return Ok(Some(format!(in alloc;
            "time-format is '{form}', which has the minute before the hour: %m is the month, and %M the minute"
        )?));
    }
    match forms.split('|').find(|other| are_turned(form, other)) {
        Some(other) => Ok(Some(format!(in alloc;
            "time-format has '{form}' and '{other}', by which many texts are two days: name one of them"
        )?)),
        None => Ok(None),
    }
}

// Refuses forms whose signs stand in an order that can hardly be meant.
fn refuse_orders(alloc: Global, forms: &str) -> Result<(), WordFault> {
    for form in forms.split('|') {
        match order_words(alloc, forms, form) {
            Ok(None) => {}
            Ok(Some(words)) => return Err(refused(alloc, Kind::Option, words.as_str())),
            Err(_) => return Err(WordFault::OutOfMemory),
        }
    }
    Ok(())
}

// Why a form is refused that is one of days: it says another zone than times are read in, or none is named, or a half of the day
// stands for itself.
fn zone_words(
    alloc: Global,
    form: &str,
    zone_name: Option<&str>,
) -> Result<Option<String>, AllocError> {
    let zone = match zone_name {
        Some(name) => Some(name.as_bytes()),
        None => None,
    };
    let name = zone_name.unwrap_or("UTC");
    let words = match doubt_of(form.as_bytes(), zone) {
        Some(ClockDoubt::Utc) => format!(in alloc;
            "time-format is '{form}', which says UTC, and tz is '{name}': leave one of them out"
        )?,
        Some(ClockDoubt::Other) => format!(in alloc;
            "time-format is '{form}', which says another clock than tz='{name}': name its zone, by --tz"
        )?,
        Some(ClockDoubt::Local) => format!(in alloc;
            "time-format is '{form}', which may have a zone of time, and no form has one: name it, as by --tz Europe/Ljubljana"
        )?,
        None if has_half(form.as_bytes()) => format!(in alloc;
            "time-format is '{form}', in which a half of the day stands for itself: write %I for the hour and %p for the half"
        )?,
        None => return Ok(None),
    };
    Ok(Some(words))
}

// Refuses forms that say another zone than times are read in, or one that is not named.
fn refuse_zones(alloc: Global, forms: &str, zone_name: Option<&str>) -> Result<(), WordFault> {
    for form in forms.split('|') {
        match zone_words(alloc, form, zone_name) {
            Ok(None) => {}
            Ok(Some(words)) => return Err(refused(alloc, Kind::Option, words.as_str())),
            Err(_) => return Err(WordFault::OutOfMemory),
        }
    }
    Ok(())
}

// The forms of times, if they were named.
pub(crate) fn forms_in<'a>(
    alloc: Global,
    value: Option<&'a str>,
    zone_name: Option<&str>,
) -> Result<Option<Forms<'a>>, WordFault> {
    let Some(text) = value else {
        return Ok(None);
    };
    refuse_orders(alloc, text)?;
    refuse_zones(alloc, text, zone_name)?;
    match Forms::new(text.as_bytes()) {
        Ok(forms) => Ok(Some(forms)),
        Err(fault) => Err(refused_forms(alloc, text, fault)),
    }
}

/// The refusal of the name of a time zone that is none.
pub fn refused_zone_name(alloc: Global, name: &str) -> Refusal {
    match format!(in alloc; "tz='{name}' is no time zone such as 'Europe/Ljubljana'") {
        Ok(words) => Refusal::new(alloc, Kind::Option, None, words.as_bytes()),
        Err(_) => Refusal::out_of_memory(alloc),
    }
}

// The name of the time zone of times, if it was named.
pub(crate) fn zone_name_in<'a>(
    alloc: Global,
    value: Option<&'a str>,
) -> Result<Option<&'a str>, WordFault> {
    match value {
        Some(name) if !is_zone_name(name.as_bytes()) => {
            Err(WordFault::Refused(refused_zone_name(alloc, name)))
        }
        _ => Ok(value),
    }
}
