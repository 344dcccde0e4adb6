// The form of a time that stands in several columns, by their titles and texts.

use crate::digits::are_digits;
use crate::forms::has_form;
use range_plane::OutOfMemory;
use split_titles::dictionary::{DAYS, DAYS_OF_YEARS, HOURS, MINUTES, MONTHS, SECONDS, YEARS};
use split_titles::{comes_to, is_word};
use std::alloc::Global;

// Titles of hours, minutes and seconds whose words are those of other things too.
const SHORT_HOURS: [&str; 4] = ["hr", "hrs", "hh", "ora"];

const SHORT_MINUTES: [&str; 1] = ["mi"];

const SHORT_SECONDS: [&str; 1] = ["ss"];

// Words of other parts of times, in the languages in which words for a part are other words too.
const GERMAN: [&str; 5] = ["jahr", "monat", "stunde", "uhrzeit", "minute"];

const SLAVIC: [&str; 9] = [
    "rok", "měsíc", "mesiac", "mesec", "mjesec", "leto", "godina", "hodina", "ura",
];

const HUNGARIAN: [&str; 3] = ["hónap", "óra", "másodperc"];

const TURKISH: [&str; 3] = ["yıl", "saat", "dakika"];

const CATALAN: [&str; 4] = ["mes", "dia", "hora", "minut"];

const NORDIC: [&str; 5] = ["måned", "månad", "dag", "timme", "minut"];

// The sign of a form that a title stands for which is another word too.
fn odd_sign(title: &[u8]) -> Option<&'static str> {
    if is_word(title, &["tag", "den", "dan", "nap", "gün"]) {
        Some("%d")
    } else if is_word(title, &["any", "år", "év"]) {
        Some("%Y")
    } else if is_word(title, &["ay"]) {
        Some("%m")
    } else if is_word(title, &["perc"]) {
        Some("%M")
    } else {
        None
    }
}

// Whether another title is a word for a part of a time in the language of such a title.
fn is_of_language(title: &[u8], other: &[u8]) -> bool {
    is_word(title, &["tag"]) && is_word(other, &GERMAN)
        || is_word(title, &["den", "dan"]) && is_word(other, &SLAVIC)
        || is_word(title, &["nap", "év", "perc"]) && is_word(other, &HUNGARIAN)
        || is_word(title, &["gün", "ay"]) && is_word(other, &TURKISH)
        || is_word(title, &["any"]) && is_word(other, &CATALAN)
        || is_word(title, &["år"]) && is_word(other, &NORDIC)
}

// Whether a title comes to one of these, or is one of these words.
fn is_one_of(title: &[u8], titles: &[&str]) -> bool {
    is_word(title, titles) || titles.iter().any(|own| comes_to(title, own.as_bytes()))
}

// The sign of a form that a title stands for, above numbers.
fn sign_of_title(title: &[u8]) -> Option<&'static str> {
    if is_one_of(title, &YEARS) {
        Some("%Y")
    } else if is_one_of(title, &MONTHS) {
        Some("%m")
    } else if is_one_of(title, &DAYS) {
        Some("%d")
    } else if is_one_of(title, &DAYS_OF_YEARS) {
        Some("%j")
    } else if is_one_of(title, &HOURS) || is_one_of(title, &SHORT_HOURS) {
        Some("%H")
    } else if is_one_of(title, &MINUTES) || is_one_of(title, &SHORT_MINUTES) {
        Some("%M")
    } else if is_one_of(title, &SECONDS) || is_one_of(title, &SHORT_SECONDS) {
        Some("%S")
    } else {
        None
    }
}

// The form of a day or a clock that a text has.
fn sign_of_text(text: &[u8]) -> Option<&'static str> {
    if has_form(text, b"0000-00-00") {
        Some("%Y-%m-%d")
    } else if has_form(text, b"00.00.0000") {
        Some("%d.%m.%Y")
    } else if has_form(text, b"00:00") || has_form(text, b"0:00") {
        Some("%H:%M")
    } else if has_form(text, b"00:00:00") || has_form(text, b"0:00:00") {
        Some("%H:%M:%S")
    } else {
        None
    }
}

// The sign of a column of digits, of which its title says this one.
fn sign_above(sign: Option<&'static str>, text: &[u8]) -> Option<&'static str> {
    match sign {
        None | Some("%H") if text.len() == 4 => Some("%H%M"),
        Some("%Y") if text.len() < 3 => Some("%y"),
        sign => sign,
    }
}

/// The sign or form that stands for a column in that of a time which it has with others, by its title and one of its texts, such as
/// `%H` for `Hour` above `7`; none where neither says it.
pub fn sign_of(title: &[u8], text: &[u8]) -> Option<&'static str> {
    if are_digits(text) {
        sign_above(sign_of_title(title), text)
    } else {
        sign_of_text(text)
    }
}

/// The same of a column beside those of these titles, of which one may have another part in the language of this title: a column
/// `Tag` beside `Jahr` has days, and alone it has the tags of animals.
pub fn sign_beside(title: &[u8], text: &[u8], titles: &[Vec<u8>]) -> Option<&'static str> {
    match odd_sign(title) {
        Some(sign) if are_digits(text) && titles.iter().any(|own| is_of_language(title, own)) => {
            sign_above(Some(sign), text)
        }
        _ => sign_of(title, text),
    }
}

// The same of a column that is named as one of the time, whose title then is no other word.
fn sign_named(title: &[u8], text: &[u8]) -> Option<&'static str> {
    match odd_sign(title) {
        Some(sign) if are_digits(text) => sign_above(Some(sign), text),
        _ => sign_of(title, text),
    }
}

// Whether a form has a year and a day in it.
fn has_day(form: &str) -> bool {
    let has_year = form.contains("%Y") || form.contains("%y");
    has_year && (form.contains("%j") || form.contains("%m") && form.contains("%d"))
}

/// The form of a time that stands in columns with these titles, of which one record has these texts; none where it is not known, or
/// has no day.
///
/// # Errors
///
/// Memory ran out.
pub fn form_of_columns(
    alloc: Global,
    titles: &[&[u8]],
    texts: &[&[u8]],
) -> Result<Option<String>, OutOfMemory> {
    let mut form = String::new(alloc);
    for (title, text) in titles.iter().zip(texts) {
        let Some(sign) = sign_named(title, text) else {
            return Ok(None);
        };
        if form.contains(sign) {
            return Ok(None);
        }
        if !form.is_empty() {
            form.push_str(" ")?;
        }
        form.push_str(sign)?;
    }
    let is_whole = titles.len() == texts.len() && has_day(&form);
    Ok(if is_whole { Some(form) } else { None })
}
