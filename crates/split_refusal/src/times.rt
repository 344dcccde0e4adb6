// Sentences about times.

use crate::digits::is_number;
use crate::forms::{has_iso_day, has_iso_form, without_blanks};
use crate::kind::Kind;
use crate::push::{Field, push, push_field};
use crate::refusal::Sentence;
use crate::remedies::{form_of_digits, odd_half, push_form, push_half, push_other_form};
use range_plane::OutOfMemory;
use split_clock::NoMoment;
use split_times::{NumberFault, TimeFault, iso_moment};
use split_titles::clock_of_half;
use std::alloc::{AllocError, Global};

// Why a field is no time that is read.
#[derive(Clone, Copy, PartialEq, Eq, Debug)]
enum Why {
    Missing,
    // It has the form of a time of ISO, and there is no such time.
    NoTime,
    OtherForm,
    // It is before 1970, or past the greatest second.
    Outside,
    // It is a number that is no second since 1970.
    Number(NumberFault),
    // It is a time of ISO in a column of seconds.
    TimeAmongSeconds,
    // It has more than nine decimals.
    ManyDecimals,
    // It is a clock alone.
    Clock,
    // It is a number with an exponent.
    Exponent,
}

impl Why {
    // What is said of the field, where it is not missing.
    fn words(self) -> &'static str {
        match self {
            Why::Missing | Why::OtherForm => " and not a time such as 2024-05-01 00:30:04",
            Why::NoTime => ", which is no time",
            Why::Outside =>
                ", which is no time since 1970, and not within 0 to 1099511627776 seconds",
            Why::Number(fault) => number_words(fault),
            Why::TimeAmongSeconds => {
                ", which is a time among seconds: write seconds since a start, or name the column otherwise, such as timestamp"
            }
            Why::ManyDecimals => ", which has more than nine decimals: write nine at most",
            Why::Clock => {
                ", which is a clock without a day: name the column of the day too, as by --time DAY,CLOCK"
            }
            Why::Exponent => ", which is a number without all of its digits: write these",
        }
    }
}

// What is said of a number that is no second since 1970, by what it looks like.
fn number_words(fault: NumberFault) -> &'static str {
    match fault {
        NumberFault::NotNumber => ", which is no number",
        NumberFault::Negative => ", which is less than 0",
        NumberFault::DaysOfExcel => ", which looks like days of Excel",
        NumberFault::JulianDays => ", which looks like Julian days",
        NumberFault::DateWithoutHyphens => ", which looks like a date without hyphens",
        NumberFault::Milliseconds =>
            ", which looks like milliseconds, or a date without signs between",
        NumberFault::NotSecond => ", which is no second since 1970 (1990 to 2286)",
    }
}

// The remedy of a number that is no second since 1970.
const REMEDY: &str =
    ": write a time such as 2024-05-01 00:30:04, or seconds since 1970, or seconds since another start in a column \
                      'second'";

// The remedy of a year that may have been written with two digits.
const TWO_DIGITS: &str = ": if its year was written with two digits, write all four";

// Whether a field is a day of a year of the first century.
fn is_of_first_century(cell: &[u8]) -> bool {
    let text = without_blanks(cell);
    has_iso_day(text) && text.starts_with(b"00")
}

// Appends what is to be done about a number that is no second since 1970.
fn push_number_form(text: &mut Vec<u8>, cell: &[u8]) -> Result<(), AllocError> {
    match form_of_digits(without_blanks(cell)) {
        Some(form) => {
            push(text, ": name its form, as by --time-format '")?;
            push(text, form)?;
            push(text, "'")
        }
        None => push(text, REMEDY),
    }
}

// Whether a field has no time.
fn is_missing(cell: &[u8]) -> bool {
    let text = without_blanks(cell);
    text.is_empty() || text == b"NA".as_slice()
}

// Whether a text is a clock alone.
fn is_clock(cell: &[u8]) -> bool {
    let text = match clock_of_half(cell) {
        Some((clock, _)) => clock,
        None => without_blanks(cell),
    };
    let are_its = |byte: &u8| byte.is_ascii_digit() || *byte == b':' || *byte == b'.';
    text.contains(&b':') && text.iter().all(are_its)
}

// Whether a text is a number with an exponent.
fn has_exponent(cell: &[u8]) -> bool {
    let text = without_blanks(cell);
    let are_its = |byte: &u8| byte.is_ascii_digit() || b"eE+-.".contains(byte);
    let begins = text.first().is_some_and(u8::is_ascii_digit);
    begins && text.iter().any(|byte| byte.eq_ignore_ascii_case(&b'e')) && text.iter().all(are_its)
}

// Why a text that is no number is no time.
fn why_no_text(cell: &[u8]) -> Why {
    if has_iso_form(cell) {
        Why::NoTime
    } else if is_clock(cell) {
        Why::Clock
    } else if has_exponent(cell) {
        Why::Exponent
    } else {
        Why::OtherForm
    }
}

// Why a field in a column of times is none.
fn why_no_time(cell: &[u8], fault: TimeFault) -> Why {
    if is_missing(cell) {
        return Why::Missing;
    }
    match fault {
        TimeFault::MoreThanNineDecimals => Why::ManyDecimals,
        TimeFault::Before1970 => Why::Outside,
        TimeFault::NotTime => why_no_text(cell),
    }
}

// Why a text in a column of seconds is no second.
fn why_no_second_text(cell: &[u8]) -> Why {
    match iso_moment(cell) {
        Ok(_) | Err(TimeFault::MoreThanNineDecimals) => Why::TimeAmongSeconds,
        Err(TimeFault::Before1970) => Why::Outside,
        Err(TimeFault::NotTime) => why_no_text(cell),
    }
}

// Why a field in a column of seconds is no second.
fn why_no_second(cell: &[u8]) -> Why {
    if is_missing(cell) {
        return Why::Missing;
    }
    match is_number(cell) {
        true => Why::Outside,
        false => why_no_second_text(cell),
    }
}

// The sentence of a field.
fn sentence(alloc: Global, field: Field<'_>, why: Why) -> Result<Sentence, OutOfMemory> {
    let mut text = Vec::new(alloc);
    if why == Why::Missing {
        push(&mut text, "there is no ")?;
        text.extend_from_slice(field.title)?;
    } else {
        push_field(&mut text, field, why.words())?;
    }
    match why {
        Why::Number(_) => push_number_form(&mut text, field.cell)?,
        Why::Outside if is_of_first_century(field.cell) => push(&mut text, TWO_DIGITS)?,
        Why::OtherForm => push_form(alloc, &mut text, field.cell)?,
        _ => {}
    }
    Ok(Sentence {
        kind: Kind::Time,
        text,
    })
}

// That a time is missing, of so many columns.
pub(crate) fn missing_time(
    alloc: Global,
    field: Field<'_>,
    columns: usize,
) -> Result<Sentence, OutOfMemory> {
    if columns != 1 || is_missing(field.cell) {
        return sentence(alloc, field, Why::Missing);
    }
    let mut text = Vec::new(alloc);
    push_field(
        &mut text,
        field,
        ", a word of --na, and so no time: leave it out of --na",
    )?;
    Ok(Sentence {
        kind: Kind::Time,
        text,
    })
}

// Appends forms, between which `|` stands.
fn push_forms(text: &mut Vec<u8>, forms: &str) -> Result<(), AllocError> {
    for (place, form) in forms.split('|').enumerate() {
        if place > 0 {
            push(text, " or ")?;
        }
        push(text, form)?;
    }
    Ok(())
}

// That a field has none of the forms that are named, between which `|` stands.
fn form_sentence(alloc: Global, field: Field<'_>, forms: &str) -> Result<Sentence, OutOfMemory> {
    let mut text = Vec::new(alloc);
    push_field(&mut text, field, " and not a time of the form ")?;
    push_forms(&mut text, forms)?;
    if let (true, Some((_, is_afternoon))) = (forms.contains("%p"), odd_half(field.cell)) {
        push_half(&mut text, is_afternoon)?;
    }
    Ok(Sentence {
        kind: Kind::Time,
        text,
    })
}

// That the text of several columns has none of the forms that are named, or none was, and which form it has.
pub(crate) fn several_sentence(
    alloc: Global,
    field: Field<'_>,
    forms: &str,
    form: &str,
) -> Result<Sentence, OutOfMemory> {
    let mut sentence = if forms.is_empty() {
        let mut text = Vec::new(alloc);
        push_field(&mut text, field, Why::OtherForm.words())?;
        Sentence {
            kind: Kind::Time,
            text,
        }
    } else {
        form_sentence(alloc, field, forms)?
    };
    push(&mut sentence.text, ": name its form, as by --time-format '")?;
    push(&mut sentence.text, form)?;
    push(&mut sentence.text, "'")?;
    Ok(sentence)
}

// Why a field in a column of times is none. Their forms are named, or empty where they are those of ISO.
pub(crate) fn time_sentence(
    alloc: Global,
    field: Field<'_>,
    fault: TimeFault,
    forms: &str,
) -> Result<Sentence, OutOfMemory> {
    if fault == TimeFault::NotTime && !forms.is_empty() && !is_missing(field.cell) {
        let mut sentence = form_sentence(alloc, field, forms)?;
        push_other_form(alloc, &mut sentence.text, field.cell, forms)?;
        return Ok(sentence);
    }
    sentence(alloc, field, why_no_time(field.cell, fault))
}

// Why a field in a column of seconds is none.
pub(crate) fn second_sentence(alloc: Global, field: Field<'_>) -> Result<Sentence, OutOfMemory> {
    sentence(alloc, field, why_no_second(field.cell))
}

// Why a number is no second since 1970.
pub(crate) fn number_sentence(
    alloc: Global,
    field: Field<'_>,
    fault: NumberFault,
) -> Result<Sentence, OutOfMemory> {
    sentence(alloc, field, Why::Number(fault))
}

// Why the clock of a zone has no such time.
pub(crate) fn clock_sentence(
    alloc: Global,
    field: Field<'_>,
    fault: NoMoment,
    clock: &str,
) -> Result<Sentence, OutOfMemory> {
    if fault == NoMoment::Before1970 {
        return sentence(alloc, field, Why::Outside);
    }
    let mut text = Vec::new(alloc);
    text.extend_from_slice(field.title)?;
    push(&mut text, ": the clocks of ")?;
    push(&mut text, clock)?;
    push(&mut text, " passed over that time")?;
    Ok(Sentence {
        kind: Kind::Time,
        text,
    })
}
