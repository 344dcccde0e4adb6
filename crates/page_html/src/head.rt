// The head of the page: its title, what stands at the foot of each sheet, what was typed in, the time of the fixes, and when it was
// made.

use crate::page::Page;
use crate::template::{
    BEFORE_DIGITS, BEFORE_FOOT, BEFORE_HEADING, BEFORE_MADE, BEFORE_PERIOD, BEFORE_TITLE,
    BEFORE_TYPED,
};
use crate::words::Words;
use page_dates::{date_of_day, push_day, push_period};
use page_report::ReadAnimal;
use page_sections::Shown;
use page_tables::Told;
use page_text::{between, push_escaped, push_named, push_whole, styled};
use std::alloc::{AllocError, Global};

// The seconds of a day.
const DAY: u128 = 86_400;

// How many animals have their names in the heading.
const MOST_NAMED: usize = 3;

// How many characters of the title stand at the foot of each sheet, and how many digits of the report's checksum.
const MOST_AT_FOOT: usize = 80;

const DIGITS: usize = 16;

// Appends the names of animals.
fn push_names(title: &mut Vec<u8>, animals: &[ReadAnimal]) -> Result<(), AllocError> {
    for (place, animal) in animals.iter().enumerate() {
        title.extend_from_slice(&animal.name)?;
        title.extend_from_slice(between(animals.len() - place - 1).as_bytes())?;
    }
    Ok(())
}

// The title that a page of these animals has where none was typed in.
fn usual_title(alloc: Global, animals: &[ReadAnimal]) -> Result<Vec<u8>, AllocError> {
    let mut title = Vec::from_slice(alloc, b"Home ranges of ")?;
    if animals.len() <= MOST_NAMED {
        push_names(&mut title, animals)?;
    } else {
        push_whole(&mut title, animals.len() as u128)?;
        title.extend_from_slice(b" animals")?;
    }
    Ok(title)
}

// The title, as it was typed in or as animals are called.
fn title_of(alloc: Global, page: &Page) -> Result<Vec<u8>, AllocError> {
    match page.words.title {
        Some(title) => Vec::from_slice(alloc, title),
        None => usual_title(alloc, &page.shown.report.animals),
    }
}

// Appends the title to a style sheet. One that is no UTF-8 is left out.
fn push_foot(alloc: Global, text: &mut Vec<u8>, title: &[u8]) -> Result<(), AllocError> {
    match str::from_utf8(title) {
        Ok(title) => text.extend_from_slice(&styled(alloc, title, MOST_AT_FOOT)?),
        Err(_no_text) => Ok(()),
    }
}

// Appends the first digits of the checksum of the report, if it has one.
fn push_digits(text: &mut Vec<u8>, sum: Option<&[u8]>) -> Result<(), AllocError> {
    let Some(sum) = sum else {
        return Ok(());
    };
    text.extend_from_slice(b"report.txt ")?;
    text.extend_from_slice(&sum[..sum.len().min(DIGITS)])?;
    text.extend_from_slice(b", ")
}

// Appends what was typed in under a name, if something was.
fn push_typed(text: &mut Vec<u8>, name: &[u8], words: Option<&[u8]>) -> Result<(), AllocError> {
    let Some(words) = words else {
        return Ok(());
    };
    text.extend_from_slice(b"<span>")?;
    text.extend_from_slice(name)?;
    text.extend_from_slice(b": ")?;
    push_named(text, words)?;
    text.extend_from_slice(b"</span> ")
}

// Appends all that was typed in but the title.
fn push_all_typed(text: &mut Vec<u8>, words: &Words) -> Result<(), AllocError> {
    push_typed(text, b"Study", words.study)?;
    push_typed(text, b"Species", words.species)?;
    push_typed(text, b"By", words.by)?;
    push_typed(text, b"Reference", words.reference)?;
    push_typed(text, b"Purpose", words.purpose)
}

// The seconds of the first and of the last fix of all animals.
fn seconds_of_all(told: &[Told]) -> Option<(u64, u64)> {
    let first = told.iter().filter_map(|own| own.facts.first).min()?;
    let last = told.iter().filter_map(|own| own.facts.last).max()?;
    Some((first, last))
}

// Appends the time from the first fix to the last, and by which clock its dates are.
fn push_time(text: &mut Vec<u8>, shown: &Shown) -> Result<(), AllocError> {
    let Some((first, last)) = seconds_of_all(shown.told) else {
        return Ok(());
    };
    push_period(text, shown.clock, shown.dated, first, last)?;
    if !shown.dated {
        return text.extend_from_slice(b" (counted from the start that the files have)");
    }
    text.extend_from_slice(b" (dates of ")?;
    push_escaped(text, shown.zone)?;
    text.extend_from_slice(b")")
}

// Appends when the page was made, and by what.
fn push_made(text: &mut Vec<u8>, page: &Page) -> Result<(), AllocError> {
    text.extend_from_slice(b"Made ")?;
    if let Some(day) = page.made.day {
        text.extend_from_slice(b"on ")?;
        push_day(text, day)?;
        text.extend_from_slice(b" ")?;
    }
    text.extend_from_slice(b"with ")?;
    push_escaped(text, page.made.version)?;
    text.extend_from_slice(b".")?;
    push_later(text, page)
}

// The day of a second by the clock of a page, if it is one of a calendar.
fn day_of(shown: &Shown, second: u64) -> Option<(u64, u64, u64)> {
    let local = shown.clock.local_second(second);
    if shown.dated && local >= 0 {
        date_of_day(local.unsigned_abs() / DAY)
    } else {
        None
    }
}

// Appends that fixes are later than the day of making, if the last one is.
fn push_later(text: &mut Vec<u8>, page: &Page) -> Result<(), AllocError> {
    let Some((_first, last)) = seconds_of_all(page.shown.told) else {
        return Ok(());
    };
    match (page.made.day, day_of(&page.shown, last)) {
        (Some(made), Some(day)) if made < day => {
            text.extend_from_slice(b" Fixes are later than that day.")
        }
        _ => Ok(()),
    }
}

// Appends the title, and what stands at the foot of each sheet.
fn push_titles(alloc: Global, text: &mut Vec<u8>, page: &Page) -> Result<(), AllocError> {
    let title = title_of(alloc, page)?;
    text.extend_from_slice(BEFORE_TITLE)?;
    push_escaped(text, &title)?;
    text.extend_from_slice(BEFORE_FOOT)?;
    push_foot(alloc, text, &title)?;
    text.extend_from_slice(BEFORE_DIGITS)?;
    push_digits(text, page.report_sum)?;
    text.extend_from_slice(BEFORE_HEADING)?;
    push_named(text, &title)
}

// Appends the head of the page.
pub(crate) fn push_head(alloc: Global, text: &mut Vec<u8>, page: &Page) -> Result<(), AllocError> {
    push_titles(alloc, text, page)?;
    text.extend_from_slice(BEFORE_TYPED)?;
    push_all_typed(text, &page.words)?;
    text.extend_from_slice(BEFORE_PERIOD)?;
    push_time(text, &page.shown)?;
    text.extend_from_slice(BEFORE_MADE)?;
    push_made(text, page)
}
