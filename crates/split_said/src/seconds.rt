// Whether a column of seconds may have those of a minute, and whether it has dates.

use crate::sheet::{Sheet, title_at};
use crate::stop::{Stop, refused};
use crate::words::{push, push_number, push_option};
use range_plane::OutOfMemory;
use split_reading::{Ledger, Row, Told};
use split_refusal::Kind;
use split_times::FIRST_SECOND;
use std::alloc::{AllocError, Global};

// How many seconds a minute has. More fixes of an animal than these are not all of its first minute.
const MINUTE: u64 = 60;

// How many fixes an animal has, and the greatest of their seconds.
#[derive(Clone, Copy)]
struct Seconds {
    count: u64,
    most: u64,
}

impl Seconds {
    // The same with the second of one more.
    fn with(self, second: u64) -> Seconds {
        Seconds {
            count: self.count.saturating_add(1),
            most: self.most.max(second),
        }
    }

    // Whether they may all be those of a minute.
    fn are_of_a_minute(self) -> bool {
        self.count > MINUTE && self.most < MINUTE
    }
}

// The animal and the second of a fix, if a record tells of one.
fn second_of(row: &Row) -> Option<(usize, u64)> {
    let animal = row.animal?;
    match row.told {
        Told::Fix(fix) => Some((animal as usize, fix.moment.second)),
        Told::LeftOut(_) => None,
    }
}

// The seconds of each animal, of so many.
fn seconds_of(alloc: Global, rows: &[Row], animals: usize) -> Result<Vec<Seconds>, OutOfMemory> {
    let none = Seconds { count: 0, most: 0 };
    let mut all = vec![in alloc; none; animals]?;
    for row in rows {
        if let Some((animal, second)) = second_of(row) {
            if let Some(own) = all.get_mut(animal) {
                *own = own.with(second);
            }
        }
    }
    Ok(all)
}

// That so many seconds of an animal may be those of a minute.
fn minute_text(alloc: Global, count: u64, name: &[u8]) -> Result<Vec<u8>, AllocError> {
    let mut text = Vec::new(alloc);
    push(&mut text, "all ")?;
    push_number(&mut text, usize::try_from(count).unwrap_or(usize::MAX))?;
    push(&mut text, " seconds of ")?;
    text.extend_from_slice(name)?;
    push(
        &mut text,
        " are below 60: are they those of a minute? Name the column of the time, as by --time COLUMN",
    )?;
    Ok(text)
}

// That these seconds have no dates, which an option has.
fn dates_text(
    alloc: Global,
    title: &[u8],
    most: u64,
    option: &str,
    value: &[u8],
) -> Result<Vec<u8>, AllocError> {
    let mut text = Vec::new(alloc);
    push(&mut text, "the seconds of ")?;
    text.extend_from_slice(title)?;
    push(&mut text, " end with ")?;
    push_number(&mut text, usize::try_from(most).unwrap_or(usize::MAX))?;
    push(
        &mut text,
        ", so they begin at a start of their own and have no dates: leave out ",
    )?;
    push_option(&mut text, option, value)?;
    Ok(text)
}

// The option that has a date, and its date, if one was named.
fn dated_option<'a>(sheet: &Sheet<'a>) -> Option<(&'static str, &'a [u8])> {
    let wanted = &sheet.wanted;
    if !wanted.since.is_empty() {
        Some(("--since", wanted.since))
    } else if !wanted.until.is_empty() {
        Some(("--until", wanted.until))
    } else {
        None
    }
}

// Refuses dates beside seconds that are not since 1970.
fn check_dates(alloc: Global, sheet: &Sheet<'_>, all: &[Seconds]) -> Result<(), Stop> {
    let Some((option, value)) = dated_option(sheet) else {
        return Ok(());
    };
    let most = all.iter().map(|own| own.most).max().unwrap_or(0);
    if FIRST_SECOND <= most {
        return Ok(());
    }
    let title = match sheet.columns.time.first() {
        Some(column) => title_at(sheet, *column),
        None => b"",
    };
    let text = dates_text(alloc, title, most, option, value);
    Err(refused(alloc, Kind::Option, None, text))
}

// Refuses a column of seconds that may be that of the second of a minute: more than 60 of an animal are all below 60; and one that has no
// dates beside an option that has.
pub(crate) fn check_seconds(alloc: Global, sheet: &Sheet<'_>, ledger: &Ledger) -> Result<(), Stop> {
    if !sheet.columns.is_second {
        return Ok(());
    }
    let all = seconds_of(alloc, &ledger.rows, ledger.names.len())?;
    for (seconds, name) in all.iter().zip(ledger.names.iter()) {
        if seconds.are_of_a_minute() {
            let text = minute_text(alloc, seconds.count, name);
            return Err(refused(alloc, Kind::Time, None, text));
        }
    }
    check_dates(alloc, sheet, &all)
}
