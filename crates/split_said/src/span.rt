// From when to when fixes are used.

use crate::sheet::Sheet;
use crate::tracks::Herd;
use crate::words::push;
use itoa::Buffer;
use jiff_core::civil::Date;
use split_clock::Clock;
use split_tracks::Entry;
use std::alloc::{AllocError, Global};

// The seconds of a day.
const DAY: i128 = 86_400;

// The first and the last second of some fixes.
#[derive(Clone, Copy)]
struct Seconds {
    first: u64,
    last: u64,
}

// The seconds of fixes, and of one more.
fn with_second(seconds: Option<Seconds>, second: u64) -> Option<Seconds> {
    match seconds {
        Some(seconds) => Some(Seconds {
            first: seconds.first.min(second),
            last: seconds.last.max(second),
        }),
        None => Some(Seconds {
            first: second,
            last: second,
        }),
    }
}

// The seconds of fixes, and of the used ones of one more track.
fn with_track(seconds: Option<Seconds>, track: &[Entry]) -> Option<Seconds> {
    let mut seconds = seconds;
    for entry in track {
        if entry.is_used {
            seconds = with_second(seconds, entry.moment.second);
        }
    }
    seconds
}

// The seconds of all fixes that are used.
fn seconds_of(herd: &Herd<'_>) -> Option<Seconds> {
    let mut seconds = None;
    for animal in herd.order {
        seconds = with_track(seconds, herd.track(*animal));
    }
    seconds
}

// The day of a second by a clock; none where it is past the year 9999.
fn day_of(second: u64, clock: Option<&Clock>) -> Option<Date> {
    let shown = match clock {
        Some(clock) => clock.local_second(second),
        None => i128::from(second),
    };
    let day = i64::try_from(shown.div_euclid(DAY)).ok()?;
    Date::from_unix_epoch_day(day).ok()
}

// Appends a day.
fn push_day(alloc: Global, text: &mut Vec<u8>, date: Date) -> Result<(), AllocError> {
    let (year, month, day) = (date.year, date.month, date.day);
    let figures = format!(in alloc; "{year:04}-{month:02}-{day:02}")?;
    push(text, figures.as_str())
}

// Appends from which day to which.
fn push_days(alloc: Global, text: &mut Vec<u8>, first: Date, last: Date) -> Result<(), AllocError> {
    push(text, ", from ")?;
    push_day(alloc, text, first)?;
    push(text, " to ")?;
    push_day(alloc, text, last)
}

// Appends from which second to which.
fn push_seconds(text: &mut Vec<u8>, seconds: Seconds) -> Result<(), AllocError> {
    let mut buffer = Buffer::new();
    push(text, ", from second ")?;
    push(text, buffer.format(seconds.first))?;
    push(text, " to ")?;
    push(text, buffer.format(seconds.last))
}

// Appends from when to when fixes are used: from which day to which, or from which second, where times are seconds since a
// start of one's own. Where there are no times, nothing.
pub(crate) fn push_span(
    alloc: Global,
    text: &mut Vec<u8>,
    sheet: &Sheet<'_>,
    herd: &Herd<'_>,
) -> Result<(), AllocError> {
    let Some(seconds) = seconds_of(herd) else {
        return Ok(());
    };
    if sheet.columns.time.is_empty() {
        return Ok(());
    }
    let clock = sheet.times.clock;
    match (day_of(seconds.first, clock), day_of(seconds.last, clock)) {
        (Some(first), Some(last)) if !sheet.columns.is_second => {
            push_days(alloc, text, first, last)
        }
        _ => push_seconds(text, seconds),
    }
}
