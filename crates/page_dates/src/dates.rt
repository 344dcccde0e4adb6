// Dates as the page writes them.

ghost use Rattle.std.specs.Prelude.{◌≡◌, ◌++◌, OnOk};
ghost use Rattle.split_clock.specs.Clock.{local_second};
ghost use Rattle.page_dates.specs.Dates.{begin_text, counted, counted_period, date_if, date_text, day_text, days_period, month_name, period_if, period_text, shown_date};

use crate::calendar::date_of_day;
use page_text::push_whole;
use split_clock::Clock;
use std::alloc::AllocError;

// The seconds of a day.
const DAY: u64 = 86_400;

// The name of a month, by its number from 1 on.
fn month_name(month: u64) -> &'static [u8]
    ensures { result.now ≡ month_name month }
{
    match month {
        1 => b"Jan",
        2 => b"Feb",
        3 => b"Mar",
        4 => b"Apr",
        5 => b"May",
        6 => b"Jun",
        7 => b"Jul",
        8 => b"Aug",
        9 => b"Sep",
        10 => b"Oct",
        11 => b"Nov",
        _ => b"Dec",
    }
}

/// Appends a day, which is a year, a month and a day of it, as `20 Sep 2024`.
///
/// # Errors
///
/// Memory ran out.
pub fn push_day(text: &mut Vec<u8>, date: (u64, u64, u64)) -> Result<(), AllocError>
    ensures { OnOk result (text.new.items ≡ text.old.items ++ day_text date) }
{
    push_whole(text, u128::from(date.2))?;
    text.extend_from_slice(b" ")?;
    text.extend_from_slice(month_name(date.1))?;
    text.extend_from_slice(b" ")?;
    push_whole(text, u128::from(date.0))
}

// Appends a day of the files' own start.
fn push_counted(text: &mut Vec<u8>, second: u64) -> Result<(), AllocError>
    ensures { OnOk result (text.new.items ≡ text.old.items ++ counted second) }
{
    text.extend_from_slice(b"day ")?;
    push_whole(text, u128::from(second / DAY + 1))
}

// The date that a clock shows at a second, if it has one.
fn shown_date(clock: &Clock, dated: bool, second: u64) -> Option<(u64, u64, u64)>
    ensures { result ≡ shown_date clock.now.zone dated second }
{
    let local = clock.local_second(second);
    if dated && local >= 0 {
        date_of_day(local.unsigned_abs() / 86_400)
    } else {
        None
    }
}

/// Appends the date of a second, by a clock where seconds are dates since 1970 in UTC, as `20 Sep 2024`; else the day of the start
/// that files have of their own, as `day 3`.
///
/// # Errors
///
/// Memory ran out.
pub fn push_date(
    text: &mut Vec<u8>,
    clock: &Clock,
    dated: bool,
    second: u64,
) -> Result<(), AllocError>
    ensures { OnOk result (text.new.items ≡ text.old.items ++ date_text clock.now.zone dated second) }
{
    match shown_date(clock, dated, second) {
        Some(date) => push_day(text, date),
        None => push_counted(text, second),
    }
}

// Appends the first date of a period, without what it has in common with the last.
fn push_begin(
    text: &mut Vec<u8>,
    first: (u64, u64, u64),
    last: (u64, u64, u64),
) -> Result<(), AllocError>
    ensures { OnOk result (text.new.items ≡ text.old.items ++ begin_text first last) }
{
    if first.0 != last.0 {
        return push_day(text, first);
    }
    push_whole(text, u128::from(first.2))?;
    if first.1 != last.1 {
        text.extend_from_slice(b" ")?;
        text.extend_from_slice(month_name(first.1))?;
    }
    Ok(())
}

// Appends a period of dates.
fn push_days(
    text: &mut Vec<u8>,
    first: (u64, u64, u64),
    last: (u64, u64, u64),
) -> Result<(), AllocError>
    ensures { OnOk result (text.new.items ≡ text.old.items ++ days_period first last) }
{
    if first.0 != last.0 || first.1 != last.1 || first.2 != last.2 {
        push_begin(text, first, last)?;
        text.extend_from_slice(b" to ")?;
    }
    push_day(text, last)
}

// Appends a period of days of the files' own start.
fn push_counted_period(text: &mut Vec<u8>, first: u64, last: u64) -> Result<(), AllocError>
    ensures { OnOk result (text.new.items ≡ text.old.items ++ counted_period first last) }
{
    push_counted(text, first)?;
    if first / DAY != last / DAY {
        text.extend_from_slice(b" to ")?;
        push_whole(text, u128::from(last / DAY + 1))?;
    }
    Ok(())
}

/// Appends two dates as a period, with what both have written once: `3 to 20 Sep 2024`, or `day 1 to 3`.
///
/// # Errors
///
/// Memory ran out.
pub fn push_period(
    text: &mut Vec<u8>,
    clock: &Clock,
    dated: bool,
    first: u64,
    last: u64,
) -> Result<(), AllocError>
    ensures { OnOk result (text.new.items ≡ text.old.items ++ period_text clock.now.zone dated first last) }
{
    match (
        shown_date(clock, dated, first),
        shown_date(clock, dated, last),
    ) {
        (Some(begin), Some(end)) => push_days(text, begin, end),
        _ => push_counted_period(text, first, last),
    }
}
