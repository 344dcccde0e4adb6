// Titles and forms of times, and columns of offsets, that say another clock than that of the zone that was named, at the times of fixes.

ghost use Rattle.std.specs.Prelude.{IfErr};
ghost use Rattle.split_refusal.specs.Refused.{IsOfNoFix};

use crate::joined::Unread;
use crate::passed::{UTC, says_offset, title_at};
use crate::wish::Wish;
use range_plane::OutOfMemory;
use split_clock::Clock;
use split_export::{Asked, Export};
use split_reading::{Row, Told};
use split_refusal::{Kind, Refusal};
use split_said::Said;
use split_titles::{SaidOffset, offset_said, trimmed};
use std::alloc::{AllocError, Global};

// The minutes of an hour, and the seconds of a minute.
const HOUR: u64 = 60;

const MINUTE: i64 = 60;

// A fix at whose time a clock is otherwise ahead of UTC than is said.
#[derive(Clone, Copy)]
struct Other {
    // The column of which the title says it, or none where the form of times does.
    column: Option<usize>,
    said: SaidOffset,
    record: usize,
    minutes: i64,
}

// The second of a fix that is read by the clock.
fn local_second(row: &Row) -> Option<u64> {
    match row.told {
        Told::Fix(fix) if fix.is_local => Some(fix.moment.second),
        _ => None,
    }
}

// By how many minutes a clock is ahead of UTC.
fn minutes_ahead(clock: &Clock, second: u64) -> i64 {
    clock.offset_at(second).checked_div(MINUTE).unwrap_or(0)
}

// The first fix at whose time the clock is otherwise ahead of UTC than is said.
fn first_other(
    rows: &[Row],
    clock: &Clock,
    column: Option<usize>,
    said: SaidOffset,
) -> Option<Other> {
    for (record, row) in rows.iter().enumerate() {
        let Some(second) = local_second(row) else {
            continue;
        };
        let minutes = minutes_ahead(clock, second);
        if minutes != said.minutes {
            return Some(Other {
                column,
                said,
                record,
                minutes,
            });
        }
    }
    None
}

// What is said by titles of times.
fn other_by_titles(export: &Export<'_>, clock: &Clock) -> Option<Other> {
    for column in &export.columns.time {
        let said = offset_said(trimmed(title_at(export, *column)));
        let other = match said {
            Some(said) => first_other(&export.ledger.rows, clock, Some(*column), said),
            None => None,
        };
        if other.is_some() {
            return other;
        }
    }
    None
}

// What is said by forms of times, if one was named alone.
fn other_by_form(export: &Export<'_>, wish: &Wish<'_>, clock: &Clock) -> Option<Other> {
    if wish.forms.contains("|") {
        return None;
    }
    let said = offset_said(wish.forms.as_bytes())?;
    first_other(&export.ledger.rows, clock, None, said)
}

// What titles or the form of times say otherwise than the clock of the zone that was named.
fn other_in(asked: &Asked<'_>, wish: &Wish<'_>, export: &Export<'_>) -> Option<Other> {
    asked.named.zone?;
    let clock = asked.clock?;
    let by_titles = other_by_titles(export, clock);
    if by_titles.is_some() {
        return by_titles;
    }
    other_by_form(export, wish, clock)
}

// How far a clock is ahead of UTC or behind it.
fn ahead_words(alloc: Global, minutes: i64) -> Result<String, AllocError> {
    let all = minutes.unsigned_abs();
    let (hours, rest) = (all / HOUR, all % HOUR);
    let side = if minutes < 0 { "behind" } else { "ahead of" };
    if minutes == 0 {
        String::from_str(alloc, "that of UTC")
    } else if rest == 0 {
        format!(in alloc; "{hours} h {side} UTC")
    } else {
        format!(in alloc; "{hours} h {rest} min {side} UTC")
    }
}

// What says a clock, as it is named.
fn subject_words(alloc: Global, export: &Export<'_>, other: Other) -> Result<String, AllocError> {
    let Some(column) = other.column else {
        return String::from_str(alloc, "time-format");
    };
    let title = str::from_utf8(trimmed(title_at(export, column))).unwrap_or("");
    let number = column.saturating_add(1);
    format!(in alloc; "column {number} '{title}'")
}

// That a clock is another one than is said.
fn other_words(
    alloc: Global,
    wish: &Wish<'_>,
    export: &Export<'_>,
    other: Other,
) -> Result<String, AllocError> {
    let subject = subject_words(alloc, export, other)?;
    let own = ahead_words(alloc, other.said.minutes)?;
    let clock = ahead_words(alloc, other.minutes)?;
    let (zone, record) = (wish.clock_name, other.record.saturating_add(1));
    format!(in alloc;
        "{subject} says a clock that is {own}, and that of {zone} is {clock} at the time of record {record}"
    )
}

// The option of the zone that is so far ahead of UTC, of whole hours; and else what has to be named.
fn zone_words(alloc: Global, minutes: i64, rest: &str) -> Result<String, AllocError> {
    let all = minutes.unsigned_abs();
    if all % HOUR != 0 || all == 0 {
        return format!(in alloc; ": name its zone, by --tz, or {rest} it");
    }
    let hours = all / HOUR;
    let sign = if minutes < 0 { '+' } else { '-' };
    format!(in alloc; ": name its zone, as by --tz Etc/GMT{sign}{hours}, or {rest} it")
}

// The refusal of another clock than is said, with what else may be done about what says it.
fn refusal_of(
    alloc: Global,
    wish: &Wish<'_>,
    export: &Export<'_>,
    other: Other,
    rest: &str,
) -> Refusal
    ensures { IsOfNoFix result }
{
    let Ok(mut text) = other_words(alloc, wish, export, other) else {
        return Refusal::out_of_memory(alloc);
    };
    match zone_words(alloc, other.said.minutes, rest) {
        Ok(words) if text.push_str(&words).is_ok() => {
            Refusal::new(alloc, Kind::Columns, None, text.as_bytes())
        }
        _ => Refusal::out_of_memory(alloc),
    }
}

/// Refuses times read by a clock that at the time of a fix is otherwise ahead of UTC than a title or the form of times says by a number.
///
/// # Errors
///
/// They are, or memory ran out.
pub(crate) fn refuse_other_clocks(
    alloc: Global,
    asked: &Asked<'_>,
    wish: &Wish<'_>,
    export: &Export<'_>,
) -> Result<(), Refusal>
    ensures { IfErr result IsOfNoFix }
{
    match other_in(asked, wish, export) {
        Some(other) if other.said.is_number => {
            Err(refusal_of(alloc, wish, export, other, "rename"))
        }
        _ => Ok(()),
    }
}

// The offset that is the one text of a column, which may have no sign.
fn offset_in(alloc: Global, text: &[u8]) -> Result<Option<SaidOffset>, AllocError> {
    let has_sign = !text.first().is_some_and(u8::is_ascii_digit);
    let begin = if has_sign { "UTC" } else { "UTC+" };
    let mut word = Vec::from_slice(alloc, begin.as_bytes())?;
    word.extend_from_slice(text)?;
    match offset_said(text) {
        None => Ok(offset_said(&word)),
        said => Ok(said),
    }
}

// What the one text of a column of offsets says otherwise than the clock of the zone that was named.
fn other_by_text(
    alloc: Global,
    wish: &Wish<'_>,
    export: &Export<'_>,
    column: usize,
    text: &[u8],
) -> Result<Option<Other>, AllocError> {
    match offset_in(alloc, text)? {
        Some(said) if said.is_number => {
            Ok(first_other(&export.ledger.rows, wish.clock, Some(column), said))
        }
        _ => Ok(None),
    }
}

/// Refuses times read by a clock that at the time of a fix is otherwise ahead of UTC than a column of one offset says.
///
/// # Errors
///
/// They are, or memory ran out.
pub(crate) fn refuse_offsets(
    alloc: Global,
    wish: &Wish<'_>,
    export: &Export<'_>,
    unread: Unread<'_>,
) -> Result<(), Refusal>
    ensures { IfErr result IsOfNoFix }
{
    if wish.clock_name == UTC {
        return Ok(());
    }
    for (column, texts) in unread.columns.iter().zip(unread.texts) {
        let text = match texts.only() {
            Some(text) if says_offset(unread.title(*column)) => text,
            _ => continue,
        };
        match other_by_text(alloc, wish, export, *column, text) {
            Ok(Some(other)) => return Err(refusal_of(alloc, wish, export, other, "remove")),
            Ok(None) => {}
            Err(_) => return Err(Refusal::out_of_memory(alloc)),
        }
    }
    Ok(())
}

// Asks it where an abbreviation says it.
fn tell(
    alloc: Global,
    said: &mut Said,
    asked: &Asked<'_>,
    wish: &Wish<'_>,
    export: &Export<'_>,
) -> Result<(), OutOfMemory> {
    let other = match other_in(asked, wish, export) {
        Some(other) if !other.said.is_number => other,
        _ => return Ok(()),
    };
    let mut text = other_words(alloc, wish, export, other)?;
    text.push_str(": is it that one in all seasons?")?;
    said.say(alloc, text.as_bytes())
}

/// Asks about times read by a clock that at the time of a fix is otherwise ahead of UTC than a title or the form of times says by an
/// abbreviation, as CET in summer.
///
/// # Errors
///
/// Memory ran out.
pub(crate) fn tell_other_clocks(
    alloc: Global,
    said: &mut Said,
    asked: &Asked<'_>,
    wish: &Wish<'_>,
    export: &Export<'_>,
) -> Result<(), Refusal>
    ensures { IfErr result IsOfNoFix }
{
    match tell(alloc, said, asked, wish, export) {
        Ok(()) => Ok(()),
        Err(_) => Err(Refusal::out_of_memory(alloc)),
    }
}
