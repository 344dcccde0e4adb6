// When a record was.

ghost use Rattle.std.specs.Prelude.{◌≡◌, ◌++◌, ◌∷◌, ◌<◌, IfOk, OnOk};
ghost use Rattle.std.specs.List.{flat_map, list_any};
ghost use Rattle.csv.specs.Records.{fields_of};
ghost use Rattle.split_reading.specs.Cells.{cell, is_missing};
ghost use Rattle.split_reading.specs.Moments.{IsTimelyMoment, clocked, moment_in, second_in, text_in, text_moment, time_text};
ghost use Rattle.split_times.specs.Limits.{IsTimely};

use crate::cells::{cell, is_missing};
use crate::fault::CellFault;
use crate::rules::Rules;
use csv::ByteRecord;
use range_plane::{OutOfMemory, SECOND_LIMIT};
use split_clock::{Clock, ClockMoment, clock_moment};
use split_times::{Moment, TextFault, TextTime, seconds_in, text_time};

// What tells when a record was.
#[derive(Clone, Copy)]
pub(crate) struct When<'a> {
    // The number of the record.
    pub number: u32,
    // The text of its time.
    pub text: &'a [u8],
    // The moment of the last fix of the same animal.
    pub before: Option<Moment>,
}

// Whether a record has nothing in one of some columns.
fn is_any_missing(fields: &ByteRecord, columns: &[usize], rules: &Rules<'_, '_>) -> bool
    ensures { result ≡ list_any (λ column. is_missing (cell rules.now (fields_of «fields».now) column)) columns.now }
{
    match columns.split_first() {
        None => false,
        Some((column, others)) => {
            is_missing(cell(fields, *column, rules)) || is_any_missing(fields, others, rules)
        }
    }
}

// Appends what a record has in some columns, with a blank before each.
fn push_texts(
    text: &mut Vec<u8>,
    fields: &ByteRecord,
    columns: &[usize],
    rules: &Rules<'_, '_>,
) -> Result<(), OutOfMemory>
    ensures { OnOk result (text.new.items ≡ text.old.items ++ flat_map (λ column. 32 ∷ cell rules.now (fields_of «fields».now) column) columns.now) }
{
    match columns.split_first() {
        None => Ok(()),
        Some((column, others)) => {
            text.push(b' ')?;
            text.extend_from_slice(cell(fields, *column, rules))?;
            push_texts(text, fields, others, rules)
        }
    }
}

// The text of the time of a record whose several columns are joined in a buffer.
fn joined_text<'a>(
    buffer: &'a mut Vec<u8>,
    fields: &ByteRecord,
    columns: &[usize],
    rules: &Rules<'_, '_>,
) -> Result<&'a [u8], OutOfMemory>
    ensures { IfOk result (λ text. text.now ≡ text_in rules.now columns.now (fields_of «fields».now)) }
{
    if is_any_missing(fields, columns, rules) {
        return Ok(b"");
    }
    buffer.clear();
    push_texts(buffer, fields, columns, rules)?;
    match buffer.split_first() {
        None => Ok(b""),
        Some((_blank, text)) => Ok(text),
    }
}

/// The text of the time of a record by the rules; empty where a column of the time has nothing. Where it stands in several columns
/// they are joined in a buffer, with a blank between.
///
/// # Errors
///
/// Memory ran out.
pub fn time_text<'a>(
    buffer: &'a mut Vec<u8>,
    fields: &'a ByteRecord,
    rules: &Rules<'_, '_>,
) -> Result<&'a [u8], OutOfMemory>
    ensures { IfOk result (λ text. text.now ≡ time_text rules.now (fields_of «fields».entry.now)) }
{
    match rules.time {
        [] => Ok(b""),
        [column] => {
            let text = cell(fields, *column, rules);
            if is_missing(text) { Ok(b"") } else { Ok(text) }
        }
        columns => joined_text(buffer, fields, columns, rules),
    }
}

// Seconds since a start of one's own.
fn second_in(text: &[u8]) -> Result<ClockMoment, CellFault>
    ensures value { result ≡ second_in text.now }
    ensures timely { IfOk result (λ found. IsTimelyMoment found.moment) }
{
    match seconds_in(text) {
        Some(moment) if moment.second <= SECOND_LIMIT => Ok(ClockMoment {
            moment,
            is_local: false,
            is_twice: false,
        }),
        _ => Err(CellFault::NotSecond),
    }
}

// The moment of a time by the clock of a record behind one of the same animal.
fn clocked(
    time: TextTime,
    rules: &Rules<'_, '_>,
    before: Option<Moment>,
) -> Result<ClockMoment, CellFault>
    requires { IsTimely time }
    ensures value { result ≡ clocked rules.now before time }
    ensures timely { IfOk result (λ found. IsTimelyMoment found.moment) }
{
    let found = match rules.clock {
        Some(clock) => clock_moment(time, clock, before),
        None => clock_moment(time, &Clock::utc(), before),
    };
    match found {
        Ok(moment) => Ok(moment),
        Err(fault) => Err(CellFault::Clock { fault }),
    }
}

// The moment of a text that is a time.
fn text_moment(
    text: &[u8],
    rules: &Rules<'_, '_>,
    before: Option<Moment>,
) -> Result<ClockMoment, CellFault>
    ensures value { result ≡ text_moment rules.now before text.now }
    ensures timely { IfOk result (λ found. IsTimelyMoment found.moment) }
{
    if text.is_empty() {
        return Err(CellFault::NoTime);
    }
    if rules.is_second {
        return second_in(text);
    }
    match text_time(text, rules.forms) {
        Ok(time) => clocked(time, rules, before),
        Err(TextFault::Time(fault)) => Err(CellFault::Time { fault }),
        Err(TextFault::Number(fault)) => Err(CellFault::Number { fault }),
    }
}

// The moment of a record.
pub(crate) fn moment_in(
    fields: &ByteRecord,
    when: When<'_>,
    rules: &Rules<'_, '_>,
) -> Result<ClockMoment, CellFault>
    requires number { 0 < when.number }
    requires text { when.text.now ≡ time_text rules.now (fields_of «fields».now) }
    ensures value { result ≡ moment_in rules.now when.entry.number when.entry.before (fields_of «fields».now) }
    ensures timely { IfOk result (λ found. IsTimelyMoment found.moment) }
{
    if rules.time.is_empty() {
        return Ok(ClockMoment {
            moment: Moment {
                second: u64::from(when.number - 1),
                nanosecond: 0,
            },
            is_local: false,
            is_twice: false,
        });
    }
    text_moment(when.text, rules, when.before)
}
