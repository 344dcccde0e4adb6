// By which form and which clock the times of a table are read.

ghost use Rattle.std.specs.Prelude.{IfErr};
ghost use Rattle.split_refusal.specs.Refused.{IsOfNoFix};

use crate::other_clocks::refuse_other_clocks;
use crate::other_times::refuse_other_times;
use crate::parts_beside::refuse_parts_beside;
use crate::passed::{UTC, refusal_of, title_at};
use crate::read::{day_refusal, untimed_refusal};
use crate::wish::Wish;
use range_plane::OutOfMemory;
use split_export::{
    Asked, Export, TimesLook, column_of_times, first_of_utc, look_at_times, rules_of,
};
use split_refusal::{Kind, Refusal, sign_of};
use split_titles::{ClockDoubt, clock_doubt, not_read};
use std::alloc::{AllocError, Global};

// Refuses a table without a column of the time where one that is not read has times.
fn refuse_unread_times(alloc: Global, asked: &Asked<'_>, export: &Export<'_>) -> Result<(), Refusal>
    ensures { IfErr result IsOfNoFix }
{
    let width = export.titles.len();
    let Ok(rules) = rules_of(&export.columns, width, false, asked) else {
        return Ok(());
    };
    let Ok(others) = not_read(alloc, &export.columns, width) else {
        return Err(Refusal::out_of_memory(alloc));
    };
    match column_of_times(
        alloc,
        &export.text,
        &rules,
        &others,
        export.ledger.rows.len(),
    ) {
        Ok(Some(column)) => Err(untimed_refusal(alloc, &export.titles, column)),
        Ok(None) => Ok(()),
        Err(_) => Err(Refusal::out_of_memory(alloc)),
    }
}

// The first column of the time whose title says another clock than that of UTC.
fn local_column(export: &Export<'_>) -> Option<usize> {
    for column in &export.columns.time {
        if clock_doubt(title_at(export, *column), None) == Some(ClockDoubt::Local) {
            return Some(*column);
        }
    }
    None
}

// Why a column is refused that says another clock than that of UTC, and of which the time of this record ends with `Z`.
fn utc_words(alloc: Global, record: u32) -> Result<String, AllocError> {
    format!(in alloc;
        "says another clock than that of UTC, and the time of record {record} ends as those of UTC do: rename the column, or \
         write the times of that clock without a zone, and name its zone, as by --tz Europe/Ljubljana"
    )
}

// The refusal of a column that says another clock than that of UTC, and of which the time of this record ends with `Z`.
fn utc_refusal(alloc: Global, export: &Export<'_>, column: usize, record: u32) -> Refusal
    ensures { IsOfNoFix result }
{
    match utc_words(alloc, record) {
        Ok(words) => refusal_of(alloc, column, title_at(export, column), &words),
        Err(_) => Refusal::out_of_memory(alloc),
    }
}

/// Whether the zone that was named is one of another clock than that of UTC.
pub(crate) fn is_of_other_clock(asked: &Asked<'_>) -> bool {
    clock_doubt(UTC.as_bytes(), asked.named.zone) == Some(ClockDoubt::Utc)
}

// Refuses times of UTC under a title that says another clock, where a zone of such a one was named.
fn refuse_times_of_utc(alloc: Global, asked: &Asked<'_>, export: &Export<'_>) -> Result<(), Refusal>
    ensures { IfErr result IsOfNoFix }
{
    let column = match local_column(export) {
        Some(column) if is_of_other_clock(asked) => column,
        _ => return Ok(()),
    };
    let Ok(rules) = rules_of(&export.columns, export.titles.len(), false, asked) else {
        return Ok(());
    };
    match first_of_utc(alloc, &export.text, &rules, &export.ledger.rows) {
        Ok(Some(record)) => Err(utc_refusal(alloc, export, column, record)),
        Ok(None) => Ok(()),
        Err(_) => Err(Refusal::out_of_memory(alloc)),
    }
}

// A text of digits that is no number of a year and none of a clock, by which a title alone tells its sign.
const DIGITS: &[u8] = b"100";

// The first of signs of one thing: `%Y` also for `%y`, `%m` for `%b`, and `%H` for `%I`; none of what is no sign alone.
fn first_sign(part: &str) -> Option<&'static str> {
    match part.as_bytes() {
        b"%Y" | b"%y" => Some("%Y"),
        b"%m" | b"%b" => Some("%m"),
        b"%d" => Some("%d"),
        b"%j" => Some("%j"),
        b"%H" | b"%I" => Some("%H"),
        b"%M" => Some("%M"),
        b"%S" => Some("%S"),
        _ => None,
    }
}

// Whether the title of a column says a sign other than this part of a form.
fn is_other_sign(title: &[u8], part: &str) -> bool {
    match (sign_of(title, DIGITS), first_sign(part)) {
        (Some(own), Some(sign)) => own != sign,
        _ => false,
    }
}

// The first column of several that are joined whose title says another sign than the form has at its place, and what it has there.
fn first_other<'a>(export: &Export<'_>, form: &'a str) -> Option<(usize, &'a str)> {
    for (column, part) in export.columns.time.iter().zip(form.split(' ')) {
        if is_other_sign(title_at(export, *column), part) {
            return Some((*column, part));
        }
    }
    None
}

// Why a column that is joined is refused, which this part of the form stands for.
fn sign_words(alloc: Global, part: &str) -> Result<String, AllocError> {
    format!(in alloc;
        "is read as {part}, by its place among the columns of the time: put the signs of --time-format in the order of these columns"
    )
}

// Refuses columns of a time whose titles say other signs than the form has at their places, where it has one sign for each.
fn refuse_other_signs(alloc: Global, wish: &Wish<'_>, export: &Export<'_>) -> Result<(), Refusal>
    ensures { IfErr result IsOfNoFix }
{
    let is_one = !wish.forms.contains("|")
        && wish.forms.split(' ').count() == export.columns.time.len();
    if !is_one {
        return Ok(());
    }
    let Some((column, part)) = first_other(export, wish.forms) else {
        return Ok(());
    };
    match sign_words(alloc, part) {
        Ok(words) => Err(refusal_of(alloc, column, title_at(export, column), &words)),
        Err(_) => Err(Refusal::out_of_memory(alloc)),
    }
}

// The refusal of the time of a record that may have lost the zeros at the end of a number.
fn zero_refusal(alloc: Global, record: u32) -> Refusal
    ensures { IsOfNoFix result }
{
    Refusal::new(
        alloc,
        Kind::Time,
        Some(record),
        b"its time may have lost a zero at its end, as a spreadsheet takes 7.30 for the number 7.3: write all digits of minutes, months and \
          days of the year",
    )
}

// Looks at the times of an export; none where there are no rules for it.
fn look_by(
    alloc: Global,
    export: &Export<'_>,
    asked: &Asked<'_>,
    wish: &Wish<'_>,
) -> Result<Option<TimesLook>, Refusal>
    ensures { IfErr result IsOfNoFix }
{
    let Ok(rules) = rules_of(&export.columns, export.titles.len(), false, asked) else {
        return Ok(None);
    };
    match look_at_times(
        alloc,
        &export.text,
        &rules,
        wish.forms.as_bytes(),
        &export.ledger.rows,
    ) {
        Ok(look) => Ok(Some(look)),
        Err(_) => Err(Refusal::out_of_memory(alloc)),
    }
}

// Those of forms that are used, as they are said.
fn used_forms(alloc: Global, forms: &str, used: &[bool]) -> Result<Vec<u8>, OutOfMemory> {
    let mut words = Vec::new(alloc);
    for (form, is_used) in forms.split('|').zip(used) {
        if *is_used {
            if !words.is_empty() {
                words.extend_from_slice(b" and ")?;
            }
            words.extend_from_slice(form.as_bytes())?;
        }
    }
    if words.is_empty() {
        words.extend_from_slice(b"ISO text")?;
    }
    Ok(words)
}

// In which form times are read, as it is said; empty where it goes without saying.
fn form_words(alloc: Global, wish: &Wish<'_>, used: &[bool]) -> Result<Vec<u8>, OutOfMemory> {
    if wish.forms.is_empty() && wish.clock_name == UTC {
        return Ok(Vec::new(alloc));
    }
    used_forms(alloc, wish.forms, used)
}

/// In which form the times of an export are read, as it is said; empty where it goes without saying.
///
/// # Errors
///
/// All times are numbers that may be days with hours; times of UTC stand under a title of another clock; a title says another clock than that of the zone; a time may have lost a zero; a column that is not read has other times, or parts of other days; no column of the time has a usual title, and one of another title has times;
/// or memory ran out.
pub(crate) fn form_of_times(
    alloc: Global,
    bytes: &[u8],
    asked: &Asked<'_>,
    wish: &Wish<'_>,
    export: &Export<'_>,
) -> Result<Vec<u8>, Refusal>
    ensures { IfErr result IsOfNoFix }
{
    if export.columns.time.is_empty() {
        refuse_unread_times(alloc, asked, export)?;
        return Ok(Vec::new(alloc));
    }
    refuse_other_signs(alloc, wish, export)?;
    refuse_times_of_utc(alloc, asked, export)?;
    refuse_other_clocks(alloc, asked, wish, export)?;
    let Some(look) = look_by(alloc, export, asked, wish)? else {
        return Ok(Vec::new(alloc));
    };
    if let Some((record, orders)) = look.day {
        return Err(day_refusal(alloc, bytes, record, orders, &export.columns, wish));
    }
    if let Some(record) = look.without_zero {
        return Err(zero_refusal(alloc, record));
    }
    refuse_other_times(alloc, asked, wish, export)?;
    refuse_parts_beside(alloc, asked, wish, export)?;
    match form_words(alloc, wish, &look.forms) {
        Ok(words) => Ok(words),
        Err(_) => Err(Refusal::out_of_memory(alloc)),
    }
}
