// Columns that are not read and say which times are by the clock of a summer.

ghost use Rattle.std.specs.Prelude.{IfErr};
ghost use Rattle.split_refusal.specs.Refused.{IsOfNoFix};

use crate::joined::Unread;
use crate::passed::{UTC, refusal_of};
use crate::wish::Wish;
use split_clock::Clock;
use split_export::{Export, Flag, Flags, flags_in};
use split_reading::{Row, Told};
use split_refusal::Refusal;
use split_titles::is_of_summer;
use std::alloc::{AllocError, Global};

// The seconds of a quarter of a year, and of half of one. Of any time one that lies so far before it or behind it is not of the summer.
const QUARTER: u64 = 7_862_400;

const HALF: u64 = 15_724_800;

// Whether a clock is farther ahead of UTC at a second than in another part of the year.
fn is_of_summer_at(clock: &Clock, second: u64) -> bool {
    let own = clock.offset_at(second);
    own > clock.offset_at(second.saturating_sub(QUARTER))
        || own > clock.offset_at(second.saturating_add(QUARTER))
        || own > clock.offset_at(second.saturating_sub(HALF))
        || own > clock.offset_at(second.saturating_add(HALF))
}

// Whether a flag says otherwise than a clock whether the time of a row is of a summer.
fn is_odd(clock: &Clock, row: &Row, flag: Flag) -> bool {
    match row.told {
        Told::Fix(fix) if fix.is_local && flag != Flag::Missing => {
            is_of_summer_at(clock, fix.moment.second) != (flag == Flag::Set)
        }
        _ => false,
    }
}

// The first record of which a flag says otherwise than a clock whether its time is of a summer.
fn first_odd(clock: &Clock, rows: &[Row], flags: &[Flag]) -> Option<u32> {
    for (index, row) in rows.iter().enumerate() {
        let flag = flags.get(index).copied().unwrap_or(Flag::Missing);
        if is_odd(clock, row, flag) {
            return Some(u32::try_from(index).unwrap_or(u32::MAX).saturating_add(1));
        }
    }
    None
}

// What is said of a column that says so of this record.
fn words_of(alloc: Global, wish: &Wish<'_>, record: u32) -> Result<String, AllocError> {
    let name = wish.clock_name;
    if name == UTC {
        format!(in alloc;
            "says that times are by the clock of a summer (record {record}), and they are read as those of UTC: name their zone, as by \
             --tz Europe/Ljubljana, or write the offset behind each time, and remove it"
        )
    } else {
        format!(in alloc;
            "says otherwise than the clock of {name} which times are of the summer (record {record}): write the offset behind each \
             time, as in 2024-05-01 00:30+02:00, or name their own zone, by --tz, and remove it"
        )
    }
}

// The refusal of a column of this title that says so of this record.
fn refusal_in(alloc: Global, wish: &Wish<'_>, column: usize, title: &[u8], record: u32) -> Refusal
    ensures { IsOfNoFix result }
{
    match words_of(alloc, wish, record) {
        Ok(words) => refusal_of(alloc, column, title, &words),
        Err(_) => Refusal::out_of_memory(alloc),
    }
}

// Refuses a column of flags of the summer, if it says otherwise than the clock by which times are read.
fn refuse_column(
    alloc: Global,
    wish: &Wish<'_>,
    export: &Export<'_>,
    column: usize,
    title: &[u8],
) -> Result<(), Refusal>
    ensures { IfErr result IsOfNoFix }
{
    let rows = &export.ledger.rows;
    let flags = match flags_in(alloc, &export.text, column, rows.len(), Flags::Plain) {
        Ok(Some(flags)) => flags,
        Ok(None) => return Ok(()),
        Err(_) => return Err(Refusal::out_of_memory(alloc)),
    };
    match first_odd(wish.clock, rows, &flags) {
        Some(record) => Err(refusal_in(alloc, wish, column, title, record)),
        None => Ok(()),
    }
}

/// Refuses times of which a column that is not read says otherwise than their clock whether they are of a summer.
///
/// # Errors
///
/// There is such a column, or memory ran out.
pub(crate) fn refuse_summers(
    alloc: Global,
    wish: &Wish<'_>,
    export: &Export<'_>,
    unread: Unread<'_>,
) -> Result<(), Refusal>
    ensures { IfErr result IsOfNoFix }
{
    if export.columns.time.is_empty() || export.columns.is_second {
        return Ok(());
    }
    for column in unread.columns {
        let title = unread.title(*column);
        if is_of_summer(title) {
            refuse_column(alloc, wish, export, *column, title)?;
        }
    }
    Ok(())
}
