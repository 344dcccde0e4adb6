// Columns that are not read and say which half of the day it was.

ghost use Rattle.std.specs.Prelude.{IfErr};
ghost use Rattle.split_refusal.specs.Refused.{IsOfNoFix};

use crate::joined::Unread;
use crate::passed::{DAY, refusal_of};
use crate::wish::Wish;
use split_clock::Clock;
use split_export::{Export, Flag, Flags, flags_in};
use split_reading::{Row, Told};
use split_refusal::Refusal;
use split_titles::{has_word, is_of_afternoon, is_of_halves};
use std::alloc::Global;

// The seconds of a day before noon.
const NOON: i128 = 43_200;

// What is said of such a column that says otherwise than the clocks of times.
const WORDS: &str =
    "has halves of the day, and is not read: write them AM and PM and join it to the time, as by --time TIME,COLUMN with %p \
     in --time-format, or remove it";

// Whether the words of a title are those of a column that says which times are before noon.
fn is_of_forenoon(title: &[u8]) -> bool {
    let is_asked = has_word(title, &["is"]) && has_word(title, &["am"]);
    (has_word(title, &["isam"]) || is_asked) && !has_word(title, &["pm"])
}

// Which half of the day the flags of a column say that are set: that behind noon, or that before it.
#[derive(Clone, Copy)]
struct Half {
    is_behind_noon: bool,
}

impl Half {
    // Whether a second is of this half by a clock.
    fn has(self, clock: &Clock, second: u64) -> bool {
        match clock.local_second(second).checked_rem(DAY) {
            Some(of_day) => (NOON <= of_day) == self.is_behind_noon,
            None => false,
        }
    }
}

// Whether a flag says otherwise than a clock whether the fix of a row, if it has one, was of a half of the day.
fn is_odd(half: Half, clock: &Clock, row: &Row, flag: Flag) -> bool {
    match row.told {
        Told::Fix(fix) => {
            flag == Flag::Missing || half.has(clock, fix.moment.second) != (flag == Flag::Set)
        }
        Told::LeftOut(_) => false,
    }
}

// Whether flags say of all rows as a clock does which of them were of a half of the day.
fn say_clocks(half: Half, clock: &Clock, rows: &[Row], flags: &[Flag]) -> bool {
    for (index, row) in rows.iter().enumerate() {
        let flag = flags.get(index).copied().unwrap_or(Flag::Missing);
        if is_odd(half, clock, row, flag) {
            return false;
        }
    }
    true
}

// Refuses a column of halves of the day, unless all times have them in their clocks.
fn refuse_column(
    alloc: Global,
    wish: &Wish<'_>,
    export: &Export<'_>,
    column: usize,
    title: &[u8],
) -> Result<(), Refusal>
    ensures { IfErr result IsOfNoFix }
{
    let rows = &export.ledger.rows;
    let is_forenoon = is_of_forenoon(title);
    let half = Half {
        is_behind_noon: !is_forenoon,
    };
    let kind = if is_forenoon || is_of_afternoon(title) {
        Flags::Plain
    } else {
        Flags::Halves
    };
    match flags_in(alloc, &export.text, column, rows.len(), kind) {
        Ok(Some(flags)) if say_clocks(half, wish.clock, rows, &flags) => Ok(()),
        Ok(_) => Err(refusal_of(alloc, column, title, WORDS)),
        Err(_) => Err(Refusal::out_of_memory(alloc)),
    }
}

/// Refuses times beside a column that is not read and says which half of the day it was, unless their clocks say the same of all.
///
/// # Errors
///
/// There is such a column, or memory ran out.
pub(crate) fn refuse_halves(
    alloc: Global,
    wish: &Wish<'_>,
    export: &Export<'_>,
    unread: Unread<'_>,
) -> Result<(), Refusal>
    ensures { IfErr result IsOfNoFix }
{
    if export.columns.time.is_empty() || export.columns.is_second {
        return Ok(());
    }
    for (column, texts) in unread.columns.iter().zip(unread.texts) {
        let title = unread.title(*column);
        let is_one = texts.are_halves || is_of_halves(title) || is_of_afternoon(title);
        if texts.are_there && is_one {
            refuse_column(alloc, wish, export, *column, title)?;
        }
    }
    Ok(())
}
