// Columns that are not read and have the year, the month or the day of the year of times.

ghost use Rattle.std.specs.Prelude.{IfErr};
ghost use Rattle.split_refusal.specs.Refused.{IsOfNoFix};

use crate::passed::{refusal_of, title_at};
use crate::wish::Wish;
use split_clock::Clock;
use split_export::{Asked, Export, numbers_in, rules_of};
use split_reading::{Row, Told};
use split_refusal::{Refusal, sign_of};
use split_said::{DayShown, day_shown};
use split_titles::{is_read, is_word};
use std::alloc::{AllocError, Global};

// The seconds of a day.
const DAY: u64 = 86_400;

// A text of digits that is no number of a year and none of a clock, by which a title alone tells its sign.
const DIGITS: &[u8] = b"100";

// From which year on to which numbers may be years: those of two digits may be years of a study.
const FIRST_YEAR: u64 = 1_900;

const LAST_YEAR: u64 = 2_200;

// Titles that are those of other things too: of millimetres and minutes, Mondays, accelerations and summers.
const OTHERS: [&str; 5] = ["mm", "mon", "ay", "any", "leto"];

// Which part of a day a column has.
#[derive(Clone, Copy, PartialEq, Eq)]
enum Part {
    Year,
    Month,
    DayOfYear,
}

// Which part a column of this title has: one whose whole title says it.
fn part_of(title: &[u8]) -> Option<Part> {
    if is_word(title, &OTHERS) {
        return None;
    }
    match sign_of(title, DIGITS)?.as_bytes() {
        b"%Y" => Some(Part::Year),
        b"%m" => Some(Part::Month),
        b"%j" => Some(Part::DayOfYear),
        _ => None,
    }
}

impl Part {
    // Whether a number may be one.
    fn has(self, number: u64) -> bool {
        match self {
            Part::Year => FIRST_YEAR <= number && number <= LAST_YEAR,
            Part::Month => 1 <= number && number <= 12,
            Part::DayOfYear => number <= 366,
        }
    }

    // Whether a number is that of a day. A year may be the next one or the last one, since those of seasons are so counted.
    fn is_of(self, number: u64, day: DayShown) -> bool {
        match self {
            Part::Year => number.abs_diff(day.year) <= 1,
            Part::Month => number == day.month,
            Part::DayOfYear => number == day.day_of_year,
        }
    }

    // Whether a number is that of a day that a clock shows at a second, or of one beside it.
    fn fits(self, number: u64, second: u64, clock: &Clock) -> bool {
        let seconds = [
            second,
            second.saturating_sub(DAY),
            second.saturating_add(DAY),
        ];
        seconds.iter().any(|second| match day_shown(*second, clock) {
            Some(day) => self.is_of(number, day),
            None => false,
        })
    }
}

// The first record of which a column says another part of a day than its time does.
#[derive(Clone, Copy)]
struct Odd {
    record: u32,
    number: u64,
    second: u64,
}

// The second of a fix that is taken.
fn second_of(row: &Row) -> Option<u64> {
    match row.told {
        Told::Fix(fix) => {
            if fix.is_taken() {
                Some(fix.moment.second)
            } else {
                None
            }
        }
        Told::LeftOut(_) => None,
    }
}

// The first fix whose time a number does not fit, if that is so of more than half of those that have one, and all numbers may be
// parts of days.
fn odd_in(part: Part, clock: &Clock, rows: &[Row], numbers: &[Option<u64>]) -> Option<Odd> {
    let (mut first, mut all, mut odd): (Option<Odd>, usize, usize) = (None, 0, 0);
    for (index, (row, number)) in rows.iter().zip(numbers).enumerate() {
        let (Some(second), Some(number)) = (second_of(row), *number) else {
            continue;
        };
        if !part.has(number) {
            return None;
        }
        all = all.saturating_add(1);
        if !part.fits(number, second, clock) {
            odd = odd.saturating_add(1);
            let record = u32::try_from(index).unwrap_or(u32::MAX).saturating_add(1);
            first = Some(first.unwrap_or(Odd {
                record,
                number,
                second,
            }));
        }
    }
    if all < odd.saturating_mul(2) {
        first
    } else {
        None
    }
}

// The day of a time, as it is read.
fn day_words(alloc: Global, second: u64, clock: &Clock) -> Result<String, AllocError> {
    match day_shown(second, clock) {
        Some(day) => {
            let (year, month, day) = (day.year, day.month, day.day);
            format!(in alloc; "{year:04}-{month:02}-{day:02}")
        }
        None => format!(in alloc; "second {second}"),
    }
}

// What is said of a column that says another part of a day.
fn words_of(alloc: Global, part: Part, odd: Odd, clock: &Clock) -> Result<String, AllocError> {
    let day = day_words(alloc, odd.second, clock)?;
    let (number, record) = (odd.number, odd.record);
    let question = if part == Part::Month {
        "are day and month of the time the other way round? "
    } else {
        ""
    };
    format!(in alloc;
        "says {number} of record {record}, whose time is read as of {day}: {question}name its form, by --time-format, or remove the column"
    )
}

// Refuses a column that has a part of days, if it says others than times do.
fn refuse_column(
    alloc: Global,
    asked: &Asked<'_>,
    wish: &Wish<'_>,
    export: &Export<'_>,
    column: usize,
    part: Part,
) -> Result<(), Refusal>
    ensures { IfErr result IsOfNoFix }
{
    let Ok(rules) = rules_of(&export.columns, export.titles.len(), false, asked) else {
        return Ok(());
    };
    let rows = &export.ledger.rows;
    let numbers = match numbers_in(alloc, &export.text, &rules, column, rows.len()) {
        Ok(Some(numbers)) => numbers,
        Ok(None) => return Ok(()),
        Err(_) => return Err(Refusal::out_of_memory(alloc)),
    };
    let Some(odd) = odd_in(part, wish.clock, rows, &numbers) else {
        return Ok(());
    };
    match words_of(alloc, part, odd, wish.clock) {
        Ok(words) => Err(refusal_of(alloc, column, title_at(export, column), &words)),
        Err(_) => Err(Refusal::out_of_memory(alloc)),
    }
}

/// Refuses times beside a column that is not read and has another year, month or day of the year of most of them.
///
/// # Errors
///
/// There is such a column, or memory ran out.
pub(crate) fn refuse_parts_beside(
    alloc: Global,
    asked: &Asked<'_>,
    wish: &Wish<'_>,
    export: &Export<'_>,
) -> Result<(), Refusal>
    ensures { IfErr result IsOfNoFix }
{
    if export.columns.is_second {
        return Ok(());
    }
    for (column, title) in export.titles.iter().enumerate() {
        match part_of(title) {
            Some(part) if !is_read(&export.columns, column) => {
                refuse_column(alloc, asked, wish, export, column, part)?;
            }
            _ => {}
        }
    }
    Ok(())
}
