// Times in UTC, and seconds that are no dates.

ghost use Rattle.std.specs.Prelude.{◌≡◌, ◌++◌, ◌<◌, OnOk};
ghost use Rattle.page_tables.specs.Times.{clock_text, date_text, time_cell, time_text};

use crate::numbers::push_padded;
use page_dates::date_of_day;
use page_facts::END_OF_DATES;
use page_text::push_whole;
use std::alloc::AllocError;

// The seconds of a day.
const DAY: u64 = 86_400;

// Appends a date.
fn push_date(text: &mut Vec<u8>, day: u64) -> Result<(), AllocError>
    requires { day < 200_000 }
    ensures { OnOk result (text.new.items ≡ text.old.items ++ date_text day) }
{
    let Some((year, month, day)) = date_of_day(u128::from(day)) else {
        return Ok(());
    };
    push_padded(text, 4, year)?;
    text.extend_from_slice(b"-")?;
    push_padded(text, 2, month)?;
    text.extend_from_slice(b"-")?;
    push_padded(text, 2, day)
}

// Appends the time of a second of a day.
fn push_clock(text: &mut Vec<u8>, second: u64) -> Result<(), AllocError>
    ensures { OnOk result (text.new.items ≡ text.old.items ++ clock_text second) }
{
    push_padded(text, 2, second / 3_600)?;
    text.extend_from_slice(b":")?;
    push_padded(text, 2, second / 60 % 60)?;
    text.extend_from_slice(b":")?;
    push_padded(text, 2, second % 60)
}

// Appends the date and the time of a second since 1970.
fn push_time(text: &mut Vec<u8>, second: u64) -> Result<(), AllocError>
    requires { second < END_OF_DATES }
    ensures { OnOk result (text.new.items ≡ text.old.items ++ time_text second) }
{
    push_date(text, second / DAY)?;
    text.extend_from_slice(b"T")?;
    push_clock(text, second % DAY)?;
    text.extend_from_slice(b"Z")
}

/// Appends the cell of a time, which is empty where there is none. A second that is no date is written as a number.
#[tactic(auto, unfolding(crate::specs::Times::time_cell))]
pub(crate) fn push_time_cell(
    text: &mut Vec<u8>,
    dated: bool,
    second: Option<u64>,
) -> Result<(), AllocError>
    ensures { OnOk result (text.new.items ≡ text.old.items ++ time_cell dated second) }
{
    match second {
        Some(second) if dated && second < END_OF_DATES => push_time(text, second),
        Some(second) => push_whole(text, u128::from(second)),
        None => Ok(()),
    }
}
