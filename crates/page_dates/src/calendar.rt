// Days of the calendar.

ghost use Rattle.std.specs.Prelude.{◌≡◌, ◌<◌, pos};
ghost use Rattle.jiff_core.specs.Date.{epoch_day};
ghost use Rattle.page_dates.specs.Calendar.{date_of_day, day_after};

use jiff_core::civil::Date;

/// The day with which dates end, counted from 1 January 1970: in the year 2517.
pub const END_OF_DAYS: u128 = 200_000;

// The date of a day from 1970 on.
fn date_of(day: u128) -> Date
    requires { day < END_OF_DAYS }
    ensures { epoch_day result ≡ pos day }
{
    match Date::from_unix_epoch_day(day as i64) {
        Ok(date) => date,
        Err(_never) => Date::MAX,
    }
}

// The year, the month and the day of a day from 1970 on.
fn parts_of(day: u128) -> (u64, u64, u64)
    requires { day < END_OF_DAYS }
    ensures { result ≡ day_after day }
{
    let date = date_of(day);
    let year = u64::from(date.year.unsigned_abs());
    (year, u64::from(date.month), u64::from(date.day))
}

/// The year, the month and the day of a day, counted from 1 January 1970; none from [`END_OF_DAYS`] on.
pub fn date_of_day(day: u128) -> Option<(u64, u64, u64)>
    ensures { result ≡ date_of_day day }
{
    if day < END_OF_DAYS {
        Some(parts_of(day))
    } else {
        None
    }
}
