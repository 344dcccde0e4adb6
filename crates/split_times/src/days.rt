// Days of the calendar.

ghost use Rattle.std.specs.Prelude.{◌≡◌, IfSome};
ghost use Rattle.jiff_core.specs.Calendar.{IsEpochDay};
ghost use Rattle.split_times.specs.Calendar.{civil_day, day_at, ordinal_day};

use jiff_core::civil::Date;

// The day of a year, a month and a day of the month, counted from 1 January 1970; `None` where the calendar has none.
#[tactic(auto, unfolding(crate::specs::Calendar::civil_day))]
pub(crate) fn civil_day(year: u32, month: u32, day: u32) -> Option<i64>
    ensures value { result ≡ civil_day year month day }
    ensures within { IfSome result IsEpochDay }
{
    if year > 9999 || month > 12 || day > 31 {
        return None;
    }
    match Date::new(year as i16, month as i8, day as i8) {
        Ok(date) => Some(i64::from(date.to_unix_epoch_day())),
        Err(_) => None,
    }
}

// The day at a place from the first day of a year on, which has 1; `None` before it, or past the last day.
fn day_at(first: i64, last: i64, place: u32) -> Option<i64>
    requires first { IsEpochDay first }
    requires last { IsEpochDay last }
    ensures value { result ≡ day_at first last place }
    ensures within { IfSome result IsEpochDay }
{
    if place == 0 {
        return None;
    }
    let day = first + i64::from(place) - 1;
    if day <= last { Some(day) } else { None }
}

// The day of a year by its place from 1 January on, which has 1, counted from 1 January 1970; `None` past 31 December.
#[tactic(auto, unfolding(crate::specs::Calendar::ordinal_day))]
pub(crate) fn ordinal_day(year: u32, place: u32) -> Option<i64>
    ensures value { result ≡ ordinal_day year place }
    ensures within { IfSome result IsEpochDay }
{
    day_at(civil_day(year, 1, 1)?, civil_day(year, 12, 31)?, place)
}
