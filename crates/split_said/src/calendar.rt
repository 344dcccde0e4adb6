// The days that clocks show.

use jiff_core::civil::Date;
use split_clock::Clock;

// The seconds of a day.
const DAY: i128 = 86_400;

/// A day of the calendar, and which it is of its year, of which the first is 1.
#[derive(Clone, Copy, PartialEq, Eq, Debug)]
pub struct DayShown {
    pub year: u64,
    pub month: u64,
    pub day: u64,
    pub day_of_year: u64,
}

// A number of a date, none of which is below 0 from 1970 on.
fn number_of(part: i64) -> u64 {
    u64::try_from(part).unwrap_or(0)
}

/// The day that a clock shows at a second since 1970; none where it is past the year 9999.
pub fn day_shown(second: u64, clock: &Clock) -> Option<DayShown> {
    let day = i64::try_from(clock.local_second(second).div_euclid(DAY)).ok()?;
    let date = Date::from_unix_epoch_day(day).ok()?;
    let first = Date::new(date.year, 1, 1).ok()?.to_unix_epoch_day();
    let place = day.saturating_sub(i64::from(first)).saturating_add(1);
    Some(DayShown {
        year: number_of(i64::from(date.year)),
        month: number_of(i64::from(date.month)),
        day: number_of(i64::from(date.day)),
        day_of_year: number_of(place),
    })
}
