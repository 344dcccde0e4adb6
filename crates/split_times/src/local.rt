// The times that a clock shows.

ghost use Rattle.std.specs.Prelude.{◌≡◌, ◌<◌, ◌^◌, IfOk, IfSome};
ghost use Rattle.jiff_core.specs.Calendar.{IsEpochDay};
ghost use Rattle.split_times.specs.Limits.{IsLocalSecond};
ghost use Rattle.split_times.specs.Local.{clock_of, day_of, hour_of, joined, local_time_of};
ghost use Rattle.split_times.specs.Words.{HasPart};

use crate::days::{civil_day, ordinal_day};
use crate::moment::TimeFault;
use crate::words::{Half, TimeParts};

// The seconds of a day.
const DAY: i64 = 86_400;

/// When the clock of a place showed what a text says: the seconds from midnight of 1 January 1970 by this clock, negative
/// before it, and the rest of a second. Days have 86,400 seconds.
#[derive(Clone, Copy, PartialEq, Eq, Debug)]
pub struct LocalTime {
    pub second: i64,
    pub nanosecond: u32,
}

// The day that is said, counted from 1 January 1970; `None` where the calendar has none.
fn day_of(parts: TimeParts) -> Option<i64>
    ensures value { result ≡ day_of parts }
    ensures within { IfSome result IsEpochDay }
{
    match parts.day_of_year {
        Some(place) => ordinal_day(parts.year, place),
        None => civil_day(parts.year, parts.month, parts.day),
    }
}

// The hour from 0 to 23 that is said; `None` where there is no such hour.
fn hour_of(parts: TimeParts) -> Option<u32>
    ensures value { result ≡ hour_of parts }
    ensures within { IfSome result (λ hour. hour < 24) }
{
    match parts.half {
        None if parts.hour <= 23 => Some(parts.hour),
        Some(Half::Morning) if 1 <= parts.hour && parts.hour <= 12 => Some(parts.hour % 12),
        Some(Half::Afternoon) if 1 <= parts.hour && parts.hour <= 12 => Some(parts.hour % 12 + 12),
        _ => None,
    }
}

// The seconds from midnight on that are said; `None` where the clock has no such time.
#[tactic(auto, unfolding(crate::specs::Local::clock_of))]
fn clock_of(parts: TimeParts) -> Option<u32>
    ensures value { result ≡ clock_of parts }
    ensures within { IfSome result (λ seconds. seconds < 86400) }
{
    let hour = hour_of(parts)?;
    if parts.minute <= 59 && parts.second <= 59 {
        Some(hour * 3600 + parts.minute * 60 + parts.second)
    } else {
        None
    }
}

// The time of a day, of the seconds from its midnight on, and of nanoseconds, or the first fault that it has.
fn joined(
    day: Option<i64>,
    clock: Option<u32>,
    nanosecond: Option<u32>,
) -> Result<LocalTime, TimeFault>
    requires day { IfSome day IsEpochDay }
    requires clock { IfSome clock (λ seconds. seconds < 86400) }
    requires part { IfSome nanosecond (λ nanosecond. nanosecond < 10 ^ 9) }
    ensures value { result ≡ joined day clock nanosecond }
    ensures within { IfOk result (λ time. IsLocalSecond time.second × (time.nanosecond < 10 ^ 9)) }
{
    let (Some(day), Some(clock)) = (day, clock) else {
        return Err(TimeFault::NotTime);
    };
    match nanosecond {
        Some(nanosecond) => Ok(LocalTime {
            second: day * DAY + i64::from(clock),
            nanosecond,
        }),
        None => Err(TimeFault::MoreThanNineDecimals),
    }
}

// The time that parts say.
pub(crate) fn local_time_of(parts: TimeParts) -> Result<LocalTime, TimeFault>
    requires { HasPart parts }
    ensures value { result ≡ local_time_of parts }
    ensures within { IfOk result (λ time. IsLocalSecond time.second × (time.nanosecond < 10 ^ 9)) }
{
    joined(day_of(parts), clock_of(parts), parts.nanosecond)
}
