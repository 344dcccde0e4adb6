// Moments of ISO texts.

ghost use Rattle.std.specs.Prelude.{◌<◌, ◌<ℤ◌, ◌≡◌, ◌≤ℤ◌, ◌≤◌, ◌^◌, IfOk, IfSome, MatchOption, None, Some, length, neg_ℤ, pos};
ghost use Rattle.jiff_core.specs.Calendar.{IsEpochDay};
ghost use Rattle.split_times.specs.Iso.{iso_moment_in, iso_time_in, moment_at, nanoseconds, offset_place, second_of, time_behind_day, time_behind_minute, time_by, time_in};
ghost use Rattle.split_times.specs.Limits.{IsAhead, IsLocalSecond, IsMinute, IsTimely};

use crate::fields::{ahead_in, clock_in, day_in, number_in, second_in};
use crate::local::LocalTime;
use crate::moment::{Moment, TimeFault};

// The seconds of a day.
const DAY: i64 = 86_400;

// The most digits of a fraction.
const DECIMAL_LIMIT: usize = 9;

// A time: the second since 1970 that a clock shows, negative before it, by how many seconds this clock is ahead of UTC, if
// that is said, and the digits of the fraction.
#[derive(Clone, Copy)]
struct IsoTime<'a> {
    second: i64,
    ahead: Option<i64>,
    decimals: &'a [u8],
}

/// A time of a text.
#[derive(Clone, Copy, PartialEq, Eq, Debug)]
pub enum TextTime {
    /// A moment, where the text says how far its clock is ahead of UTC.
    Utc(Moment),
    /// What a clock shows of which the text does not say that.
    Local(LocalTime),
}

// Where an offset begins behind the minutes, or where the text ends.
fn offset_place(rest: &[u8]) -> usize
    ensures value { result ≡ offset_place rest.now }
    ensures within { result ≤ length rest.now }
{
    match rest
        .iter()
        .position(|byte| *byte == b'Z' || *byte == b'+' || *byte == b'-')
    {
        Some(place) => place,
        None => rest.len(),
    }
}

// The time of seconds and of an offset behind a minute.
#[tactic(auto, unfolding(crate::specs::Iso::time_behind_minute))]
fn time_behind_minute<'a>(minute: i64, seconds: &'a [u8], offset: &[u8]) -> Option<IsoTime<'a>>
    requires { IsMinute minute }
    ensures value { MatchOption result (time_behind_minute minute seconds.entry.now offset.now ≡ None)
        (λ time. time_behind_minute minute seconds.entry.now offset.now ≡ Some (record { second = time.second; ahead = time.ahead; decimals = time.decimals.now })) }
    ensures within { IfSome result (λ time. IsLocalSecond time.second × IfSome time.ahead IsAhead) }
{
    let second = second_in(seconds)?;
    let ahead = ahead_in(offset)?;
    let decimals = &seconds[seconds.len().min(4)..];
    let second = minute + i64::from(second);
    Some(IsoTime {
        second,
        ahead,
        decimals,
    })
}

// The time of what stands behind a day.
#[tactic(auto, unfolding(crate::specs::Iso::time_behind_day))]
fn time_behind_day(day: i64, behind: &[u8]) -> Option<IsoTime<'_>>
    requires { IsEpochDay day }
    ensures value { MatchOption result (time_behind_day day behind.entry.now ≡ None)
        (λ time. time_behind_day day behind.entry.now ≡ Some (record { second = time.second; ahead = time.ahead; decimals = time.decimals.now })) }
    ensures within { IfSome result (λ time. IsLocalSecond time.second × IfSome time.ahead IsAhead) }
{
    let midnight = day * DAY;
    if behind.is_empty() {
        return Some(IsoTime {
            second: midnight,
            ahead: None,
            decimals: behind,
        });
    }
    let (clock, rest) = behind.split_at_checked(6)?;
    let clock = clock_in(clock)?;
    let (seconds, offset) = rest.split_at(offset_place(rest));
    time_behind_minute(midnight + i64::from(clock), seconds, offset)
}

// The time of a text; `None` where it has another form, or there is no such day or clock.
#[tactic(auto, unfolding(crate::specs::Iso::time_in))]
fn time_in(text: &[u8]) -> Option<IsoTime<'_>>
    ensures value { MatchOption result (time_in text.entry.now ≡ None)
        (λ time. time_in text.entry.now ≡ Some (record { second = time.second; ahead = time.ahead; decimals = time.decimals.now })) }
    ensures within { IfSome result (λ time. IsLocalSecond time.second × IfSome time.ahead IsAhead) }
{
    let (date, behind) = text.split_at_checked(10)?;
    time_behind_day(day_in(date)?, behind)
}

// The nanoseconds of the digits of a fraction, and none where they are no digits.
pub(crate) fn nanoseconds(decimals: &[u8]) -> u32
    requires { length decimals.now ≤ DECIMAL_LIMIT }
    ensures value { result ≡ nanoseconds decimals.now }
    ensures within { result < 10 ^ DECIMAL_LIMIT }
{
    match number_in(decimals) {
        Some(number) => number * 10u32.pow((DECIMAL_LIMIT - decimals.len()) as u32),
        None => 0,
    }
}

// The second since 1970 in UTC of a time by a clock that is so far ahead of it.
fn second_of(second: i64, ahead: Option<i64>) -> i64
    requires second { IsLocalSecond second }
    requires ahead { IfSome ahead IsAhead }
    ensures value { result ≡ second_of second ahead }
    ensures within { result ≤ℤ pos 253_402_387_199 }
{
    match ahead {
        Some(ahead) => second - ahead,
        None => second,
    }
}

// The moment of a second since 1970 in UTC and of nanoseconds.
fn moment_at(second: i64, nanosecond: u32) -> Result<Moment, TimeFault>
    requires second { second ≤ℤ pos 253_402_387_199 }
    requires part { nanosecond < 10 ^ 9 }
    ensures value { result ≡ moment_at second nanosecond }
    ensures within { IfOk result (λ moment. (moment.second ≤ 2 ^ 40) × (moment.nanosecond < 10 ^ 9)) }
{
    if second < 0 {
        Err(TimeFault::Before1970)
    } else {
        Ok(Moment {
            second: second as u64,
            nanosecond,
        })
    }
}

/// The moment of an ISO text: `2024-05-01`, which is midnight, or `2024-05-01 00:30` or `2024-05-01T00:30`, with
/// seconds behind it (`:04` or `:04.250`) or none, and then with `Z`, an offset (`+02`, `+0200` or `+02:00`, also with a
/// minus) or neither, which is UTC. Hours end with 23, minutes and seconds with 59. No moment is past the greatest second
/// of a fix, since a year has four digits.
#[tactic(auto, unfolding(crate::specs::Iso::moment_of))]
pub fn iso_moment(text: &[u8]) -> Result<Moment, TimeFault>
    ensures value { result ≡ iso_moment_in text.now }
    ensures within { IfOk result (λ moment. (moment.second ≤ 2 ^ 40) × (moment.nanosecond < 10 ^ 9)) }
{
    let Some(time) = time_in(text) else {
        return Err(TimeFault::NotTime);
    };
    if time.decimals.len() > DECIMAL_LIMIT {
        return Err(TimeFault::MoreThanNineDecimals);
    }
    moment_at(
        second_of(time.second, time.ahead),
        nanoseconds(time.decimals),
    )
}

// A time by its clock, or by UTC where it is said how far the clock is ahead.
fn time_by(second: i64, ahead: Option<i64>, nanosecond: u32) -> Result<TextTime, TimeFault>
    requires second { IsLocalSecond second }
    requires ahead { IfSome ahead IsAhead }
    requires part { nanosecond < 10 ^ 9 }
    ensures value { result ≡ time_by second ahead nanosecond }
    ensures within { IfOk result IsTimely }
{
    let Some(ahead) = ahead else {
        return Ok(TextTime::Local(LocalTime { second, nanosecond }));
    };
    match moment_at(second - ahead, nanosecond) {
        Ok(moment) => Ok(TextTime::Utc(moment)),
        Err(fault) => Err(fault),
    }
}

/// The time of an ISO text, as [`iso_moment`] reads it. One without an offset is what some clock shows, also before 1970.
#[tactic(auto, unfolding(crate::specs::Iso::text_time_of))]
pub fn iso_time(text: &[u8]) -> Result<TextTime, TimeFault>
    ensures value { result ≡ iso_time_in text.now }
    ensures within { IfOk result IsTimely }
{
    let Some(time) = time_in(text) else {
        return Err(TimeFault::NotTime);
    };
    if time.decimals.len() > DECIMAL_LIMIT {
        return Err(TimeFault::MoreThanNineDecimals);
    }
    time_by(time.second, time.ahead, nanoseconds(time.decimals))
}
