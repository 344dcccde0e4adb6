// The fields of an ISO text.

ghost use Rattle.std.specs.Prelude.{◌<◌, ◌≡◌, ◌^◌, ◌≤◌, IfSome, length};
ghost use Rattle.jiff_core.specs.Calendar.{IsEpochDay};
ghost use Rattle.split_times.specs.Fields.{ahead_in, are_decimals, by_sign, clock_in, day_in, number_in, offset_in, offset_minutes_in, second_in};
ghost use Rattle.split_times.specs.Limits.{IsAhead};

use crate::days::civil_day;
use range_numbers::value_of;

// The greatest number of nine digits.
const NUMBER_LIMIT: u64 = 999_999_999;

// The number that at most nine digits write; `None` where there is none, or a byte is no digit.
pub(crate) fn number_in(digits: &[u8]) -> Option<u32>
    requires { length digits.now ≤ 9 }
    ensures value { result ≡ number_in digits.now }
    ensures within { IfSome result (λ number. number < 10 ^ length digits.now) }
    ensures small { IfSome result (λ number. number < 10 ^ 9) }
{
    Some(value_of(digits, NUMBER_LIMIT)? as u32)
}

// The day of a date, counted from 1 January 1970; `None` where the calendar has none.
#[tactic(auto, unfolding(crate::specs::Fields::day_in))]
pub(crate) fn day_in(date: &[u8]) -> Option<i64>
    requires { length date.now ≡ 10 }
    ensures value { result ≡ day_in date.now }
    ensures within { IfSome result IsEpochDay }
{
    let year = number_in(&date[..4])?;
    let month = number_in(&date[5..7])?;
    let day = number_in(&date[8..10])?;
    if date[4] != b'-' || date[7] != b'-' {
        return None;
    }
    civil_day(year, month, day)
}

// The seconds from midnight to the minute of a clock; `None` where there is no such minute.
#[tactic(auto, unfolding(crate::specs::Fields::clock_in))]
pub(crate) fn clock_in(clock: &[u8]) -> Option<u32>
    requires { length clock.now ≡ 6 }
    ensures value { result ≡ clock_in clock.now }
    ensures within { IfSome result (λ seconds. seconds ≤ 86340) }
{
    let hour = number_in(&clock[1..3])?;
    let minute = number_in(&clock[4..6])?;
    if (clock[0] == b' ' || clock[0] == b'T') && clock[3] == b':' && hour <= 23 && minute <= 59 {
        Some(hour * 3600 + minute * 60)
    } else {
        None
    }
}

// Whether nothing stands behind whole seconds, or a point and digits.
pub(crate) fn are_decimals(text: &[u8]) -> bool
    ensures { result ≡ are_decimals text.now }
{
    match text.split_first() {
        None => true,
        Some((first, digits)) => *first == b'.' && value_of(digits, 0).is_some(),
    }
}

// The whole seconds behind a minute; `None` where there is no such second.
#[tactic(auto, unfolding(crate::specs::Fields::second_in))]
pub(crate) fn second_in(seconds: &[u8]) -> Option<u32>
    ensures value { result ≡ second_in seconds.now }
    ensures within { IfSome result (λ second. second < 60) }
{
    if seconds.is_empty() {
        return Some(0);
    }
    if seconds.len() < 3 {
        return None;
    }
    let second = number_in(&seconds[1..3])?;
    if seconds[0] == b':' && second <= 59 && are_decimals(&seconds[3..]) {
        Some(second)
    } else {
        None
    }
}

// The minutes of an offset behind its hours; `None` where they are none.
#[tactic(auto, unfolding(crate::specs::Fields::offset_minutes_in))]
fn offset_minutes_in(minutes: &[u8]) -> Option<u32>
    ensures value { result ≡ offset_minutes_in minutes.now }
    ensures within { IfSome result (λ minutes. minutes < 100) }
{
    match minutes.len() {
        0 => Some(0),
        2 => number_in(minutes),
        3 if minutes[0] == b':' => number_in(&minutes[1..3]),
        _ => None,
    }
}

// The seconds of an offset by its sign; `None` where that is neither plus nor minus.
fn by_sign(sign: u8, seconds: u32) -> Option<i64>
    requires { seconds < 86400 }
    ensures value { result ≡ by_sign sign seconds }
    ensures within { IfSome result IsAhead }
{
    match sign {
        b'+' => Some(i64::from(seconds)),
        b'-' => Some(-i64::from(seconds)),
        _ => None,
    }
}

// By how many seconds the clock of an offset is ahead of UTC; `None` where there is no such offset.
#[tactic(auto, unfolding(crate::specs::Fields::offset_in))]
fn offset_in(offset: &[u8]) -> Option<i64>
    ensures value { result ≡ offset_in offset.now }
    ensures within { IfSome result IsAhead }
{
    let (sign, digits) = offset.split_first()?;
    if *sign == b'Z' {
        return if digits.is_empty() { Some(0) } else { None };
    }
    if digits.len() < 2 {
        return None;
    }
    let hour = number_in(&digits[..2])?;
    let minute = offset_minutes_in(&digits[2..])?;
    if hour <= 23 && minute <= 59 {
        by_sign(*sign, hour * 3600 + minute * 60)
    } else {
        None
    }
}

// By how many seconds the clock of an offset is ahead of UTC, if there is an offset; `None` where it is none.
#[tactic(auto, unfolding(crate::specs::Fields::ahead_in))]
pub(crate) fn ahead_in(offset: &[u8]) -> Option<Option<i64>>
    ensures value { result ≡ ahead_in offset.now }
    ensures within { IfSome result (λ ahead. IfSome ahead IsAhead) }
{
    if offset.is_empty() {
        return Some(None);
    }
    Some(Some(offset_in(offset)?))
}
