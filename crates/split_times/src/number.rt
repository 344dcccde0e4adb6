// Numbers as times.

ghost use Rattle.std.specs.Prelude.{◌≡◌, ◌<◌, ◌≤◌, ◌^◌, IfOk, IfSome, drop, take};
ghost use Rattle.std.specs.Char.{is_ascii_digit};
ghost use Rattle.std.specs.List.{list_all};
ghost use Rattle.split_times.specs.Number.{are_any_decimals, floor_nanoseconds, looks_like, number_moment, seconds_in, unsigned_moment};

use crate::iso::nanoseconds;
use crate::moment::Moment;
use crate::orders::is_date;
use crate::words::digits_ahead;
use range_numbers::value_of;

/// The first second since 1970 that a number may be: that of 1990-01-01.
pub const FIRST_SECOND: u64 = 631_152_000;

/// The second since 1970 from which on a number is none: one of 2286.
pub const SECONDS_END: u64 = 10_000_000_000;

/// From how many seconds on numbers are not told apart.
pub const MANY_SECONDS: u64 = 100_000_000_000_000;

/// Why a text is no number of seconds since 1970, by what it looks like.
#[derive(Clone, Copy, PartialEq, Eq, Debug)]
pub enum NumberFault {
    /// It is no number: digits, which may have a point and more digits behind them.
    NotNumber,
    /// It has a minus.
    Negative,
    /// It is from 15,000 to 80,000: the days of Excel for 1941 to 2119.
    DaysOfExcel,
    /// It is from 2,400,000 to 2,500,000: the Julian days of 1858 to 2132.
    JulianDays,
    /// It is a date without hyphens, such as 20240501, 01052024 or 240501.
    DateWithoutHyphens,
    /// It is from 10^11 to 10^14: milliseconds, or a date with hours and minutes without signs between.
    Milliseconds,
    /// It is another number that is no second of 1990 to 2286.
    NotSecond,
}

// Whether all bytes are digits.
fn are_digits(bytes: &[u8]) -> bool
    ensures { result ≡ list_all is_ascii_digit bytes.now }
{
    bytes.iter().all(|byte| byte.is_ascii_digit())
}

// Whether nothing stands behind whole seconds, or a point and any digits, or none.
fn are_any_decimals(text: &[u8]) -> bool
    ensures { result ≡ are_any_decimals text.now }
{
    match text.split_first() {
        None => true,
        Some((first, digits)) => *first == b'.' && are_digits(digits),
    }
}

// The first nine of digits, or all where there are fewer.
fn first_nine(digits: &[u8]) -> &[u8]
    ensures { result.now ≡ take 9 digits.entry.now }
{
    if digits.len() <= 9 {
        digits
    } else {
        &digits[..9]
    }
}

// The whole nanoseconds of digits behind a point, of which those behind the ninth are left out.
fn floor_nanoseconds(digits: &[u8]) -> u32
    ensures value { result ≡ floor_nanoseconds digits.now }
    ensures within { result < 10 ^ 9 }
{
    nanoseconds(first_nine(digits))
}

// The nanoseconds of nothing, or of a point and digits.
fn nanoseconds_behind(decimals: &[u8]) -> u32
    ensures value { result ≡ floor_nanoseconds (drop 1 decimals.now) }
    ensures within { result < 10 ^ 9 }
{
    match decimals.split_first() {
        None => floor_nanoseconds(decimals),
        Some((_point, digits)) => floor_nanoseconds(digits),
    }
}

/// The seconds of a number: digits, behind which a point and more digits may stand. Of these the first nine count. Numbers of
/// more than [`MANY_SECONDS`] come to so many seconds. `None` for any other text.
pub fn seconds_in(text: &[u8]) -> Option<Moment>
    ensures value { result ≡ seconds_in text.now }
    ensures within { IfSome result (λ moment. (moment.second ≤ 100_000_000_000_000) × (moment.nanosecond < 10 ^ 9)) }
{
    let (whole, decimals) = text.split_at(digits_ahead(text));
    let second = value_of(whole, MANY_SECONDS)?.min(MANY_SECONDS);
    if are_any_decimals(decimals) {
        Some(Moment {
            second,
            nanosecond: nanoseconds_behind(decimals),
        })
    } else {
        None
    }
}

// What a number that is no second since 1970 looks like.
fn looks_like(moment: Moment) -> NumberFault
    ensures { result ≡ looks_like moment }
{
    if 15_000 <= moment.second && moment.second < 80_000 {
        NumberFault::DaysOfExcel
    } else if 2_400_000 <= moment.second && moment.second < 2_500_000 {
        NumberFault::JulianDays
    } else if moment.nanosecond == 0 && is_date(moment.second) {
        NumberFault::DateWithoutHyphens
    } else if 100_000_000_000 <= moment.second && moment.second < 100_000_000_000_000 {
        NumberFault::Milliseconds
    } else {
        NumberFault::NotSecond
    }
}

// The moment of a number without a sign.
fn unsigned_moment(text: &[u8]) -> Result<Moment, NumberFault>
    ensures value { result ≡ unsigned_moment text.now }
    ensures within { IfOk result (λ moment. (moment.second < 2 ^ 40) × (moment.nanosecond < 10 ^ 9)) }
{
    match seconds_in(text) {
        Some(moment) if FIRST_SECOND <= moment.second && moment.second < SECONDS_END => Ok(moment),
        Some(moment) => Err(looks_like(moment)),
        None => Err(NumberFault::NotNumber),
    }
}

/// The moment of a number of seconds since 1970 in UTC, from 1990 to 2286. Of the digits behind its point the first nine
/// count. Whether it is a date with hours in truth, as 2024050112, only all numbers of a column say: see
/// [`DayOrders`](crate::DayOrders).
pub fn number_moment(text: &[u8]) -> Result<Moment, NumberFault>
    ensures value { result ≡ number_moment text.now }
    ensures within { IfOk result (λ moment. (moment.second < 2 ^ 40) × (moment.nanosecond < 10 ^ 9)) }
{
    match text.split_first() {
        Some((b'-', number)) => match seconds_in(number) {
            Some(_) => Err(NumberFault::Negative),
            None => Err(NumberFault::NotNumber),
        },
        _ => unsigned_moment(text),
    }
}
