// The values of the options of the two filters.

ghost use Rattle.std.specs.Prelude.{◌≡◌, ◌<◌, ◌≤◌, ◌^◌, IfSome, false, length, true};
ghost use Rattle.std.specs.Char.{is_ascii_digit};
ghost use Rattle.std.specs.List.{list_all};
ghost use Rattle.std.specs.Str.Parse.{digits_value};
ghost use Rattle.split_numbers.specs.Decimal.{point_in};
ghost use Rattle.split_pace.specs.Values.{decimal_millionths, length_of, millionths_in, millionths_of, seconds_of, speed_of, unit_in, unit_seconds};

use crate::speed::Speed;
use range_numbers::value_of;

// How many digits may stand behind the point.
const DECIMALS: usize = 6;

// How many millionths one has.
const MILLION: u64 = 1_000_000;

/// The greatest speed that may be asked for: 1,000,000 m/s, in millionths of a metre a second.
pub const SPEED_LIMIT: u64 = 1_000_000_000_000;

/// The longest piece of time that may be asked for, in seconds.
pub const LENGTH_LIMIT: u64 = (1 << 40) - 1;

// The greatest whole number that is read: as many as the longest piece of time has seconds.
const WHOLE_LIMIT: u64 = LENGTH_LIMIT;

/// Why the value of an option is refused.
#[derive(Clone, Copy, PartialEq, Eq, Debug)]
pub enum ValueFault {
    /// It is no number of digits, with a point and digits behind it or without, from 0 on.
    NotNumber,
    /// No unit stands behind the number: `h`, `min` or `s`.
    NoUnit,
    /// More than six digits stand behind the point.
    MoreThanSixDecimals,
    /// It is more than the limit.
    TooGreat,
    /// It is less than a second.
    LessThanASecond,
    /// It is no whole number of seconds.
    NotWholeSeconds,
}

// Whether all bytes are digits.
fn are_digits(bytes: &[u8]) -> bool
    ensures { result ≡ list_all is_ascii_digit bytes.now }
{
    bytes.iter().all(|byte| byte.is_ascii_digit())
}

// The value of the digits behind a point, of which there may be none.
fn decimals_value(digits: &[u8]) -> u64
    requires digits { list_all is_ascii_digit digits.now ≡ true }
    requires few { length digits.now ≤ DECIMALS }
    ensures value { result ≡ digits_value 10 digits.now }
    ensures small { result < 10 ^ length digits.now }
{
    match value_of(digits, MILLION) {
        Some(value) => value,
        None => 0,
    }
}

// The millionths of the digits behind a point.
fn decimal_millionths(digits: &[u8]) -> u64
    requires digits { list_all is_ascii_digit digits.now ≡ true }
    requires few { length digits.now ≤ DECIMALS }
    ensures value { result ≡ decimal_millionths digits.now }
    ensures small { result < MILLION }
{
    decimals_value(digits) * 10u64.pow((DECIMALS - digits.len()) as u32)
}

// The millionths of digits before a point and of those behind it.
fn millionths_in(before: &[u8], behind: &[u8]) -> Result<u64, ValueFault>
    ensures { result ≡ millionths_in before.now behind.now }
{
    let Some(whole) = value_of(before, WHOLE_LIMIT) else {
        return Err(ValueFault::NotNumber);
    };
    if !are_digits(behind) {
        return Err(ValueFault::NotNumber);
    }
    if behind.len() > DECIMALS {
        return Err(ValueFault::MoreThanSixDecimals);
    }
    if whole > WHOLE_LIMIT {
        return Err(ValueFault::TooGreat);
    }
    Ok(whole * MILLION + decimal_millionths(behind))
}

// Where the first point of a text stands.
fn point_in(text: &[u8]) -> Option<usize>
    ensures place { result ≡ point_in false text.now }
    ensures within { IfSome result (λ point. point < length text.now) }
{
    text.iter().position(|byte| *byte == b'.')
}

// The millionths of a number, with a point or without.
fn millionths_of(text: &[u8]) -> Result<u64, ValueFault>
    ensures { result ≡ millionths_of text.now }
{
    let Some(point) = point_in(text) else {
        return millionths_in(text, &[]);
    };
    let (before, behind) = (&text[..point], &text[point + 1..]);
    if behind.is_empty() {
        return Err(ValueFault::NotNumber);
    }
    millionths_in(before, behind)
}

/// The greatest speed, of a number of metres a second: digits, with a point and at most six more digits or neither. It is at
/// most [`SPEED_LIMIT`].
///
/// # Errors
///
/// The text is no such number, or one that is too great.
pub fn speed_of(text: &[u8]) -> Result<Speed, ValueFault>
    ensures { result ≡ speed_of text.now }
{
    let millionths = millionths_of(text)?;
    if millionths > SPEED_LIMIT {
        return Err(ValueFault::TooGreat);
    }
    Ok(Speed { millionths })
}

// How many seconds a unit of time has; `None` for any other text.
fn unit_seconds(unit: &[u8]) -> Option<u64>
    ensures { result ≡ unit_seconds unit.now }
{
    if unit == b"h".as_slice() {
        Some(3600)
    } else if unit == b"min".as_slice() {
        Some(60)
    } else if unit == b"s".as_slice() {
        Some(1)
    } else {
        None
    }
}

// The whole seconds of so many millionths of a unit.
fn seconds_of(millionths: u64, unit: u64) -> Result<u64, ValueFault>
    ensures { result ≡ seconds_of millionths unit }
{
    let total = u128::from(millionths) * u128::from(unit);
    let million = u128::from(MILLION);
    if total < million {
        Err(ValueFault::LessThanASecond)
    } else if total >= (u128::from(LENGTH_LIMIT) + 1) * million {
        Err(ValueFault::TooGreat)
    } else if total % million != 0 {
        Err(ValueFault::NotWholeSeconds)
    } else {
        Ok((total / million) as u64)
    }
}

// Where the unit begins that stands behind a number: at the first byte that is neither a digit nor a point.
fn unit_in(text: &[u8]) -> Option<usize>
    ensures place { result ≡ unit_in text.now }
    ensures within { IfSome result (λ place. place < length text.now) }
{
    text.iter()
        .position(|byte| !byte.is_ascii_digit() && *byte != b'.')
}

/// The length of a piece of time in seconds, of a number and its unit: `2h`, `1.5h`, `30min` or `90s`. It is a whole number of
/// seconds from 1 to [`LENGTH_LIMIT`].
///
/// # Errors
///
/// The text is no such length.
pub fn length_of(text: &[u8]) -> Result<u64, ValueFault>
    ensures { result ≡ length_of text.now }
{
    let Some(place) = unit_in(text) else {
        return Err(ValueFault::NoUnit);
    };
    let Some(unit) = unit_seconds(&text[place..]) else {
        return Err(ValueFault::NoUnit);
    };
    let millionths = millionths_of(&text[..place])?;
    seconds_of(millionths, unit)
}
