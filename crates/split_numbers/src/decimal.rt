// Decimals in whole units.

ghost use Rattle.std.specs.Prelude.{◌&&◌, ◌*◌, ◌+◌, ◌<◌, ◌≡◌, ◌≤◌, ◌^◌, IfSome, None, Some, drop, length, if◌then◌else◌, nat_lt, true};
ghost use Rattle.std.specs.Char.{is_ascii_digit};
ghost use Rattle.std.specs.List.{list_all};
ghost use Rattle.std.specs.Str.Parse.{digits_value};
ghost use Rattle.range_numbers.specs.Number.{is_number};
ghost use Rattle.split_numbers.specs.Decimal.{cut, measured_in, measured_in_parts, measured_of, point_in, trillionths_in, trillionths_of, twelve_of, units_in, units_of};
ghost use Rattle.split_numbers.specs.Digits.{units_with};

use crate::half::against_half;
use range_numbers::value_of;
use range_plane::Scale;
use std::cmp::Ordering;

// The greatest number of the twelve digits that may stand before the point.
const WHOLE_LIMIT: u64 = 999_999_999_999;

// From how many on trillionths are not told apart.
const MANY: u64 = 1_000_000;

/// The most trillionths that a number comes to.
pub const MOST_TRILLIONTHS: i64 = 1_000_000_000_000_000_000;

// How many trillionths one has, and by how many places the point of a number moves that counts them.
const TRILLION: u64 = 1_000_000_000_000;

const PLACES: usize = 12;

// What a number is counted in.
#[derive(Clone, Copy)]
enum Measure {
    Units(Scale),
    Trillionths,
}

// Whole units and the digits of another one, rounded; `None` where one is no digit.
fn rounded(units: u64, digits: &[u8], negative: bool) -> Option<i64>
    requires { units < 10 ^ 18 }
    ensures { result ≡ (if list_all is_ascii_digit digits.now then Some (units_with Scale.Metre negative units digits.now) else None) }
{
    let part = against_half(digits)?;
    let units = units as i64;
    if negative {
        match part {
            Ordering::Greater => Some(-units - 1),
            _ => Some(-units),
        }
    } else {
        match part {
            Ordering::Less => Some(units),
            _ => Some(units + 1),
        }
    }
}

// Whole metres and the digits of another one in units, rounded; `None` where one is no digit.
fn rounded_metres(metres: u64, digits: &[u8], unit: Scale, negative: bool) -> Option<i64>
    requires { metres ≤ WHOLE_LIMIT }
    ensures { result ≡ (if list_all is_ascii_digit digits.now then Some (units_with unit negative metres digits.now) else None) }
{
    match unit {
        Scale::Metre => rounded(metres, digits, negative),
        Scale::Decimetre => {
            let Some((first, others)) = digits.split_first() else {
                return rounded(metres * 10, digits, negative);
            };
            if !first.is_ascii_digit() {
                return None;
            }
            rounded(metres * 10 + u64::from(*first - b'0'), others, negative)
        }
    }
}

// The units of what stands before a point and behind it; `None` where a byte is no digit, or too many stand before it.
fn units_of(before: &[u8], behind: &[u8], unit: Scale, negative: bool) -> Option<i64>
    ensures { result ≡ (if is_number before.now && nat_lt (digits_value 10 before.now) (10 ^ 12) && list_all is_ascii_digit behind.now
        then Some (units_of unit negative before.now behind.now) else None) }
{
    let metres = value_of(before, WHOLE_LIMIT)?;
    if metres > WHOLE_LIMIT {
        return None;
    }
    rounded_metres(metres, behind, unit, negative)
}

// The first twelve of digits, with zeros behind them where there are fewer.
fn twelve_of(digits: &[u8]) -> [u8; PLACES]
    ensures { result ≡ twelve_of digits.now }
{
    let mut first = [b'0'; PLACES];
    let count = digits.len().min(PLACES);
    first[..count].copy_from_slice(&digits[..count]);
    first
}

// The digits behind the first twelve.
fn behind_twelve(digits: &[u8]) -> &[u8]
    ensures { result.now ≡ drop 12 digits.entry.now }
{
    if digits.len() < PLACES {
        &[]
    } else {
        &digits[PLACES..]
    }
}

// Whether all bytes are digits.
fn are_digits(bytes: &[u8]) -> bool
    ensures { result ≡ list_all is_ascii_digit bytes.now }
{
    bytes.iter().all(|byte| byte.is_ascii_digit())
}

// The trillionths of a whole number below a million and of the digits behind its point.
fn trillionths_with(whole: u64, behind: &[u8], negative: bool) -> Option<i64>
    requires few { whole < 10 ^ 6 }
    requires digits { list_all is_ascii_digit behind.now ≡ true }
    ensures { result ≡ Some (units_with Scale.Metre negative
        (whole * 1_000_000_000_000 + digits_value 10 (twelve_of behind.now)) (drop 12 behind.now)) }
{
    let trillionths = value_of(&twelve_of(behind), TRILLION)?;
    rounded(
        whole * TRILLION + trillionths,
        behind_twelve(behind),
        negative,
    )
}

// The trillionths of what stands before a point and behind it; `None` where a byte is no digit, or too many stand before it.
fn trillionths_of(before: &[u8], behind: &[u8], negative: bool) -> Option<i64>
    ensures { result ≡ (if is_number before.now && nat_lt (digits_value 10 before.now) (10 ^ 12) && list_all is_ascii_digit behind.now
        then Some (trillionths_of negative before.now behind.now) else None) }
{
    let whole = value_of(before, WHOLE_LIMIT)?;
    if whole > WHOLE_LIMIT {
        return None;
    }
    if !are_digits(behind) {
        return None;
    }
    if whole < MANY {
        trillionths_with(whole, behind, negative)
    } else if negative {
        Some(-MOST_TRILLIONTHS)
    } else {
        Some(MOST_TRILLIONTHS)
    }
}

// What stands before a point and behind it, in this measure; `None` where a byte is no digit, or too many stand before it.
fn measured_of(before: &[u8], behind: &[u8], measure: Measure, negative: bool) -> Option<i64>
    ensures { result ≡ (if is_number before.now && nat_lt (digits_value 10 before.now) (10 ^ 12) && list_all is_ascii_digit behind.now
        then Some (measured_of measure negative before.now behind.now) else None) }
{
    match measure {
        Measure::Units(unit) => units_of(before, behind, unit, negative),
        Measure::Trillionths => trillionths_of(before, behind, negative),
    }
}

// Where the first point of a number stands.
pub(crate) fn point_in(number: &[u8], commas: bool) -> Option<usize>
    ensures place { result ≡ point_in commas number.now }
    ensures within { IfSome result (λ point. point < length number.now) }
{
    if commas {
        number
            .iter()
            .position(|byte| *byte == b'.' || *byte == b',')
    } else {
        number.iter().position(|byte| *byte == b'.')
    }
}

// A number without its minus in this measure; `None` where it is no decimal.
fn number_in(number: &[u8], measure: Measure, commas: bool, negative: bool) -> Option<i64>
    ensures { result ≡ measured_in_parts measure (cut negative number.now (point_in commas number.now)) }
{
    let Some(point) = point_in(number, commas) else {
        return measured_of(number, &[], measure, negative);
    };
    let (before, behind) = (&number[..point], &number[point + 1..]);
    if behind.is_empty() {
        return None;
    }
    measured_of(before, behind, measure, negative)
}

// A decimal in this measure.
fn measured_in(text: &[u8], measure: Measure, commas: bool) -> Option<i64>
    ensures { result ≡ measured_in measure commas text.now }
{
    let (first, number) = text.split_first()?;
    if *first == b'-' {
        number_in(number, measure, commas, true)
    } else {
        number_in(text, measure, commas, false)
    }
}

/// The whole units that a decimal in metres comes to: `floor(units * metres + 1/2)`, so half a unit goes up. It is
/// exact, however many digits stand behind the point. A decimal is digits, of which at most twelve come after leading
/// zeros and before the point, with a minus or none, and with a point and more digits or neither. In place of the point a
/// comma may stand, where `commas` says so. `None` for any other text.
pub fn whole_units(text: &[u8], unit: Scale, commas: bool) -> Option<i64>
    ensures { result ≡ units_in unit commas text.now }
{
    measured_in(text, Measure::Units(unit), commas)
}

/// The whole trillionths that a decimal comes to: `floor(10^12 * number + 1/2)`. Numbers of a million or more, and of minus a
/// million or less, come to 10^18 and to -10^18. `None` for a text that is no decimal, as of [`whole_units`].
pub fn trillionths(text: &[u8], commas: bool) -> Option<i64>
    ensures { result ≡ trillionths_in commas text.now }
{
    measured_in(text, Measure::Trillionths, commas)
}
