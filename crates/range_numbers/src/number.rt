// Numbers in decimal digits.

ghost use Rattle.std.specs.Prelude.{◌≡◌, ◌+◌, ◌*◌, ◌<◌, ◌≤◌, MatchOption, false, length, min, true};
ghost use Rattle.std.specs.Str.Parse.{digits_value};
ghost use Rattle.range_numbers.specs.Number.{is_number};

use crate::groups::{GROUP, PAIR, pair_value};

// What a one counts before as many digits as two groups have: 10 to the power of `PAIR`.
const PAIR_WEIGHT: u64 = 100_000_000;

/// A limit to which a value is held is less.
pub const VALUE_LIMIT: u64 = 1 << 60;

// Whether the bytes are one or more digits, and nothing else.
fn is_number(bytes: &[u8]) -> bool
    ensures { result ≡ is_number bytes.now }
{
    !bytes.is_empty() && bytes.iter().all(|byte| byte.is_ascii_digit())
}

// The value of digits, held at one past the limit.
fn capped_value(digits: &[u8], limit: u64) -> u64
    requires digits { is_number digits.now ≡ true }
    requires small { limit < VALUE_LIMIT }
    ensures { result ≡ min (limit + 1) (digits_value 10 digits.now) }
{
    let mut value = 0;
    for digit in digits {
        value = (value * 10 + u64::from(*digit - b'0')).min(limit + 1);
    }
    value
}

// The value of fewer digits than a group has; `None` where the bytes are no number.
fn few_value(bytes: &[u8]) -> Option<u64>
    requires few { length bytes.now < GROUP }
    ensures { MatchOption result (is_number bytes.now ≡ false)
        (λ value. (is_number bytes.now ≡ true) × (value ≡ digits_value 10 bytes.now)) }
{
    let mut value = 0;
    for byte in bytes {
        let digit = byte.wrapping_sub(b'0');
        if digit > 9 {
            return None;
        }
        value = value * 10 + u64::from(digit);
    }
    if bytes.is_empty() { None } else { Some(value) }
}

// The value of at most as many digits as two groups have; `None` where the bytes are no number.
fn short_value(bytes: &[u8]) -> Option<u64>
    requires short { length bytes.now ≤ PAIR }
    ensures { MatchOption result (is_number bytes.now ≡ false)
        (λ value. (is_number bytes.now ≡ true) × (value ≡ digits_value 10 bytes.now)) }
{
    if bytes.len() < GROUP {
        few_value(bytes)
    } else {
        pair_value(bytes)
    }
}

// The value of more digits than two groups have, and of at most twice as many, of which the last two groups are read
// by themselves; `None` where the bytes are no number.
fn long_value(bytes: &[u8]) -> Option<u64>
    requires more { PAIR < length bytes.now }
    requires long { length bytes.now ≤ 2 * PAIR }
    ensures { MatchOption result (is_number bytes.now ≡ false)
        (λ value. (is_number bytes.now ≡ true) × (value ≡ digits_value 10 bytes.now)) }
{
    let (first, last) = bytes.split_at(bytes.len() - PAIR);
    Some(short_value(first)? * PAIR_WEIGHT + short_value(last)?)
}

/// The value of a number of one or more digits, of which the first may be zeros: exact up to the limit, and
/// anything above it past that. `None` where the bytes are none, or not all digits.
pub fn value_of(bytes: &[u8], limit: u64) -> Option<u64>
    requires small { limit < VALUE_LIMIT }
    ensures { MatchOption result (is_number bytes.now ≡ false)
        (λ value. (is_number bytes.now ≡ true)
        × (min (limit + 1) value ≡ min (limit + 1) (digits_value 10 bytes.now))) }
{
    if bytes.len() <= PAIR {
        return short_value(bytes);
    }
    if bytes.len() <= 2 * PAIR {
        return long_value(bytes);
    }
    if is_number(bytes) {
        Some(capped_value(bytes, limit))
    } else {
        None
    }
}
