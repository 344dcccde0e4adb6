// Digits of a number, four at once.

ghost use Rattle.std.specs.Prelude.{◌≡◌, ◌+◌, ◌≤◌, ◌&&◌, MatchOption, false, length, true};
ghost use Rattle.std.specs.Simd.Lanes.{chunk};
ghost use Rattle.std.specs.Str.Parse.{digits_value};
ghost use Rattle.range_numbers.specs.Groups.{AreDigits, are_small, weighted_sum, last_weights, weights_before};
ghost use Rattle.range_numbers.specs.Number.{is_number};

use std::simd::prelude::*;

// How many digits are taken at once.
pub(crate) const GROUP: usize = 4;

// The most digits that two groups have.
pub(crate) const PAIR: usize = 2 * GROUP;

// What a one counts as each of the first four of eight digits, and nothing for those that another group has.
static WEIGHTS: [u32; 8] = [10_000_000, 1_000_000, 100_000, 10_000, 0, 0, 0, 0];

// The numbers of the four bytes from `at` on, each above 9 where its byte is no digit.
#[inline(always)]
fn group_at(bytes: &[u8], at: usize) -> u32x4
    requires { at + GROUP ≤ length bytes.now }
    ensures { AreDigits (chunk at GROUP bytes.now) result }
{
    u8x4::from_slice(&bytes[at..]).cast::<u32>() - u32x4::splat(48)
}

// Whether all numbers are those of digits.
#[inline(always)]
fn are_small(first: u32x4, last: u32x4) -> bool
    ensures { result ≡ (are_small first && are_small last) }
{
    let greater = first.simd_max(last).simd_gt(u32x4::splat(9));
    greater.to_bitmask() == 0
}

// What a one counts as each of the first four of so many digits, and nothing as one of the last four.
#[inline(always)]
fn weights_before(digits: usize) -> u32x4
    requires least { GROUP ≤ digits }
    requires most { digits ≤ PAIR }
    ensures { result ≡ weights_before digits }
{
    u32x4::from_slice(&WEIGHTS[PAIR - digits..])
}

// What the digits of two groups count, of which the last one ends the number.
#[inline(always)]
fn weighted_sum(first: u32x4, last: u32x4, digits: usize) -> u32
    requires least { GROUP ≤ digits }
    requires most { digits ≤ PAIR }
    requires first { are_small first ≡ true }
    requires last { are_small last ≡ true }
    ensures { result ≡ weighted_sum (weights_before digits) first + weighted_sum last_weights last }
{
    let before = first.strict_mul(weights_before(digits));
    let ending = last.strict_mul(u32x4::from_array([1000, 100, 10, 1]));
    before.strict_add(ending).strict_reduce_sum()
}

// The value of digits by their first four and their last four. Those that are in both count with the last.
// `None` where the bytes are no number.
pub(crate) fn pair_value(bytes: &[u8]) -> Option<u64>
    requires least { GROUP ≤ length bytes.now }
    requires most { length bytes.now ≤ PAIR }
    ensures { MatchOption result (is_number bytes.now ≡ false)
        (λ value. (is_number bytes.now ≡ true) × (value ≡ digits_value 10 bytes.now)) }
{
    let first = group_at(bytes, 0);
    let last = group_at(bytes, bytes.len() - GROUP);
    if are_small(first, last) {
        Some(u64::from(weighted_sum(first, last, bytes.len())))
    } else {
        None
    }
}
