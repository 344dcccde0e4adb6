// Texts that are one number.

ghost use Rattle.std.specs.Prelude.{◌≡◌, ◌≤◌, length};
ghost use Rattle.split_numbers.specs.Decimal.{point_in};
ghost use Rattle.split_numbers.specs.Same.{are_same_behind, are_same_decimals, are_zeros, before_point, behind_point, is_number_text, is_same_number};

use crate::decimal::{point_in, whole_units};
use range_plane::Scale;

// Whether a text is a decimal.
#[tactic(auto, unfolding(crate::specs::Decimal::units_in, crate::specs::Same::is_number_text))]
fn is_number_text(text: &[u8], commas: bool) -> bool
    ensures { result ≡ is_number_text commas text.now }
{
    whole_units(text, Scale::Metre, commas).is_some()
}

// What stands before the first point of a text, which is all where there is none.
fn before_point(text: &[u8], commas: bool) -> &[u8]
    ensures { result.now ≡ before_point text.entry.now (point_in commas text.entry.now) }
{
    match point_in(text, commas) {
        Some(point) => &text[..point],
        None => text,
    }
}

// What stands behind it.
fn behind_point(text: &[u8], commas: bool) -> &[u8]
    ensures { result.now ≡ behind_point text.entry.now (point_in commas text.entry.now) }
{
    match point_in(text, commas) {
        Some(point) => &text[point + 1..],
        None => &[],
    }
}

// Whether all digits are zeros.
fn are_zeros(digits: &[u8]) -> bool
    ensures { result ≡ are_zeros digits.now }
{
    digits.iter().all(|byte| *byte == b'0')
}

// Whether the digits behind two points, of which so many stand behind both, are the same but for zeros at their end.
fn are_same_behind(digits: &[u8], others: &[u8], common: usize) -> bool
    requires digits { common ≤ length digits.now }
    requires others { common ≤ length others.now }
    ensures { result ≡ are_same_behind digits.now others.now common }
{
    digits[..common] == others[..common]
        && are_zeros(&digits[common..])
        && are_zeros(&others[common..])
}

// The same of two lists of digits.
fn are_same_decimals(digits: &[u8], others: &[u8]) -> bool
    ensures { result ≡ are_same_decimals digits.now others.now }
{
    if digits.len() < others.len() {
        are_same_behind(digits, others, digits.len())
    } else {
        are_same_behind(digits, others, others.len())
    }
}

/// Whether two texts are decimals and one number: the same but for zeros behind their digits, as `-9999` and `-9999.0` are. In
/// place of the point a comma may stand, where `commas` says so.
#[tactic(auto, unfolding(crate::specs::Same::is_same_number))]
pub fn is_same_number(one: &[u8], other: &[u8], commas: bool) -> bool
    ensures { result ≡ is_same_number one.now other.now commas }
{
    is_number_text(one, commas)
        && is_number_text(other, commas)
        && before_point(one, commas) == before_point(other, commas)
        && are_same_decimals(behind_point(one, commas), behind_point(other, commas))
}
