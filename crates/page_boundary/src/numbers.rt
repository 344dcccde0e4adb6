// The numbers of a line.

ghost use Rattle.std.specs.Prelude.{◌≡◌, ◌<◌, ◌≤◌, ◌==◌, ◌^◌, IfSome, codes, length, option_map};
ghost use Rattle.std.specs.List.{position};
ghost use Rattle.page_boundary.specs.Points.{coordinate_in, digits_in, ring_in, thousandths_in};
ghost use Rattle.page_drawing.specs.Bounds.{IsWithin};
ghost use Rattle.page_report.specs.Fields.{behind, cut};

use range_numbers::value_of;

/// The most digits of the number of a ring, and of the metres of a coordinate.
pub const MOST_DIGITS: usize = 9;

/// How many digits a coordinate has behind its point.
pub const PLACES: usize = 3;

// The greatest number of so many digits.
const MOST: u64 = 999_999_999;

// The place of the first of this byte.
fn position_of(text: &[u8], byte: u8) -> Option<usize>
    ensures place { result ≡ position (λ own. own == byte) text.now }
    ensures within { IfSome result (λ place. place < length text.now) }
{
    text.iter().position(|own| *own == byte)
}

// What stands before the first of this byte, and what stands behind it.
#[tactic(auto, unfolding(page_report::specs::Fields::cut))]
pub(crate) fn cut(text: &[u8], byte: u8) -> Option<(&[u8], &[u8])>
    ensures parts { option_map (λ parts. (parts.0.now, parts.1.now)) result ≡ cut byte text.now }
    ensures less { IfSome result (λ parts. length parts.1.now < length text.now) }
{
    let end = position_of(text, byte)?;
    Some((&text[..end], &text[end + 1..]))
}

// The value of digits, of which there are at most so many.
fn digits_in(text: &[u8], most: usize) -> Option<u64>
    requires { most ≤ MOST_DIGITS }
    ensures value { result ≡ digits_in most text.now }
    ensures bound { IfSome result (λ value. value ≤ MOST) }
{
    if text.len() > most {
        return None;
    }
    value_of(text, MOST)
}

// The number of a ring.
pub(crate) fn ring_in(text: &[u8]) -> Option<u64>
    ensures { result ≡ ring_in text.now }
{
    if text.first() == Some(&b'0') {
        return None;
    }
    digits_in(text, MOST_DIGITS)
}

// A decimal with three places, in thousandths.
#[tactic(auto, unfolding(crate::specs::Points::thousandths_in))]
fn thousandths_in(text: &[u8]) -> Option<u64>
    ensures value { result ≡ thousandths_in text.now }
    ensures bound { IfSome result (λ value. value < 2 ^ 42) }
{
    let (whole, places) = cut(text, b'.')?;
    if places.len() != PLACES {
        return None;
    }
    Some(1000 * digits_in(whole, MOST_DIGITS)? + digits_in(places, PLACES)?)
}

// What stands behind a minus, with which a text begins.
#[tactic(auto, unfolding(page_report::specs::Fields::behind))]
fn behind_minus(text: &[u8]) -> Option<&[u8]>
    ensures { option_map (λ rest. rest.now) result ≡ behind (codes "-") text.now }
{
    text.strip_prefix(b"-")
}

// A coordinate in millimetres.
pub(crate) fn coordinate_in(text: &[u8]) -> Option<i64>
    ensures value { result ≡ coordinate_in text.now }
    ensures bound { IfSome result (IsWithin (2 ^ 42)) }
{
    match behind_minus(text) {
        Some(rest) => Some(-(thousandths_in(rest)? as i64)),
        None => Some(thousandths_in(text)? as i64),
    }
}
