// Parts of a line, and the numbers that they write.

ghost use Rattle.std.specs.Prelude.{◌≡◌, ◌<◌, ◌≤◌, ◌==◌, IfSome, length, option_map};
ghost use Rattle.std.specs.List.{position};
ghost use Rattle.page_report.specs.Fields.{behind, cut, is_plain, number_up_to, numbered};

use range_numbers::{VALUE_LIMIT, value_of};

/// The greatest number of a report.
pub const MOST: u64 = VALUE_LIMIT - 1;

/// The greatest count.
pub const MOST_COUNT: u64 = 4_294_967_295;

/// The greatest level.
pub const MOST_LEVEL: u64 = 100;

// The place of the first of this byte.
fn place_of(text: &[u8], byte: u8) -> Option<usize>
    ensures place { result ≡ position (λ own. own == byte) text.now }
    ensures within { IfSome result (λ place. place < length text.now) }
{
    text.iter().position(|own| *own == byte)
}

// What stands before the first of this byte, and what stands behind it.
#[tactic(auto, unfolding(crate::specs::Fields::cut))]
pub(crate) fn cut(text: &[u8], byte: u8) -> Option<(&[u8], &[u8])>
    ensures parts { option_map (λ parts. (parts.0.now, parts.1.now)) result ≡ cut byte text.now }
    ensures less { IfSome result (λ parts. length parts.1.now < length text.now) }
{
    let end = place_of(text, byte)?;
    Some((&text[..end], &text[end + 1..]))
}

// What stands behind a word with which a text begins.
#[tactic(auto, unfolding(crate::specs::Fields::behind))]
pub(crate) fn behind<'a>(text: &'a [u8], word: &[u8]) -> Option<&'a [u8]>
    ensures { option_map (λ rest. rest.now) result ≡ behind word.now text.now }
{
    text.strip_prefix(word)
}

// Whether digits have no zero before them.
fn is_plain(text: &[u8]) -> bool
    ensures { result ≡ is_plain text.now }
{
    match text {
        [digit, digits @ ..] => *digit != b'0' || digits.is_empty(),
        [] => true,
    }
}

// The number that a text is as reports write it, which is at most so great.
#[tactic(auto, unfolding(crate::specs::Fields::number_up_to))]
pub(crate) fn number_up_to(text: &[u8], most: u64) -> Option<u64>
    requires { most < VALUE_LIMIT }
    ensures number { result ≡ number_up_to most text.now }
    ensures most { IfSome result (λ number. number ≤ most) }
{
    if !is_plain(text) {
        return None;
    }
    let value = value_of(text, most)?;
    if most < value { None } else { Some(value) }
}

// A number that is at most so great and stands before the first comma, and what stands behind that.
pub(crate) fn numbered(text: &[u8], most: u64) -> Option<(u64, &[u8])>
    requires { most < VALUE_LIMIT }
    ensures number { option_map (λ own. (own.0, own.1.now)) result ≡ numbered most text.now }
    ensures most { IfSome result (λ own. own.0 ≤ most) }
{
    let (text, rest) = cut(text, b',')?;
    Some((number_up_to(text, most)?, rest))
}
