// Parts of a line, and what they say.

ghost use Rattle.std.specs.Prelude.{◌≡◌, ◌<◌, ◌≤◌, ◌==◌, IfSome, codes, length, not, option_map};
ghost use Rattle.std.specs.List.{list_all, position};
ghost use Rattle.std.specs.Str.{is_utf8};
ghost use Rattle.page_report.specs.Fields.{behind, cut, is_plain, number_up_to, numbered};
ghost use Rattle.page_record.specs.Fields.{count_of, first_reason_of, is_file_name, is_sum, is_sum_digit, last_reason_of, minus, reason_of, sum_of, whole_by, whole_of};

use range_numbers::value_of;
use split_tracks::Reason;

/// The greatest count of a record, and by how many metres coordinates are shifted at most.
pub const MOST: u64 = 999_999_999;

// Whether bytes are UTF-8.
pub(crate) fn is_utf8(bytes: &[u8]) -> bool
    ensures { result ≡ is_utf8 bytes.now }
{
    match str::from_utf8(bytes) {
        Ok(_) => true,
        Err(_) => false,
    }
}

// The place of the first of this byte.
fn place_of(text: &[u8], byte: u8) -> Option<usize>
    ensures place { result ≡ position (λ own. own == byte) text.now }
    ensures within { IfSome result (λ place. place < length text.now) }
{
    text.iter().position(|own| *own == byte)
}

// What stands before the first of this byte, and what stands behind it.
#[tactic(auto, unfolding(page_report::specs::Fields::cut))]
pub(crate) fn cut(text: &[u8], byte: u8) -> Option<(&[u8], &[u8])>
    ensures parts { option_map (λ parts. (parts.0.now, parts.1.now)) result ≡ cut byte text.now }
    ensures less { IfSome result (λ parts. length parts.1.now < length text.now) }
{
    let end = place_of(text, byte)?;
    Some((&text[..end], &text[end + 1..]))
}

// Whether digits have no zero before them.
fn is_plain(text: &[u8]) -> bool
    ensures { result ≡ is_plain text.now }
{
    match text {
        [digit, digits @ ..] => *digit != b'0' || digits.is_empty(),
        [] => true,
    }
}

// The number that a text is, which is at most so great.
#[tactic(auto, unfolding(page_report::specs::Fields::number_up_to))]
pub(crate) fn number_up_to(text: &[u8], most: u64) -> Option<u64>
    requires { most ≤ MOST }
    ensures number { result ≡ number_up_to most text.now }
    ensures most { IfSome result (λ number. number ≤ most) }
{
    if !is_plain(text) {
        return None;
    }
    let value = value_of(text, most)?;
    if most < value { None } else { Some(value) }
}

// A count.
pub(crate) fn count_of(text: &[u8]) -> Option<u32>
    ensures { result ≡ count_of text.now }
{
    Some(number_up_to(text, MOST)? as u32)
}

// A count, and what stands behind its comma.
pub(crate) fn counted(text: &[u8]) -> Option<(u32, &[u8])>
    ensures { option_map (λ own. (own.0, own.1.now)) result ≡ numbered MOST text.now }
{
    let (text, rest) = cut(text, b',')?;
    Some((count_of(text)?, rest))
}

// What is as much less than 0.
fn minus(number: u32) -> Option<i64>
    ensures { result ≡ minus number }
{
    if number == 0 {
        None
    } else {
        Some(-i64::from(number))
    }
}

// What stands behind a minus, with which a text begins.
#[tactic(auto, unfolding(page_report::specs::Fields::behind))]
fn behind_minus(text: &[u8]) -> Option<&[u8]>
    ensures { option_map (λ rest. rest.now) result ≡ behind (codes "-") text.now }
{
    text.strip_prefix(b"-")
}

// A whole number, by the digits behind its minus, if it has one.
fn whole_by(text: &[u8], digits: Option<&[u8]>) -> Option<i64>
    ensures { result ≡ whole_by text.now (option_map (λ digits. digits.now) digits.entry) }
{
    match digits {
        Some(digits) => minus(count_of(digits)?),
        None => Some(count_of(text)? as i64),
    }
}

// A whole number, which may be less than 0.
#[tactic(auto, unfolding(crate::specs::Fields::whole_of))]
pub(crate) fn whole_of(text: &[u8]) -> Option<i64>
    ensures { result ≡ whole_of text.now }
{
    whole_by(text, behind_minus(text))
}

// Whether a byte is a digit of a checksum.
fn is_sum_digit(byte: u8) -> bool
    ensures { result ≡ is_sum_digit byte }
{
    byte.is_ascii_digit() || (97 <= byte && byte <= 102)
}

// Whether all bytes are digits of a checksum.
fn are_sum_digits(text: &[u8]) -> bool
    ensures { result ≡ list_all is_sum_digit text.now }
{
    text.iter().all(|byte| is_sum_digit(*byte))
}

// Whether a text is a checksum.
fn is_sum(text: &[u8]) -> bool
    ensures { result ≡ is_sum text.now }
{
    text.len() == 64 && are_sum_digits(text)
}

// A checksum.
#[tactic(auto, unfolding(crate::specs::Fields::sum_of))]
pub(crate) fn sum_of(text: &[u8]) -> Option<[u8; 64]>
    ensures { result ≡ sum_of text.now }
{
    if !is_sum(text) {
        return None;
    }
    match <[u8; 64]>::try_from(text) {
        Ok(sum) => Some(sum),
        Err(_of_another_length) => None,
    }
}

// Whether no byte is a slash.
fn has_no_slash(text: &[u8]) -> bool
    ensures { result ≡ list_all (λ byte. not (byte == 47)) text.now }
{
    text.iter().all(|byte| *byte != b'/')
}

// Whether a text is a plain name of a file.
#[tactic(auto, unfolding(crate::specs::Fields::is_file_name))]
pub(crate) fn is_file_name(text: &[u8]) -> bool
    ensures { result ≡ is_file_name text.now }
{
    !text.is_empty() && text != b".".as_slice() && text != b"..".as_slice() && has_no_slash(text)
}

// Why fixes are left out for what their own cells say of them.
#[tactic(auto, unfolding(crate::specs::Fields::first_reason_of))]
fn first_reason_of(words: &[u8]) -> Option<Reason>
    ensures { result ≡ first_reason_of words.now }
{
    if words == b"animal".as_slice() {
        Some(Reason::Animal)
    } else if words == b"coordinates".as_slice() {
        Some(Reason::Coordinates)
    } else if words == b"zero".as_slice() {
        Some(Reason::Zero)
    } else if words == b"sensor".as_slice() {
        Some(Reason::Sensor)
    } else if words == b"outlier".as_slice() {
        Some(Reason::Outlier)
    } else if words == b"class".as_slice() {
        Some(Reason::Class)
    } else if words == b"no dop".as_slice() {
        Some(Reason::NoDop)
    } else {
        None
    }
}

// Or for what filters do.
#[tactic(auto, unfolding(crate::specs::Fields::last_reason_of))]
fn last_reason_of(words: &[u8]) -> Option<Reason>
    ensures { result ≡ last_reason_of words.now }
{
    if words == b"dop".as_slice() {
        Some(Reason::Dop)
    } else if words == b"type".as_slice() {
        Some(Reason::Type)
    } else if words == b"before".as_slice() {
        Some(Reason::Before)
    } else if words == b"after".as_slice() {
        Some(Reason::After)
    } else if words == b"grid".as_slice() {
        Some(Reason::Grid)
    } else if words == b"speed".as_slice() {
        Some(Reason::Speed)
    } else if words == b"every".as_slice() {
        Some(Reason::Every)
    } else {
        None
    }
}

// The reason that some words name.
#[tactic(auto, unfolding(crate::specs::Fields::reason_of))]
pub(crate) fn reason_of(words: &[u8]) -> Option<Reason>
    ensures { result ≡ reason_of words.now }
{
    match first_reason_of(words) {
        Some(reason) => Some(reason),
        None => last_reason_of(words),
    }
}
