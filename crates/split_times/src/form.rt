// What a text says under a form of times.

ghost use Rattle.std.specs.Prelude.{◌≡◌, ◌<◌, ◌≤◌, ◌^◌, IfOk, IfSome, drop, length};
ghost use Rattle.split_times.specs.Form.{begins_with_digits, behind_word, decimals_ahead, form_time, full, is_of_digits, said, sizes, sizes_of_full};
ghost use Rattle.split_times.specs.Forms.{pieces_of};
ghost use Rattle.split_times.specs.Limits.{IsLocalSecond};
ghost use Rattle.split_times.specs.Words.{HasPart};

use crate::local::{LocalTime, local_time_of};
use crate::moment::TimeFault;
use crate::sign::{Piece, Sign, first_piece};
use crate::words::{TimeParts, digits_ahead, no_parts, with_word};

// How many bytes a point and the digits behind it have, where a point stands at this place of a text.
fn decimals_ahead(text: &[u8], place: usize) -> usize
    ensures value { result ≡ decimals_ahead (drop place text.now) }
    ensures within { result ≤ length text.now }
{
    if place < text.len() && text[place] == b'.' {
        1 + digits_ahead(&text[place + 1..])
    } else {
        0
    }
}

// Whether a piece is a sign of digits.
fn is_of_digits(piece: Piece) -> bool
    ensures { result ≡ is_of_digits piece }
{
    match piece {
        Piece::Byte(_) | Piece::Sign(Sign::MonthName | Sign::Half | Sign::Unknown) => false,
        Piece::Sign(_) => true,
    }
}

// Whether the first piece of a form is a sign of digits.
fn begins_with_digits(form: &[u8]) -> bool
    ensures { result ≡ begins_with_digits (pieces_of form.now) }
{
    match first_piece(form) {
        Some((piece, _)) => is_of_digits(piece),
        None => false,
    }
}

// All digits of a sign.
fn full(piece: Piece) -> usize
    ensures { result ≡ full piece }
{
    match piece {
        Piece::Sign(Sign::Year) => 4,
        Piece::Sign(Sign::DayOfYear) => 3,
        _ => 2,
    }
}

// How many bytes of a text a sign of digits may take beside another one: all its digits.
fn sizes_of_full(piece: Piece, text: &[u8]) -> [usize; 4]
    ensures { result ≡ sizes_of_full piece text.now }
{
    match piece {
        Piece::Sign(Sign::Second) => [2 + decimals_ahead(text, 2), 2, 2, 2],
        _ => [full(piece); 4],
    }
}

// How many bytes of a text a piece may take, in the order in which they are tried, if it stands beside a sign of digits and if
// not. Most come first, and a second takes all digits behind its point or no point.
fn sizes(is_beside: bool, piece: Piece, text: &[u8]) -> [usize; 4]
    ensures { result ≡ sizes is_beside piece text.now }
{
    if is_beside && is_of_digits(piece) {
        return sizes_of_full(piece, text);
    }
    match piece {
        Piece::Sign(Sign::Second) => [
            2 + decimals_ahead(text, 2),
            2,
            1 + decimals_ahead(text, 1),
            1,
        ],
        _ => [4, 3, 2, 1],
    }
}

// The parts of a text under a piece that takes so many bytes and under what stands behind it in the form.
#[cycle(said)]
fn said_behind(
    piece: Piece,
    size: usize,
    form: &[u8],
    text: &[u8],
    parts: TimeParts,
) -> Option<TimeParts>
    requires { HasPart parts }
    ensures value { result ≡ behind_word piece text.now parts (said (is_of_digits piece) (pieces_of form.now)) size }
    ensures within { IfSome result HasPart }
{
    let (word, rest) = text.split_at_checked(size)?;
    said(
        is_of_digits(piece),
        form,
        rest,
        with_word(piece, word, parts)?,
    )
}

// The parts of a text under a form, behind a sign of digits or not, beside those that are said before; `None` where the text has
// another form.
#[cycle(said)]
#[tactic(auto, unfolding(crate::specs::Form::said))]
fn said(is_behind: bool, form: &[u8], text: &[u8], parts: TimeParts) -> Option<TimeParts>
    requires { HasPart parts }
    ensures value { result ≡ said is_behind (pieces_of form.now) text.now parts }
    ensures within { IfSome result HasPart }
{
    let Some((piece, others)) = first_piece(form) else {
        return if text.is_empty() { Some(parts) } else { None };
    };
    let is_beside = is_behind || begins_with_digits(others);
    let [first, second, third, fourth] = sizes(is_beside, piece, text);
    if let Some(found) = said_behind(piece, first, others, text, parts) {
        return Some(found);
    }
    if let Some(found) = said_behind(piece, second, others, text, parts) {
        return Some(found);
    }
    if let Some(found) = said_behind(piece, third, others, text, parts) {
        return Some(found);
    }
    said_behind(piece, fourth, others, text, parts)
}

// The time of a text under a form.
pub(crate) fn form_time(form: &[u8], text: &[u8]) -> Result<LocalTime, TimeFault>
    ensures value { result ≡ form_time form.now text.now }
    ensures within { IfOk result (λ time. IsLocalSecond time.second × (time.nanosecond < 10 ^ 9)) }
{
    match said(false, form, text, no_parts()) {
        Some(parts) => local_time_of(parts),
        None => Err(TimeFault::NotTime),
    }
}
