// The value of an option, of which a record has escapes.

ghost use Rattle.std.specs.Prelude.{◌≡◌, ◌<◌, ◌++◌, IfOk, IfSome, OnOk, option_map, slice_index};
ghost use Rattle.page_record.specs.Unescaped.{code_in, code_sign, escape_in, hex_value, is_separator, separator_end, sign_behind, sign_in, sign_text, unescaped};

use std::alloc::{AllocError, Global};

// What stands at the start of a text: a byte, or an escape.
#[derive(Clone, Copy, PartialEq, Eq, Debug)]
enum Sign {
    Byte { byte: u8 },
    // Two backslashes, which are one.
    Backslash,
    // A control character of one byte.
    Control { code: u8 },
    // One of two bytes, by its last.
    LongControl { code: u8 },
    // A separator of lines or of paragraphs, by its last byte.
    Separator { last: u8 },
}

// The byte at a place, or 0 behind the last.
fn byte_at(text: &[u8], place: usize) -> u8
    ensures { result ≡ slice_index text.now place }
{
    text.get(place).copied().unwrap_or(0)
}

// The value of a digit from 0 to f.
fn hex_value(digit: u8) -> Option<u8>
    ensures value { result ≡ hex_value digit }
    ensures small { IfSome result (λ value. value < 16) }
{
    if digit.is_ascii_digit() {
        Some(digit - 48)
    } else if 97 <= digit && digit <= 102 {
        Some(digit - 87)
    } else {
        None
    }
}

// The code of two digits at the places from 2 on.
fn code_in(text: &[u8]) -> Option<u8>
    ensures { result ≡ code_in text.now }
{
    let high = hex_value(byte_at(text, 2))?;
    let low = hex_value(byte_at(text, 3))?;
    Some(high * 16 + low)
}

// What an escape of a code stands for.
fn code_sign(code: u8) -> Option<Sign>
    ensures { result ≡ code_sign code }
{
    if code < 128 {
        Some(Sign::Control { code })
    } else if code < 160 {
        Some(Sign::LongControl { code })
    } else {
        None
    }
}

// Whether a text starts with the escape of a separator.
fn is_separator(text: &[u8]) -> bool
    ensures { result ≡ is_separator text.now }
{
    let last = byte_at(text, 5);
    byte_at(text, 1) == b'u'
        && byte_at(text, 2) == b'2'
        && byte_at(text, 3) == b'0'
        && byte_at(text, 4) == b'2'
        && (last == b'8' || last == b'9')
}

// The last byte of a separator, by the last digit of its escape.
fn separator_end(digit: u8) -> u8
    ensures { result ≡ separator_end digit }
{
    if digit == b'8' { 0xA8 } else { 0xA9 }
}

// What stands at the start of a text that starts with a backslash.
#[tactic(auto, unfolding(crate::specs::Unescaped::escape_in))]
fn escape_in(text: &[u8]) -> Option<Sign>
    ensures { result ≡ escape_in text.now }
{
    if byte_at(text, 1) == b'\\' {
        return Some(Sign::Backslash);
    }
    if is_separator(text) {
        return Some(Sign::Separator {
            last: separator_end(byte_at(text, 5)),
        });
    }
    if byte_at(text, 1) == b'x' {
        code_sign(code_in(text)?)
    } else {
        None
    }
}

// What stands at the start of a text.
#[tactic(auto, unfolding(crate::specs::Unescaped::sign_in))]
fn sign_in(text: &[u8]) -> Option<Sign>
    ensures { result ≡ sign_in text.now }
{
    let byte = byte_at(text, 0);
    if byte == b'\\' {
        escape_in(text)
    } else {
        Some(Sign::Byte { byte })
    }
}

// How many bytes behind the first stand for it too.
fn sign_behind(sign: Sign) -> usize
    ensures { result ≡ sign_behind sign }
{
    match sign {
        Sign::Byte { .. } => 0,
        Sign::Backslash => 1,
        Sign::Control { .. } | Sign::LongControl { .. } => 3,
        Sign::Separator { .. } => 5,
    }
}

// Appends what a sign stands for.
fn push_sign(text: &mut Vec<u8>, sign: Sign) -> Result<(), AllocError>
    ensures { OnOk result (text.new.items ≡ text.old.items ++ sign_text sign) }
{
    match sign {
        Sign::Byte { byte } => text.extend_from_slice(&[byte]),
        Sign::Backslash => text.extend_from_slice(b"\\"),
        Sign::Control { code } => text.extend_from_slice(&[code]),
        Sign::LongControl { code } => text.extend_from_slice(&[0xC2, code]),
        Sign::Separator { last } => text.extend_from_slice(&[0xE2, 0x80, last]),
    }
}

// A text with what its escapes stand for; none where a backslash begins no escape.
pub(crate) fn unescaped(alloc: Global, text: &[u8]) -> Result<Option<Vec<u8>>, AllocError>
    ensures { IfOk result (λ own. option_map (λ value. value.items) own ≡ unescaped text.now) }
{
    let mut own = Vec::new(alloc);
    let mut behind = 0;
    for place in 0..text.len() {
        let rest = &text[place..];
        if behind > 0 {
            behind -= 1;
        } else {
            let Some(sign) = sign_in(rest) else {
                return Ok(None);
            };
            push_sign(&mut own, sign)?;
            behind = sign_behind(sign);
        }
    }
    Ok(Some(own))
}
