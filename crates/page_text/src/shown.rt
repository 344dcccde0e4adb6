// Texts of users as a page shows them.

ghost use Rattle.std.specs.Prelude.{◌≡◌, ◌++◌, ◌/◌, ◌%◌, OnOk, true};
ghost use Rattle.page_text.specs.Shown.{attribute, behind_beside, bytes_behind, continues, entity, escaped, hidden_code, is_hidden, long_escape, named, short_escape, sign_beside, sign_text, starts_control, starts_wide, wide_code};

use crate::bytes::{byte_at, push};
use std::alloc::AllocError;

// Appends a byte as text in HTML.
fn push_entity(text: &mut Vec<u8>, byte: u8) -> Result<(), AllocError>
    ensures { OnOk result (text.new.items ≡ text.old.items ++ entity byte) }
{
    match byte {
        b'&' => text.extend_from_slice(b"&amp;"),
        b'<' => text.extend_from_slice(b"&lt;"),
        b'>' => text.extend_from_slice(b"&gt;"),
        b'"' => text.extend_from_slice(b"&quot;"),
        b'\'' => text.extend_from_slice(b"&#x27;"),
        _ => text.extend_from_slice(&[byte]),
    }
}

/// Appends a text as the value of an attribute, which a program reads back.
///
/// # Errors
///
/// Memory ran out.
pub fn push_attribute(text: &mut Vec<u8>, value: &[u8]) -> Result<(), AllocError>
    ensures { OnOk result (text.new.items ≡ text.old.items ++ attribute value.now) }
{
    for byte in value {
        push_entity(text, *byte)?;
    }
    Ok(())
}

// Whether a byte continues a character of several bytes.
fn continues(byte: u8) -> bool
    ensures { result ≡ continues byte }
{
    0x80 <= byte && byte < 0xC0
}

// Whether a text starts with a control character of two bytes.
fn starts_control(text: &[u8]) -> bool
    ensures { result ≡ starts_control text.now }
{
    let second = byte_at(text, 1);
    byte_at(text, 0) == 0xC2 && 0x80 <= second && second < 0xA0
}

// Whether a text starts with a character of three bytes.
fn starts_wide(text: &[u8]) -> bool
    ensures { result ≡ starts_wide text.now }
{
    let first = byte_at(text, 0);
    0xE0 <= first && first < 0xF0 && continues(byte_at(text, 1)) && continues(byte_at(text, 2))
}

// The code of that character.
fn wide_code(text: &[u8]) -> u16
    requires { starts_wide text.now ≡ true }
    ensures { result ≡ wide_code text.now }
{
    let first = u16::from(byte_at(text, 0) - 0xE0);
    let second = u16::from(byte_at(text, 1) - 0x80);
    let third = u16::from(byte_at(text, 2) - 0x80);
    first * 4096 + second * 64 + third
}

// Whether a code is that of a separator of lines, or of a character that is not seen or turns the direction of writing.
pub(crate) fn is_hidden(code: u16) -> bool
    ensures { result ≡ is_hidden code }
{
    matches!(code, 0x200B | 0x200E | 0x200F | 0x2028..=0x202E | 0x2060..=0x2069 | 0xFEFF)
}

// The code of such a character, with which a text starts.
fn hidden_code(text: &[u8]) -> Option<u16>
    ensures { result ≡ hidden_code text.now }
{
    if !starts_wide(text) {
        return None;
    }
    let code = wide_code(text);
    if is_hidden(code) { Some(code) } else { None }
}

// Appends a code written out in two digits.
fn push_short(text: &mut Vec<u8>, code: u8) -> Result<(), AllocError>
    ensures { OnOk result (text.new.items ≡ text.old.items ++ short_escape code) }
{
    let mut digits = [0; 2];
    hex::encode_to_slice([code], &mut digits).unwrap();
    text.extend_from_slice(b"\\x")?;
    text.extend_from_slice(&digits)
}

// Appends a code written out in four digits.
fn push_long(text: &mut Vec<u8>, code: u16) -> Result<(), AllocError>
    ensures { OnOk result (text.new.items ≡ text.old.items ++ long_escape code) }
{
    let mut digits = [0; 4];
    hex::encode_to_slice([(code / 256) as u8, (code % 256) as u8], &mut digits).unwrap();
    text.extend_from_slice(b"\\u")?;
    text.extend_from_slice(&digits)
}

// Appends what is shown for the start of a text, which may be a character that is written out by its code.
fn push_sign(text: &mut Vec<u8>, line: &[u8], hidden: Option<u16>) -> Result<(), AllocError>
    ensures { OnOk result (text.new.items ≡ text.old.items ++ sign_beside line.now hidden) }
{
    let first = byte_at(line, 0);
    if let Some(code) = hidden {
        push_long(text, code)
    } else if starts_control(line) {
        push_short(text, byte_at(line, 1))
    } else if first.is_ascii_control() {
        push_short(text, first)
    } else {
        push_entity(text, first)
    }
}

// How many bytes behind the first of a text are shown with it.
fn behind_beside(line: &[u8], hidden: Option<u16>) -> usize
    ensures { result ≡ behind_beside line.now hidden }
{
    if hidden.is_some() {
        2
    } else if starts_control(line) {
        1
    } else {
        0
    }
}

/// Appends a text of a user as it is shown: no markup, and control characters and those that turn the direction of
/// writing written out, as in `\x1b` and `\u202e`. What is no UTF-8 stays.
///
/// # Errors
///
/// Memory ran out.
pub fn push_escaped(text: &mut Vec<u8>, line: &[u8]) -> Result<(), AllocError>
    ensures { OnOk result (text.new.items ≡ text.old.items ++ escaped line.now) }
{
    let mut behind = 0;
    for place in 0..line.len() {
        let rest = &line[place..];
        if behind > 0 {
            behind -= 1;
        } else {
            let hidden = hidden_code(rest);
            push_sign(text, rest, hidden)?;
            behind = behind_beside(rest, hidden);
        }
    }
    Ok(())
}

/// Appends a name, whose direction of writing does not reach what stands beside it.
///
/// # Errors
///
/// Memory ran out.
pub fn push_named(text: &mut Vec<u8>, name: &[u8]) -> Result<(), AllocError>
    ensures { OnOk result (text.new.items ≡ text.old.items ++ named name.now) }
{
    push(text, "<bdi>")?;
    push_escaped(text, name)?;
    push(text, "</bdi>")
}
