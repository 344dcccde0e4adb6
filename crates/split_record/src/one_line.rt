// A text in one line: control characters and separators of lines are escaped.

ghost use Rattle.std.specs.Prelude.{◌≡◌, ◌++◌, IfOk, OnOk, slice_index};
ghost use Rattle.split_record.specs.OneLine.{bytes_behind, doubled, escaped, one_line, sign_text, starts_control, starts_separator};

use range_plane::OutOfMemory;
use std::alloc::{AllocError, Allocator};

// The byte at a place, or 0 behind the last.
fn byte_at(text: &[u8], place: usize) -> u8
    ensures { result ≡ slice_index text.now place }
{
    text.get(place).copied().unwrap_or(0)
}

// Whether a text starts with a control character of two bytes.
fn starts_control(text: &[u8]) -> bool
    ensures { result ≡ starts_control text.now }
{
    let second = byte_at(text, 1);
    byte_at(text, 0) == 0xC2 && 0x80 <= second && second < 0xA0
}

// Whether a text starts with a separator of lines or of paragraphs.
fn starts_separator(text: &[u8]) -> bool
    ensures { result ≡ starts_separator text.now }
{
    let third = byte_at(text, 2);
    byte_at(text, 0) == 0xE2 && byte_at(text, 1) == 0x80 && (third == 0xA8 || third == 0xA9)
}

// How many bytes behind the first of a text are escaped with it.
fn bytes_behind(text: &[u8]) -> usize
    ensures { result ≡ bytes_behind text.now }
{
    if starts_control(text) {
        1
    } else if starts_separator(text) {
        2
    } else {
        0
    }
}

// Appends a code of one byte in two digits behind what introduces it.
fn push_escaped<A: Allocator>(
    text: &mut Vec<u8, A>,
    mark: &[u8],
    code: u8,
) -> Result<(), AllocError>
    ensures { OnOk result (text.new.items ≡ text.old.items ++ escaped mark.now code) }
{
    let mut digits = [0; 2];
    hex::encode_to_slice([code], &mut digits).unwrap();
    text.extend_from_slice(mark)?;
    text.extend_from_slice(&digits)
}

// Appends what is written for the start of a text.
fn push_sign<A: Allocator>(text: &mut Vec<u8, A>, line: &[u8]) -> Result<(), AllocError>
    ensures { OnOk result (text.new.items ≡ text.old.items ++ sign_text line.now) }
{
    let first = byte_at(line, 0);
    if starts_control(line) {
        push_escaped(text, b"\\x", byte_at(line, 1))
    } else if starts_separator(line) {
        push_escaped(text, b"\\u20", byte_at(line, 2) - 0x80)
    } else if first.is_ascii_control() {
        push_escaped(text, b"\\x", first)
    } else {
        text.extend_from_slice(&[first])
    }
}

/// Appends a text in one line: each control character of it is escaped as `\x1b`, and each separator of lines or of
/// paragraphs as `\u2028`.
///
/// # Errors
///
/// Memory ran out.
pub fn push_one_line<A: Allocator>(text: &mut Vec<u8, A>, line: &[u8]) -> Result<(), AllocError>
    ensures { OnOk result (text.new.items ≡ text.old.items ++ one_line line.now) }
{
    let mut behind = 0;
    for place in 0..line.len() {
        let rest = &line[place..];
        if behind > 0 {
            behind -= 1;
        } else {
            push_sign(text, rest)?;
            behind = bytes_behind(rest);
        }
    }
    Ok(())
}

// A text with each backslash twice.
pub(crate) fn doubled<A: Allocator>(alloc: A, text: &[u8]) -> Result<Vec<u8, A>, OutOfMemory>
    ensures { IfOk result (λ own. own.items ≡ doubled text.now) }
{
    let mut own = Vec::new(alloc);
    for byte in text {
        if *byte == b'\\' {
            own.extend_from_slice(b"\\\\")?;
        } else {
            own.push(*byte)?;
        }
    }
    Ok(own)
}
