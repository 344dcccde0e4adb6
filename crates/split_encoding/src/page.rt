// Texts of one byte a character.

ghost use Rattle.std.specs.Prelude.{◌≡◌, All, IfOk, OnOk, encode_utf8_all, map};
ghost use Rattle.std.specs.String.{string_bytes};
ghost use Rattle.split_encoding.specs.Pages.{HasCharacter, IsCharacter, character_in};

use crate::fault::DecodeFault;
use std::alloc::Global;

/// Stands in a code page for a byte that has no character.
pub(crate) const NONE: char = char::REPLACEMENT_CHARACTER;

// The character of a byte: below 128 that of ASCII, else that of a code page, if it has one.
fn character_of(byte: u8, page: &[char; 128]) -> Option<char>
    ensures { IsCharacter page.now byte result }
{
    if byte < 128 {
        return Some(char::from(byte));
    }
    match page[usize::from(byte) - 128] {
        NONE => None,
        character => Some(character),
    }
}

// The most bytes that a text of UTF-8 takes, whose characters are ASCII for bytes below 128, and take three bytes at most
// for others.
fn most_bytes(bytes: &[u8]) -> usize {
    let others = bytes.iter().filter(|byte| **byte >= 128).count();
    bytes.len().saturating_add(others.saturating_mul(2))
}

/// The text of bytes in a code page.
pub(crate) fn decode_page(
    alloc: Global,
    bytes: &[u8],
    page: &[char; 128],
) -> Result<String, DecodeFault>
    ensures text { IfOk result (λ text.
        string_bytes text ≡ encode_utf8_all (map (character_in page.now) bytes.now)) }
    ensures whole { OnOk result (All (HasCharacter page.now) bytes.now) }
{
    let mut text = String::with_capacity(alloc, most_bytes(bytes))?;
    for (place, byte) in bytes.iter().enumerate() {
        match character_of(*byte, page) {
            Some(character) => text.push(character)?,
            None => return Err(DecodeFault::NoCharacter { place }),
        }
    }
    Ok(text)
}

/// The text of Latin-1, of whose characters each has its byte as its number.
pub(crate) fn decode_latin_1(alloc: Global, bytes: &[u8]) -> Result<String, DecodeFault>
    ensures { IfOk result (λ text. string_bytes text ≡ encode_utf8_all bytes.now) }
{
    let mut text = String::with_capacity(alloc, most_bytes(bytes))?;
    for byte in bytes {
        text.push(char::from(*byte))?;
    }
    Ok(text)
}
