// Texts of users in the strings of a style sheet.

ghost use Rattle.std.specs.Prelude.{◌≡◌, ◌++◌, IfOk, OnOk, true};
ghost use Rattle.std.specs.List.{list_all};
ghost use Rattle.page_text.specs.Styled.{code_sign, is_styled, style_sign};

use crate::shown::is_hidden;
use std::alloc::{AllocError, Global};

// Stands for a character that is not seen, or turns the direction of writing.
const REPLACEMENT: char = '\u{FFFD}';

// Stands behind a text that is cut.
const ELLIPSIS: char = '\u{2026}';

// Appends a character as its code.
fn push_code(text: &mut Vec<u8>, character: char) -> Result<(), AllocError>
    ensures { OnOk result (text.new.items ≡ text.old.items ++ code_sign character) }
{
    let code = u32::from(character);
    let parts = [
        (code / 65536 % 256) as u8,
        (code / 256 % 256) as u8,
        (code % 256) as u8,
    ];
    let mut digits = [0; 6];
    hex::encode_to_slice(parts, &mut digits).unwrap();
    text.extend_from_slice(b"\\")?;
    text.extend_from_slice(&digits)?;
    text.extend_from_slice(b" ")
}

// Appends a character: a letter or a digit of ASCII or a blank as itself, any other as its code.
fn push_style_sign(text: &mut Vec<u8>, character: char) -> Result<(), AllocError>
    ensures { OnOk result (text.new.items ≡ text.old.items ++ style_sign character) }
{
    if character.is_ascii_alphanumeric() || character == ' ' {
        text.extend_from_slice(&[character as u8])
    } else {
        push_code(text, character)
    }
}

// Whether a character is a control character, or one that is not seen or turns the direction of writing.
fn is_replaced(character: char) -> bool {
    match u16::try_from(u32::from(character)) {
        Ok(code) => character.is_control() || is_hidden(code),
        Err(_greater) => false,
    }
}

// The character that is shown in the place of another.
fn seen(character: char) -> char {
    if is_replaced(character) {
        REPLACEMENT
    } else {
        character
    }
}

/// A text of a user as a string of a style sheet has it, which ends neither the string nor its element; behind so many characters
/// it is cut.
///
/// # Errors
///
/// Memory ran out.
pub fn styled(alloc: Global, value: &str, most: usize) -> Result<Vec<u8>, AllocError>
    ensures { IfOk result (λ text. list_all is_styled text.items ≡ true) }
{
    let mut text = Vec::new(alloc);
    let mut rest = value.chars();
    for _character in 0..most {
        let Some(character) = rest.next() else {
            return Ok(text);
        };
        push_style_sign(&mut text, seen(character))?;
    }
    if rest.next().is_some() {
        push_style_sign(&mut text, ELLIPSIS)?;
    }
    Ok(text)
}
