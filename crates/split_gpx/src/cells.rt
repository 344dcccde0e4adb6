// Cells of the table, between quotes, from values as they stand in the text.

use crate::markup::{Markup, split_markup};
use crate::references::split_reference;
use crate::signs::is_blank;
use std::alloc::AllocError;

// Writes a byte of a cell. A quote is doubled.
fn push_byte(table: &mut Vec<u8>, byte: u8) -> Result<(), AllocError> {
    if byte == b'"' {
        table.push(byte)?;
    }
    table.push(byte)?;
    Ok(())
}

// Writes a character of a cell.
fn push_character(table: &mut Vec<u8>, character: char) -> Result<(), AllocError> {
    let mut bytes = [0u8; 4];
    for byte in character.encode_utf8(&mut bytes).as_bytes() {
        push_byte(table, *byte)?;
    }
    Ok(())
}

// Writes the character of the reference behind `&`, and gives what follows it; `&` stands for itself if there is none.
fn push_reference<'a>(table: &mut Vec<u8>, behind: &'a [u8]) -> Result<&'a [u8], AllocError> {
    match split_reference(behind) {
        Some((character, rest)) => {
            push_character(table, character)?;
            Ok(rest)
        }
        None => {
            push_byte(table, b'&')?;
            Ok(behind)
        }
    }
}

// What follows the end of a line, behind its CR.
fn behind_line_end(behind: &[u8]) -> &[u8] {
    match behind {
        [b'\n', rest @ ..] => rest,
        _ => behind,
    }
}

// Writes characters in which no references stand. Lines end in LF.
fn push_characters(table: &mut Vec<u8>, characters: &[u8]) -> Result<(), AllocError> {
    let mut is_behind_return = false;
    for byte in characters {
        match *byte {
            b'\n' if is_behind_return => {}
            b'\r' => push_byte(table, b'\n')?,
            other => push_byte(table, other)?,
        }
        is_behind_return = *byte == b'\r';
    }
    Ok(())
}

// Writes the characters of the section that begins a text, and gives what follows; comments and instructions are left out.
// There is no other markup in the text of an element.
fn push_markup<'a>(table: &mut Vec<u8>, text: &'a [u8]) -> Result<&'a [u8], AllocError> {
    match split_markup(text) {
        Ok((Markup::Characters(characters), rest)) => {
            push_characters(table, characters)?;
            Ok(rest)
        }
        Ok((_, rest)) => Ok(rest),
        Err(_) => Ok(&[]),
    }
}

/// Writes the text of an element as in a cell, without the quotes around it.
pub(crate) fn push_text(table: &mut Vec<u8>, text: &[u8]) -> Result<(), AllocError> {
    let mut rest = text;
    for _ in 0..text.len() {
        rest = match rest {
            [] => break,
            [b'<', ..] => push_markup(table, rest)?,
            [b'&', behind @ ..] => push_reference(table, behind)?,
            [b'\r', behind @ ..] => {
                push_byte(table, b'\n')?;
                behind_line_end(behind)
            }
            [byte, behind @ ..] => {
                push_byte(table, *byte)?;
                behind
            }
        };
    }
    Ok(())
}

// Writes the value of an attribute, in which each blank is a space.
fn push_value(table: &mut Vec<u8>, value: &[u8]) -> Result<(), AllocError> {
    let mut rest = value;
    for _ in 0..value.len() {
        rest = match rest {
            [] => break,
            [b'&', behind @ ..] => push_reference(table, behind)?,
            [b'\r', behind @ ..] => {
                push_byte(table, b' ')?;
                behind_line_end(behind)
            }
            [byte, behind @ ..] => {
                push_byte(table, if is_blank(*byte) { b' ' } else { *byte })?;
                behind
            }
        };
    }
    Ok(())
}

/// Writes the value of an attribute as a cell, as it stands in the document.
pub(crate) fn push_value_cell(table: &mut Vec<u8>, value: &[u8]) -> Result<(), AllocError> {
    table.push(b'"')?;
    push_value(table, value)?;
    table.push(b'"')?;
    Ok(())
}
