// Cells of tables.

ghost use Rattle.std.specs.Prelude.{◌≡◌, ◌++◌, OnOk};
ghost use Rattle.std.specs.List.{flat_map, list_any};
ghost use Rattle.page_text.specs.Cells.{apostrophe, cell, is_formula, is_special, quoted_byte};

use crate::bytes::byte_at;
use std::alloc::AllocError;

// Whether a spreadsheet may compute a text that starts with this byte, or hides it.
fn is_formula(byte: u8) -> bool
    ensures { result ≡ is_formula byte }
{
    matches!(byte, b'=' | b'+' | b'-' | b'@' | b'\t' | b'\r' | b'\'')
}

// Whether a byte parts cells or records, or is a quote.
fn is_special(byte: u8) -> bool
    ensures { result ≡ is_special byte }
{
    matches!(byte, b',' | b'"' | b'\n' | b'\r')
}

// What stands before a text so that a spreadsheet does not compute it.
fn apostrophe(value: &[u8]) -> &'static [u8]
    ensures { result.now ≡ apostrophe value.now }
{
    if is_formula(byte_at(value, 0)) {
        b"'"
    } else {
        b""
    }
}

// Whether a text has to stand in quotes.
fn needs_quotes(value: &[u8]) -> bool
    ensures { result ≡ list_any is_special value.now }
{
    value.iter().any(|byte| is_special(*byte))
}

// Appends a byte of a text in quotes.
fn push_quoted_byte(text: &mut Vec<u8>, byte: u8) -> Result<(), AllocError>
    ensures { OnOk result (text.new.items ≡ text.old.items ++ quoted_byte byte) }
{
    if byte == b'"' {
        text.extend_from_slice(b"\"\"")
    } else {
        text.extend_from_slice(&[byte])
    }
}

// Appends the bytes of a text in quotes.
fn push_quoted(text: &mut Vec<u8>, value: &[u8]) -> Result<(), AllocError>
    ensures { OnOk result (text.new.items ≡ text.old.items ++ flat_map quoted_byte value.now) }
{
    for byte in value {
        push_quoted_byte(text, *byte)?;
    }
    Ok(())
}

/// Appends a text as a cell of a table, which a spreadsheet shows and does not compute.
///
/// # Errors
///
/// Memory ran out.
pub fn push_cell(text: &mut Vec<u8>, value: &[u8]) -> Result<(), AllocError>
    ensures { OnOk result (text.new.items ≡ text.old.items ++ cell value.now) }
{
    if needs_quotes(value) {
        text.extend_from_slice(b"\"")?;
        text.extend_from_slice(apostrophe(value))?;
        push_quoted(text, value)?;
        text.extend_from_slice(b"\"")
    } else {
        text.extend_from_slice(apostrophe(value))?;
        text.extend_from_slice(value)
    }
}
