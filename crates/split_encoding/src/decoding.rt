// The text of bytes in an encoding.

ghost use Rattle.std.specs.Prelude.{◌≡◌, IfOk, true};
ghost use Rattle.std.specs.Str.{is_utf8};
ghost use Rattle.std.specs.String.{string_bytes};
ghost use Rattle.split_encoding.specs.Texts.{IsTextOf};

use crate::bytes::{copy_ascii, copy_utf8};
use crate::encoding::Encoding;
use crate::fault::DecodeFault;
use crate::order::ByteOrder;
use crate::page::{decode_latin_1, decode_page};
use crate::pages::latin_2::LATIN_2;
use crate::pages::windows_1250::WINDOWS_1250;
use crate::pages::windows_1251::WINDOWS_1251;
use crate::pages::windows_1252::WINDOWS_1252;
use crate::units::{decode_marked_utf16, decode_marked_utf32, decode_utf16, decode_utf32};
use std::alloc::Global;

// The text of bytes in an encoding.
fn text_of(alloc: Global, bytes: &[u8], encoding: Encoding) -> Result<String, DecodeFault>
    ensures { IfOk result (λ text. IsTextOf encoding bytes.now (string_bytes text)) }
{
    match encoding {
        Encoding::Ascii => copy_ascii(alloc, bytes),
        Encoding::Utf8 => copy_utf8(alloc, bytes),
        Encoding::Utf16 => decode_marked_utf16(alloc, bytes),
        Encoding::Utf16Le => decode_utf16(alloc, bytes, 0, ByteOrder::Little),
        Encoding::Utf16Be => decode_utf16(alloc, bytes, 0, ByteOrder::Big),
        Encoding::Utf32 => decode_marked_utf32(alloc, bytes),
        Encoding::Utf32Le => decode_utf32(alloc, bytes, 0, ByteOrder::Little),
        Encoding::Utf32Be => decode_utf32(alloc, bytes, 0, ByteOrder::Big),
        Encoding::Latin1 => decode_latin_1(alloc, bytes),
        Encoding::Latin2 => decode_page(alloc, bytes, &LATIN_2),
        Encoding::Windows1250 => decode_page(alloc, bytes, &WINDOWS_1250),
        Encoding::Windows1251 => decode_page(alloc, bytes, &WINDOWS_1251),
        Encoding::Windows1252 => decode_page(alloc, bytes, &WINDOWS_1252),
    }
}

// The bytes of a text.
fn bytes_of(text: String) -> Vec<u8>
    ensures utf8 { is_utf8 result.items ≡ true }
    ensures bytes { result.items ≡ string_bytes text }
{
    text.into_bytes()
}

/// The text of bytes in an encoding, as UTF-8. A byte order mark stays at its head in UTF-8, and in UTF-16 and UTF-32 the
/// order of whose bytes is named.
///
/// # Errors
///
/// The first bytes that are no character of the encoding, a byte order mark that is missing, or memory ran out.
pub fn decode(alloc: Global, bytes: &[u8], encoding: Encoding) -> Result<Vec<u8>, DecodeFault>
    ensures utf8 { IfOk result (λ text. is_utf8 text.items ≡ true) }
    ensures text { IfOk result (λ text. IsTextOf encoding bytes.now text.items) }
{
    match text_of(alloc, bytes, encoding) {
        Ok(text) => Ok(bytes_of(text)),
        Err(fault) => Err(fault),
    }
}
