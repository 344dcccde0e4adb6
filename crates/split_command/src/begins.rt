// What bytes are by how they begin, where they are no text that is read as it stands.

use split_encoding::Encoding;

// The byte order mark of UTF-8.
const MARK: &[u8] = b"\xEF\xBB\xBF";

/// What is said of bytes that are packed, or of no text, whatever encoding is named.
pub(crate) fn said_of_file(bytes: &[u8]) -> Option<&'static str> {
    match bytes {
        [b'P', b'K', 3, 4, ..] => Some(
            "is a workbook or an archive (zip), and no text: save the table as CSV, or unpack it first",
        ),
        [0xD0, 0xCF, 0x11, 0xE0, ..] => {
            Some("is a workbook (xls), and no text: save the table as CSV")
        }
        [b'%', b'P', b'D', b'F', b'-', ..] => {
            Some("is a PDF, and no text: save the table as CSV")
        }
        [b'S', b'Q', b'L', b'i', b't', b'e', b' ', b'f', ..] => {
            Some("is a database, as GeoPackages are, and no text: save the table as CSV")
        }
        [0x1F, 0x8B, ..] => Some("is packed (gzip), and no text: unpack it first"),
        [b'B', b'Z', b'h', b'1'..=b'9', b'1', ..] => {
            Some("is packed (bzip2), and no text: unpack it first")
        }
        [0xFD, b'7', b'z', b'X', b'Z', ..] => {
            Some("is packed (xz), and no text: unpack it first")
        }
        _ => None,
    }
}

// Whether an encoding has marks of its own.
fn has_marks(encoding: Encoding) -> bool {
    match encoding {
        Encoding::Utf16
        | Encoding::Utf16Le
        | Encoding::Utf16Be
        | Encoding::Utf32
        | Encoding::Utf32Le
        | Encoding::Utf32Be => true,
        _ => false,
    }
}

// What is said of bytes that begin with the mark of UTF-16 or UTF-32.
fn said_of_units(bytes: &[u8]) -> Option<&'static str> {
    match bytes {
        [0xFF, 0xFE, 0, 0, ..] | [0, 0, 0xFE, 0xFF, ..] => {
            Some("begins with the mark of UTF-32: name that, by --encoding utf-32")
        }
        [0xFF, 0xFE, ..] | [0xFE, 0xFF, ..] => {
            Some("begins with the mark of UTF-16: name that, by --encoding utf-16")
        }
        _ => None,
    }
}

/// What is said of bytes that begin with the mark of another encoding than this.
pub(crate) fn said_of_mark(bytes: &[u8], encoding: Encoding) -> Option<&'static str> {
    if bytes.starts_with(MARK) && encoding != Encoding::Utf8 {
        return Some("begins with the mark of UTF-8: leave --encoding out");
    }
    if has_marks(encoding) {
        None
    } else {
        said_of_units(bytes)
    }
}

// Whether a text begins with this, in small or capital letters.
fn begins_with(text: &[u8], start: &[u8]) -> bool {
    match text.split_at_checked(start.len()) {
        Some((own, _)) => own.eq_ignore_ascii_case(start),
        None => false,
    }
}

// What is said of a text that begins as XML or HTML does.
fn said_of_markup(text: &[u8]) -> Option<&'static str> {
    let text = text.trim_ascii_start();
    if begins_with(text, b"<?xml") || begins_with(text, b"<gpx") {
        return Some("is XML, and no table with titles: GPX is read by --from gpx");
    }
    if begins_with(text, b"<!doctype")
        || begins_with(text, b"<html")
        || begins_with(text, b"<kml")
    {
        return Some("is HTML or KML, and no table with titles: save the table as CSV");
    }
    None
}

/// What is said of a text that begins as no table does. Behind a mark that is none of the text no other stands.
pub(crate) fn said_of_text(text: &[u8], encoding: Encoding) -> Option<&'static str> {
    let own = text.strip_prefix(MARK).unwrap_or(text);
    let is_without_mark = match encoding {
        Encoding::Utf16 | Encoding::Utf32 => own.len() == text.len(),
        _ => !own.starts_with(MARK),
    };
    if is_without_mark {
        said_of_markup(own)
    } else {
        Some("begins with two byte order marks: remove one")
    }
}
