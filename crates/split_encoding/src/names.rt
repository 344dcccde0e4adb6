// The names of encodings.

use crate::encoding::Encoding;

// The names of each, in small letters and with hyphens.
static NAMES: [(&str, Encoding); 33] = [
    ("utf-8", Encoding::Utf8),
    ("utf8", Encoding::Utf8),
    ("utf-8-sig", Encoding::Utf8),
    ("ascii", Encoding::Ascii),
    ("us-ascii", Encoding::Ascii),
    ("utf-16", Encoding::Utf16),
    ("utf16", Encoding::Utf16),
    ("utf-16-le", Encoding::Utf16Le),
    ("utf-16le", Encoding::Utf16Le),
    ("utf-16-be", Encoding::Utf16Be),
    ("utf-16be", Encoding::Utf16Be),
    ("utf-32", Encoding::Utf32),
    ("utf32", Encoding::Utf32),
    ("utf-32-le", Encoding::Utf32Le),
    ("utf-32le", Encoding::Utf32Le),
    ("utf-32-be", Encoding::Utf32Be),
    ("utf-32be", Encoding::Utf32Be),
    ("latin-1", Encoding::Latin1),
    ("latin1", Encoding::Latin1),
    ("iso-8859-1", Encoding::Latin1),
    ("iso8859-1", Encoding::Latin1),
    ("l1", Encoding::Latin1),
    ("latin-2", Encoding::Latin2),
    ("latin2", Encoding::Latin2),
    ("iso-8859-2", Encoding::Latin2),
    ("iso8859-2", Encoding::Latin2),
    ("l2", Encoding::Latin2),
    ("windows-1250", Encoding::Windows1250),
    ("cp1250", Encoding::Windows1250),
    ("windows-1251", Encoding::Windows1251),
    ("cp1251", Encoding::Windows1251),
    ("windows-1252", Encoding::Windows1252),
    ("cp1252", Encoding::Windows1252),
];

// A byte of a name as the list has it.
fn plain(byte: u8) -> u8 {
    match byte {
        b'_' | b' ' => b'-',
        _ => byte.to_ascii_lowercase(),
    }
}

// Whether a name is one of the list.
fn is_named(name: &[u8], listed: &[u8]) -> bool {
    name.len() == listed.len()
        && name
            .iter()
            .zip(listed)
            .all(|(byte, wanted)| plain(*byte) == *wanted)
}

/// The encoding of a name, such as `utf-16` or `Latin_1`: capitals are as small letters, and blanks and underscores as
/// hyphens. `None` for a name of no encoding that is read.
pub fn encoding_of(name: &[u8]) -> Option<Encoding> {
    for (listed, encoding) in &NAMES {
        if is_named(name, listed.as_bytes()) {
            return Some(*encoding);
        }
    }
    None
}
