// Tests of texts in each encoding. The bytes are those of Python's codecs.

use crate::pages_of_iconv::{ISO_8859_2, WINDOWS_1250, WINDOWS_1251, WINDOWS_1252};
use split_encoding::{DecodeFault, Encoding, decode, encoding_of};
use std::alloc::{AllocError, Global};
use std::process::Abort;
use std::test::Fail;

// A text with characters of one to four bytes of UTF-8, and of one and two units of UTF-16.
const TEXT: &str = "Jäger,Łódź,\u{72D0},\u{1F98A}\n";

// `TEXT` in utf-16-le.
const UTF_16_LE: [u8; 32] = [
    0x4A, 0x00, 0xE4, 0x00, 0x67, 0x00, 0x65, 0x00, 0x72, 0x00, 0x2C, 0x00, 0x41, 0x01, 0xF3, 0x00, //
    0x64, 0x00, 0x7A, 0x01, 0x2C, 0x00, 0xD0, 0x72, 0x2C, 0x00, 0x3E, 0xD8, 0x8A, 0xDD, 0x0A, 0x00, //
];

// `TEXT` in utf-16-be.
const UTF_16_BE: [u8; 32] = [
    0x00, 0x4A, 0x00, 0xE4, 0x00, 0x67, 0x00, 0x65, 0x00, 0x72, 0x00, 0x2C, 0x01, 0x41, 0x00, 0xF3, //
    0x00, 0x64, 0x01, 0x7A, 0x00, 0x2C, 0x72, 0xD0, 0x00, 0x2C, 0xD8, 0x3E, 0xDD, 0x8A, 0x00, 0x0A, //
];

// `TEXT` in utf-32-le.
const UTF_32_LE: [u8; 60] = [
    0x4A, 0x00, 0x00, 0x00, 0xE4, 0x00, 0x00, 0x00, 0x67, 0x00, 0x00, 0x00, 0x65, 0x00, 0x00, 0x00, //
    0x72, 0x00, 0x00, 0x00, 0x2C, 0x00, 0x00, 0x00, 0x41, 0x01, 0x00, 0x00, 0xF3, 0x00, 0x00, 0x00, //
    0x64, 0x00, 0x00, 0x00, 0x7A, 0x01, 0x00, 0x00, 0x2C, 0x00, 0x00, 0x00, 0xD0, 0x72, 0x00, 0x00, //
    0x2C, 0x00, 0x00, 0x00, 0x8A, 0xF9, 0x01, 0x00, 0x0A, 0x00, 0x00, 0x00, //
];

// `TEXT` in utf-32-be.
const UTF_32_BE: [u8; 60] = [
    0x00, 0x00, 0x00, 0x4A, 0x00, 0x00, 0x00, 0xE4, 0x00, 0x00, 0x00, 0x67, 0x00, 0x00, 0x00, 0x65, //
    0x00, 0x00, 0x00, 0x72, 0x00, 0x00, 0x00, 0x2C, 0x00, 0x00, 0x01, 0x41, 0x00, 0x00, 0x00, 0xF3, //
    0x00, 0x00, 0x00, 0x64, 0x00, 0x00, 0x01, 0x7A, 0x00, 0x00, 0x00, 0x2C, 0x00, 0x00, 0x72, 0xD0, //
    0x00, 0x00, 0x00, 0x2C, 0x00, 0x01, 0xF9, 0x8A, 0x00, 0x00, 0x00, 0x0A, //
];

// Names of encodings.
const NAMES: [(&str, Encoding); 26] = [
    ("utf-8", Encoding::Utf8),
    ("UTF-8", Encoding::Utf8),
    ("utf8", Encoding::Utf8),
    ("utf_8", Encoding::Utf8),
    ("utf-8-sig", Encoding::Utf8),
    ("us-ascii", Encoding::Ascii),
    ("ASCII", Encoding::Ascii),
    ("utf-16", Encoding::Utf16),
    ("UTF16", Encoding::Utf16),
    ("utf-16-le", Encoding::Utf16Le),
    ("UTF-16BE", Encoding::Utf16Be),
    ("utf_32", Encoding::Utf32),
    ("utf-32-le", Encoding::Utf32Le),
    ("utf-32be", Encoding::Utf32Be),
    ("latin-1", Encoding::Latin1),
    ("Latin_1", Encoding::Latin1),
    ("latin1", Encoding::Latin1),
    ("ISO-8859-1", Encoding::Latin1),
    ("iso8859-1", Encoding::Latin1),
    ("L1", Encoding::Latin1),
    ("iso-8859-2", Encoding::Latin2),
    ("latin2", Encoding::Latin2),
    ("cp1250", Encoding::Windows1250),
    ("Windows-1251", Encoding::Windows1251),
    ("cp1252", Encoding::Windows1252),
    ("windows 1252", Encoding::Windows1252),
];

// Names of none that is read.
const OTHER_NAMES: [&str; 13] = [
    "", "-", "klingon", "hex", "punycode", "idna", "utf-7", "utf", "utf-8-", "-utf-8", "latin-9",
    "cp1253", "l\u{131}",
];

// Whether the bytes are this text.
fn is_text(alloc: Global, bytes: &[u8], encoding: Encoding, text: &str) -> bool {
    match decode(alloc, bytes, encoding) {
        Ok(decoded) => decoded.as_slice() == text.as_bytes(),
        Err(_) => false,
    }
}

// Bytes behind a byte order mark.
fn marked(alloc: Global, mark: &[u8], bytes: &[u8]) -> Result<Vec<u8>, AllocError> {
    let mut all = mark.to_vec(alloc)?;
    all.extend_from_slice(bytes)?;
    Ok(all)
}

#[test]
fn names_are_found_in_any_letters(rt: HostRuntime) {
    for (name, encoding) in NAMES {
        assert!(rt; encoding_of(name.as_bytes()) == Some(encoding), "{name}");
    }
    for name in OTHER_NAMES {
        assert!(rt; encoding_of(name.as_bytes()) == None, "{name}");
    }
}

#[test]
fn each_encoding_is_found_by_its_name(rt: HostRuntime) {
    for encoding in Encoding::ALL {
        let name = encoding.name();
        assert!(rt; encoding_of(name.as_bytes()) == Some(encoding), "{name}");
    }
}

#[test]
fn units_of_either_order_are_read(rt: HostRuntime) {
    let alloc = rt.alloc();
    assert!(rt;
        is_text(alloc, &UTF_16_LE, Encoding::Utf16Le, TEXT),
        "UTF-16, little"
    );
    assert!(rt;
        is_text(alloc, &UTF_16_BE, Encoding::Utf16Be, TEXT),
        "UTF-16, big"
    );
    assert!(rt;
        is_text(alloc, &UTF_32_LE, Encoding::Utf32Le, TEXT),
        "UTF-32, little"
    );
    assert!(rt;
        is_text(alloc, &UTF_32_BE, Encoding::Utf32Be, TEXT),
        "UTF-32, big"
    );
}

#[test]
fn a_mark_tells_the_order_and_is_none_of_the_text(rt: HostRuntime) -> Result<(), Fail> {
    let alloc = rt.alloc();
    let little = marked(alloc, b"\xFF\xFE", &UTF_16_LE)?;
    assert!(rt;
        is_text(alloc, little.as_slice(), Encoding::Utf16, TEXT),
        "UTF-16, little"
    );
    let big = marked(alloc, b"\xFE\xFF", &UTF_16_BE)?;
    assert!(rt;
        is_text(alloc, big.as_slice(), Encoding::Utf16, TEXT),
        "UTF-16, big"
    );
    let little = marked(alloc, b"\xFF\xFE\0\0", &UTF_32_LE)?;
    assert!(rt;
        is_text(alloc, little.as_slice(), Encoding::Utf32, TEXT),
        "UTF-32, little"
    );
    let big = marked(alloc, b"\0\0\xFE\xFF", &UTF_32_BE)?;
    assert!(rt;
        is_text(alloc, big.as_slice(), Encoding::Utf32, TEXT),
        "UTF-32, big"
    );
    Ok(())
}

#[test]
fn a_mark_stays_where_the_order_is_named(rt: HostRuntime) {
    let alloc = rt.alloc();
    assert!(rt;
        is_text(alloc, b"\xEF\xBB\xBFa", Encoding::Utf8, "\u{FEFF}a"),
        "UTF-8"
    );
    assert!(rt;
        is_text(alloc, b"\xFF\xFEa\0", Encoding::Utf16Le, "\u{FEFF}a"),
        "UTF-16"
    );
    assert!(rt;
        is_text(
            alloc,
            b"\0\0\xFE\xFF\0\0\0a",
            Encoding::Utf32Be,
            "\u{FEFF}a"
        ),
        "UTF-32"
    );
    assert!(rt;
        is_text(alloc, b"\xFF\xFE\xFF\xFE", Encoding::Utf16, "\u{FEFF}"),
        "a second one"
    );
}

#[test]
fn bytes_are_characters_in_code_pages(rt: HostRuntime) {
    let alloc = rt.alloc();
    let polish = "Jäger,Łódź\n";
    assert!(rt;
        is_text(alloc, polish.as_bytes(), Encoding::Utf8, polish),
        "UTF-8"
    );
    assert!(rt;
        is_text(alloc, b"fox,1\r\n", Encoding::Ascii, "fox,1\r\n"),
        "ASCII"
    );
    assert!(rt;
        is_text(
            alloc,
            b"J\xE4ger,\xA3\xF3d\x9F\n",
            Encoding::Windows1250,
            polish
        ),
        "1250"
    );
    assert!(rt;
        is_text(alloc, b"J\xE4ger,\xA3\xF3d\xBC\n", Encoding::Latin2, polish),
        "8859-2"
    );
    assert!(rt;
        is_text(
            alloc,
            b"\xA8\xE6,\xEB\xE8\xF1\xE0\n",
            Encoding::Windows1251,
            "Ёж,лиса\n"
        ),
        "1251"
    );
    assert!(rt;
        is_text(
            alloc,
            b"J\xE4ger \x805\n",
            Encoding::Windows1252,
            "Jäger €5\n"
        ),
        "1252"
    );
    assert!(rt;
        is_text(
            alloc,
            b"J\xE4ger \x805\n",
            Encoding::Latin1,
            "Jäger \u{80}5\n"
        ),
        "8859-1"
    );
}

#[test]
fn no_bytes_are_a_text_of_each_encoding(rt: HostRuntime) {
    for encoding in Encoding::ALL {
        assert!(rt;
            is_text(rt.alloc(), b"", encoding, ""),
            "{}",
            encoding.name()
        );
    }
}

// Asserts that a byte is the character of this number, or none for 0xFFFD.
fn assert_character(rt: &impl Abort, alloc: Global, byte: u8, encoding: Encoding, number: u32) {
    let decoded = decode(alloc, &[byte], encoding);
    if number == 0xFFFD {
        assert!(rt;
            decoded == Err(DecodeFault::NoCharacter { place: 0 }),
            "{byte}"
        );
        return;
    }
    match decoded {
        Ok(text) => {
            let characters = str::from_utf8(text.as_slice()).unwrap_or_default();
            assert!(rt; characters.chars().map(u32::from).eq([number]), "{byte}");
        }
        Err(_) => assert!(rt; false, "{byte} is refused"),
    }
}

// Asserts that the bytes from 128 on are these characters, and those below are ASCII.
fn assert_page(rt: &impl Abort, alloc: Global, encoding: Encoding, page: &[u32]) {
    for byte in 0..128u8 {
        assert_character(rt, alloc, byte, encoding, u32::from(byte));
    }
    for (byte, number) in (128..=255u8).zip(page) {
        assert_character(rt, alloc, byte, encoding, *number);
    }
}

#[test]
fn code_pages_are_those_of_iconv(rt: HostRuntime) {
    let alloc = rt.alloc();
    assert_page(&rt, alloc, Encoding::Latin2, &ISO_8859_2);
    assert_page(&rt, alloc, Encoding::Windows1250, &WINDOWS_1250);
    assert_page(&rt, alloc, Encoding::Windows1251, &WINDOWS_1251);
    assert_page(&rt, alloc, Encoding::Windows1252, &WINDOWS_1252);
}

#[test]
fn each_byte_of_latin_1_is_the_number_of_its_character(rt: HostRuntime) {
    for byte in 0..=255u8 {
        assert_character(&rt, rt.alloc(), byte, Encoding::Latin1, u32::from(byte));
    }
}
