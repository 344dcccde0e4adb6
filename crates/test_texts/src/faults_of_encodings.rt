// Tests of bytes that are no text of an encoding. Each place was counted by hand, and Python's codecs refuse the same bytes.

use split_encoding::{DecodeFault, Encoding, decode};

// Bytes, their encoding, and the place of the first that are no character.
const BAD: [(&[u8], Encoding, usize); 27] = [
    (b"J\xE4ger", Encoding::Ascii, 1),
    (b"\x80", Encoding::Ascii, 0),
    (b"J\xE4ger", Encoding::Utf8, 1),
    (b"ab\xC3", Encoding::Utf8, 2),
    (b"\xC0\xAF", Encoding::Utf8, 0),
    (b"a\xED\xA0\x80", Encoding::Utf8, 1),
    (b"a\xF4\x90\x80\x80", Encoding::Utf8, 1),
    (b"\xEF\xBB\xBF\xFF", Encoding::Utf8, 3),
    // An odd number of bytes.
    (b"a\0b", Encoding::Utf16Le, 2),
    (b"a", Encoding::Utf16Be, 0),
    (b"\xFF\xFEa\0b", Encoding::Utf16, 4),
    // A surrogate without the other: at the end, before a character, before one of its kind, and a second one alone.
    (b"a\0\x3E\xD8", Encoding::Utf16Le, 2),
    (b"a\0\x3E\xD8b\0", Encoding::Utf16Le, 2),
    (b"\x3E\xD8\x3E\xD8\x8A\xDD", Encoding::Utf16Le, 0),
    (b"\xFE\xFF\xDD\x8A\0a", Encoding::Utf16, 2),
    // Behind a pair.
    (b"\x3E\xD8\x8A\xDD\x8A\xDD", Encoding::Utf16Le, 4),
    // Half of a second surrogate.
    (b"\xD8\x3E\xDD", Encoding::Utf16Be, 0),
    // A surrogate, the number above the last, and the greatest number.
    (b"a\0\0\0\0\xD8\0\0", Encoding::Utf32Le, 4),
    (b"\0\0\xFE\xFF\0\x11\0\0", Encoding::Utf32, 4),
    (b"\xFF\xFF\xFF\xFF", Encoding::Utf32Be, 0),
    // A number of bytes that is no multiple of four.
    (b"a\0\0\0b\0\0", Encoding::Utf32Le, 4),
    (b"\xFF\xFE\0\0a", Encoding::Utf32, 4),
    (b"a,\x81", Encoding::Windows1252, 2),
    (b"\x98", Encoding::Windows1251, 0),
    (b"ab\x83\x81", Encoding::Windows1250, 2),
    (b"\xE4\xE4\x88", Encoding::Windows1250, 2),
    (b"a\x90", Encoding::Windows1250, 1),
];

// Bytes that do not begin with a byte order mark, and their encoding.
const WITHOUT_MARK: [(&[u8], Encoding); 7] = [
    (b"a\0", Encoding::Utf16),
    (b"\xFF", Encoding::Utf16),
    (b"\xEF\xBB\xBFa", Encoding::Utf16),
    (b"a\0\0\0", Encoding::Utf32),
    (b"\xFF\xFE", Encoding::Utf32),
    (b"\xFF\xFEa\0", Encoding::Utf32),
    (b"\xFE\xFF\0\0", Encoding::Utf32),
];

#[test]
fn bytes_that_are_no_character_are_told_by_their_place(rt: HostRuntime) {
    for (bytes, encoding, place) in BAD {
        let decoded = decode(rt.alloc(), bytes, encoding);
        assert!(rt;
            decoded == Err(DecodeFault::NoCharacter { place }),
            "{bytes:?}"
        );
    }
}

#[test]
fn a_text_without_the_mark_that_it_needs_is_told(rt: HostRuntime) {
    for (bytes, encoding) in WITHOUT_MARK {
        let decoded = decode(rt.alloc(), bytes, encoding);
        assert!(rt; decoded == Err(DecodeFault::NoMark), "{bytes:?}");
    }
}
