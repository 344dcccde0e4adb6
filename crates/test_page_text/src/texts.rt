// Tests of texts of users. What is expected was computed by `escaped`, `attribute`, `named` and `listed` of formats.py, and by
// `shown_cell` of output.py with Python's csv.writer; that of a carriage return by the rule that a reader may end a line there;
// that of a style sheet by Python's re.

use crate::written::is_written;
use page_text::{push_attribute, push_cell, push_escaped, push_listed, push_named, styled};

// Texts, and what is shown of them.
const SHOWN: [(&[u8], &[u8]); 13] = [
    (b"fox", b"fox"),
    (b"", b""),
    (b"<b>&\"'</b>", b"&lt;b&gt;&amp;&quot;&#x27;&lt;/b&gt;"),
    (b"a\x1B[31m\n\x7F", b"a\\x1b[31m\\x0a\\x7f"),
    (
        b"\xC2\x80\xC2\x85\xC2\x9F\xC2\xA0",
        b"\\x80\\x85\\x9f\xC2\xA0",
    ),
    (
        b"a\xE2\x80\x8B\xE2\x80\x8C\xE2\x80\x8E\xE2\x80\x8F\xE2\x80\x90",
        b"a\\u200b\xE2\x80\x8C\\u200e\\u200f\xE2\x80\x90",
    ),
    (
        b"\xE2\x80\xA7\xE2\x80\xA8\xE2\x80\xA9\xE2\x80\xAA\xE2\x80\xAE\xE2\x80\xAF",
        b"\xE2\x80\xA7\\u2028\\u2029\\u202a\\u202e\xE2\x80\xAF",
    ),
    (
        b"\xE2\x81\x9F\xE2\x81\xA0\xE2\x81\xA9\xE2\x81\xAA",
        b"\xE2\x81\x9F\\u2060\\u2069\xE2\x81\xAA",
    ),
    (b"\xEF\xBB\xBF\xEF\xBB\xBE", b"\\ufeff\xEF\xBB\xBE"),
    (b"\xF0\x9F\xA6\x8A", b"\xF0\x9F\xA6\x8A"),
    (b"&amp;\\x1b", b"&amp;amp;\\x1b"),
    (b"\xFF\xC2\x85\xE2\x80", b"\xFF\\x85\xE2\x80"),
    (b"\xF0\xE2\x80\xAE\xC2", b"\xF0\\u202e\xC2"),
];

// Texts, and their cells.
const CELLS: [(&str, &str); 18] = [
    ("fox", "fox"),
    ("", ""),
    ("=1+1", "'=1+1"),
    ("+a", "'+a"),
    ("-a", "'-a"),
    ("@a", "'@a"),
    ("\ta", "'\ta"),
    ("\ra", "\"'\ra\""),
    ("'a", "''a"),
    ("a=b", "a=b"),
    ("a,b", "\"a,b\""),
    ("=a,\"b\"", "\"'=a,\"\"b\"\"\""),
    ("a\nb", "\"a\nb\""),
    ("a\rb", "\"a\rb\""),
    ("\"", "\"\"\"\""),
    ("'", "''"),
    ("Łódź", "Łódź"),
    ("a b", "a b"),
];

// Texts, how many characters of them there may be, and what a style sheet has of them.
const STYLED: [(&str, usize, &str); 8] = [
    ("Ranges of 2026", 80, "Ranges of 2026"),
    ("", 80, ""),
    (
        "\"</style>{}\\41",
        80,
        "\\000022 \\00003c \\00002f style\\00003e \\00007b \\00007d \\00005c 41",
    ),
    (
        "a\nb\u{0}\u{7f}\u{85}\u{202e}\u{200b}\u{feff}",
        80,
        "a\\00fffd b\\00fffd \\00fffd \\00fffd \\00fffd \\00fffd \\00fffd ",
    ),
    ("Łódź 🦊", 80, "\\000141 \\0000f3 d\\00017a  \\01f98a "),
    ("abcdef", 6, "abcdef"),
    ("abcdef", 5, "abcde\\002026 "),
    ("ab", 0, "\\002026 "),
];

#[test]
fn texts_end_no_string_of_a_style_sheet(rt: HostRuntime) {
    for (value, most, expected) in STYLED {
        let text = styled(rt.alloc(), value, most);
        assert!(rt;
            text.is_ok_and(|text| text.as_slice() == expected.as_bytes()),
            "{value:?}"
        );
    }
}

#[test]
fn texts_are_shown_without_markup(rt: HostRuntime) {
    for (line, expected) in SHOWN {
        let mut text = Vec::new(rt.alloc());
        let pushed = push_escaped(&mut text, line);
        assert!(rt; is_written(&text, pushed, expected), "{line:?}");
    }
}

#[test]
fn attributes_keep_what_is_not_seen(rt: HostRuntime) {
    let mut text = Vec::new(rt.alloc());
    let pushed = push_attribute(&mut text, b"a<b>\n\"'&\x1B");
    assert!(rt;
        is_written(&text, pushed, b"a&lt;b&gt;\n&quot;&#x27;&amp;\x1B"),
        "only markup is escaped"
    );
}

#[test]
fn names_stand_apart(rt: HostRuntime) {
    let mut text = Vec::new(rt.alloc());
    let pushed = push_named(&mut text, b"o<l\xE2\x80\xAE");
    assert!(rt;
        is_written(&text, pushed, b"<bdi>o&lt;l\\u202e</bdi>"),
        "the name is in an element of its own"
    );
}

#[test]
fn cells_are_quoted_and_not_computed(rt: HostRuntime) {
    for (value, expected) in CELLS {
        let mut text = Vec::new(rt.alloc());
        let pushed = push_cell(&mut text, value.as_bytes());
        assert!(rt; is_written(&text, pushed, expected.as_bytes()), "{value:?}");
    }
}

#[test]
fn words_are_listed(rt: HostRuntime) {
    let words: [&[u8]; 4] = [b"a", b"b", b"c", b"d"];
    for (count, expected) in [
        (0, ""),
        (1, "a"),
        (2, "a and b"),
        (3, "a, b and c"),
        (4, "a, b, c and d"),
    ] {
        let mut text = Vec::new(rt.alloc());
        let pushed = push_listed(&mut text, words.get(..count).unwrap_or(&[]));
        assert!(rt;
            is_written(&text, pushed, expected.as_bytes()),
            "{count} words"
        );
    }
}
