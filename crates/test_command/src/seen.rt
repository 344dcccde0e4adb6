// Which characters are seen, held to lists of Unicode's own data.

use range_texts::{Name, OneLine, is_unseen};
use std::alloc::Global;
use std::process::Abort;
use std::test::Fail;

// The format characters (general category Cf) of Unicode 14.0.0, as Python's `unicodedata` has them.
const FORMATS: [(char, char); 21] = [
    ('\u{ad}', '\u{ad}'),
    ('\u{600}', '\u{605}'),
    ('\u{61c}', '\u{61c}'),
    ('\u{6dd}', '\u{6dd}'),
    ('\u{70f}', '\u{70f}'),
    ('\u{890}', '\u{891}'),
    ('\u{8e2}', '\u{8e2}'),
    ('\u{180e}', '\u{180e}'),
    ('\u{200b}', '\u{200f}'),
    ('\u{202a}', '\u{202e}'),
    ('\u{2060}', '\u{2064}'),
    ('\u{2066}', '\u{206f}'),
    ('\u{feff}', '\u{feff}'),
    ('\u{fff9}', '\u{fffb}'),
    ('\u{110bd}', '\u{110bd}'),
    ('\u{110cd}', '\u{110cd}'),
    ('\u{13430}', '\u{13438}'),
    ('\u{1bca0}', '\u{1bca3}'),
    ('\u{1d173}', '\u{1d17a}'),
    ('\u{e0001}', '\u{e0001}'),
    ('\u{e0020}', '\u{e007f}'),
];

// Each character from one to another is unseen.
fn expect_unseen<R: Abort>(rt: &R, first: char, last: char) -> Result<(), Fail> {
    for code in u32::from(first)..=u32::from(last) {
        let character = char::from_u32(code).ok_or("no character")?;
        assert!(rt; is_unseen(character), "{code}");
    }
    Ok(())
}

// Each character that controls, formats or ends a line is unseen, and so are blanks that show nothing.
#[test]
fn characters_that_control_format_or_show_nothing_are_unseen(rt: HostRuntime) -> Result<(), Fail> {
    for (first, last) in FORMATS {
        expect_unseen(&rt, first, last)?;
    }
    expect_unseen(&rt, '\u{0}', '\u{1f}')?;
    expect_unseen(&rt, '\u{7f}', '\u{9f}')?;
    let others = [
        '\u{2028}',
        '\u{2029}',
        '\u{a0}',
        '\u{2003}',
        '\u{3000}',
        '\u{34f}',
        '\u{115f}',
        '\u{3164}',
        '\u{ffa0}',
        '\u{fe0f}',
        '\u{e0100}',
        '\u{e000}',
        '\u{fffe}',
        '\u{10ffff}',
    ];
    for character in others {
        expect_unseen(&rt, character, character)?;
    }
    Ok(())
}

#[test]
fn letters_marks_signs_and_pictures_are_seen(rt: HostRuntime) {
    for character in "aZ09 ~\\'\"-_./éßØæ߷Жא؟अ中가\u{301}€∑🦊".chars() {
        assert!(rt; !is_unseen(character), "{character}");
    }
}

// A text is shown so where it is to be told, and so where a backslash stays; and as a name as where it is told.
fn expect_shown<R: Abort>(
    rt: &R,
    alloc: Global,
    text: &str,
    told: &str,
    plain: &str,
) -> Result<(), Fail> {
    let shown = format!(in alloc; "{}", OneLine::new(text))?;
    assert!(rt; shown.as_str() == told, "{shown}");
    let shown = format!(in alloc; "{}", OneLine::plain(text))?;
    assert!(rt; shown.as_str() == plain, "{shown}");
    expect_name(rt, alloc, text.as_bytes(), told)
}

// The name of an animal is shown so.
fn expect_name<R: Abort>(rt: &R, alloc: Global, bytes: &[u8], told: &str) -> Result<(), Fail> {
    let name = Name { bytes };
    let shown = format!(in alloc; "{name}")?;
    assert!(rt; shown.as_str() == told, "{shown}");
    Ok(())
}

#[test]
fn texts_and_names_are_shown_so_that_they_can_be_told(rt: HostRuntime) -> Result<(), Fail> {
    let alloc = rt.alloc();
    expect_shown(&rt, alloc, "fox.csv", "fox.csv", "fox.csv")?;
    expect_shown(&rt, alloc, "Jörð 🦊", "Jörð 🦊", "Jörð 🦊")?;
    let (unseen, written) = ("fo\u{200b}x", "fo\\u{200b}x");
    expect_shown(&rt, alloc, unseen, written, written)?;
    expect_shown(&rt, alloc, written, "fo\\\\u{200b}x", written)?;
    let (unseen, written) = ("\u{9b}31m\u{85}", "\\u{9b}31m\\u{85}");
    expect_shown(&rt, alloc, unseen, written, written)?;
    expect_shown(&rt, alloc, "a\tb\r\n", "a\\tb\\r\\n", "a\\tb\\r\\n")?;
    expect_name(&rt, alloc, b"f\xFFo\x9bx\\", "f\\xffo\\x9bx\\\\")
}
