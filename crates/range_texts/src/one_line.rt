// Texts of users in messages of one line.

ghost use Rattle.std.specs.Prelude.{◌≡◌, Some, encode_utf8_all, false, true};
ghost use Rattle.std.specs.List.{flat_map};
ghost use Rattle.std.specs.Fmt.{WritesOnOk};
ghost use Rattle.std.specs.Char.Escape.{escape_ascii, escape_default};
ghost use Rattle.range_texts.specs.Seen.{shown_text, shown_char, shown_name};

use crate::seen::is_unseen;
use std::fmt;

/// A text that is shown in one line: a character that is not seen is written as Rust writes it, with a backslash.
#[derive(Clone, Copy)]
pub struct OneLine<'a> {
    pub text: &'a str,
    /// Whether a backslash is doubled, so that the text can be told from what is shown.
    pub doubles: bool,
}

impl<'a> OneLine<'a> {
    /// A text as it is written by a user, which can be told from what is shown.
    pub fn new(text: &'a str) -> OneLine<'a>
        ensures { (result.text ≡ text.entry) × (result.doubles ≡ true) }
    {
        OneLine {
            text,
            doubles: true,
        }
    }

    /// A text with words of others, in which a backslash stays.
    pub fn plain(text: &'a str) -> OneLine<'a>
        ensures { (result.text ≡ text.entry) × (result.doubles ≡ false) }
    {
        OneLine {
            text,
            doubles: false,
        }
    }
}

impl fmt::Display for OneLine<'_> {
    ghost output = { λ line. Some (shown_text line.doubles line.text.now) };

    fn fmt<W: fmt::Write>(&self, f: &mut fmt::Formatter<W>) -> fmt::Result {
        let mut rest = self.text.chars();
        while let Some(character) = rest.next() {
            write_shown(f, character, self.doubles)?;
        }
        Ok(())
    }
}

// Writes a character as it is shown.
fn write_shown<W: fmt::Write>(
    f: &mut fmt::Formatter<W>,
    character: char,
    doubles: bool,
) -> fmt::Result
    ensures { WritesOnOk W.write_str_gives f.old result
        (encode_utf8_all (shown_char doubles character)) f.new }
{
    if doubles && character == '\\' {
        return f.write_str("\\\\");
    }
    if is_unseen(character) {
        return write_escaped(f, character);
    }
    f.write_char(character)
}

// Writes a character as Rust writes it.
fn write_escaped<W: fmt::Write>(f: &mut fmt::Formatter<W>, character: char) -> fmt::Result
    ensures { WritesOnOk W.write_str_gives f.old result
        (encode_utf8_all (escape_default character)) f.new }
{
    let mut rest = character.escape_default();
    while let Some(escaped) = rest.next() {
        f.write_char(escaped)?;
    }
    Ok(())
}

/// The name of an animal that is shown in one line: as its text, or where it is not UTF-8 by its bytes as Rust
/// writes them.
#[derive(Clone, Copy)]
pub struct Name<'a> {
    pub bytes: &'a [u8],
}

impl fmt::Display for Name<'_> {
    ghost output = { λ name. Some (shown_name name.bytes.now) };

    fn fmt<W: fmt::Write>(&self, f: &mut fmt::Formatter<W>) -> fmt::Result {
        match str::from_utf8(self.bytes) {
            Ok(text) => write!(f, "{}", OneLine::new(text)),
            Err(_) => write_bytes(f, self.bytes),
        }
    }
}

// Writes bytes as Rust writes them.
fn write_bytes<W: fmt::Write>(f: &mut fmt::Formatter<W>, bytes: &[u8]) -> fmt::Result
    ensures { WritesOnOk W.write_str_gives f.old result
        (encode_utf8_all (flat_map escape_ascii bytes.now)) f.new }
{
    for byte in bytes {
        write_byte(f, *byte)?;
    }
    Ok(())
}

// Writes a byte as Rust writes it.
fn write_byte<W: fmt::Write>(f: &mut fmt::Formatter<W>, byte: u8) -> fmt::Result
    ensures { WritesOnOk W.write_str_gives f.old result
        (encode_utf8_all (escape_ascii byte)) f.new }
{
    let mut rest = byte.escape_ascii();
    while let Some(escaped) = rest.next() {
        f.write_char(char::from(escaped))?;
    }
    Ok(())
}
