// A second look at the flags that a column has which is not read.

use split_table::{TableFault, TableText};
use split_titles::half_named;
use std::alloc::Global;

// Words for a flag that is set, and for one that is not, also that of a summer in hours, minutes and seconds.
const SET: [&str; 25] = [
    "1", "1.0", "true", "t", "yes", "y", "ja", "j", "oui", "si", "sí", "sì", "sim", "da", "ano",
    "tak", "x", "on", "dst", "summer", "sommer", "verano", "été", "60", "3600",
];

const UNSET: [&str; 21] = [
    "0", "0.0", "false", "f", "no", "n", "nein", "nee", "non", "não", "nao", "ne", "nie", "off",
    "st", "std", "standard", "winter", "invierno", "hiver", "none",
];

/// What flags say.
#[derive(Clone, Copy, PartialEq, Eq, Debug)]
pub enum Flags {
    /// Whether something is so.
    Plain,
    /// Which half of the day it is, and so whether it is the one behind noon.
    Halves,
}

/// What a text says of a flag.
#[derive(Clone, Copy, PartialEq, Eq, Debug)]
pub enum Flag {
    Missing,
    Unset,
    Set,
}

// Whether a text is one of these words.
fn is_one_of(text: &[u8], words: &[&str]) -> bool {
    words
        .iter()
        .any(|own| text.eq_ignore_ascii_case(own.as_bytes()))
}

// Whether a flag is set that a text writes in plain words, if it is one.
fn plain_flag(text: &[u8]) -> Option<bool> {
    if is_one_of(text, &SET) {
        Some(true)
    } else if is_one_of(text, &UNSET) {
        Some(false)
    } else {
        None
    }
}

// Whether a text names the half of the day behind noon, if it names one, by a letter or a word.
fn half_flag(text: &[u8]) -> Option<bool> {
    match text {
        [b'A' | b'a'] => Some(false),
        [b'P' | b'p'] => Some(true),
        _ => half_named(text),
    }
}

// The flag that a text writes, if it is one.
fn flag_of(text: &[u8], flags: Flags) -> Option<Flag> {
    let text = text.trim_ascii();
    if text.is_empty() || text == b"NA".as_slice() {
        return Some(Flag::Missing);
    }
    let is_set = match flags {
        Flags::Plain => plain_flag(text),
        Flags::Halves => half_flag(text),
    };
    match is_set {
        Some(true) => Some(Flag::Set),
        Some(false) => Some(Flag::Unset),
        None => None,
    }
}

/// The flags of a kind that a column has in the first records of a text, so many; none where one of its texts is no flag.
///
/// # Errors
///
/// Memory ran out.
pub fn flags_in(
    alloc: Global,
    text: &TableText<'_>,
    column: usize,
    count: usize,
    kind: Flags,
) -> Result<Option<Vec<Flag>>, TableFault> {
    let mut table = text.table(alloc)?;
    let mut flags = Vec::new(alloc);
    for _record in 0..count {
        if !table.advance()? {
            return Ok(Some(flags));
        }
        let Some(flag) = flag_of(table.current().get(column).unwrap_or(b""), kind) else {
            return Ok(None);
        };
        if flags.push(flag).is_err() {
            return Err(TableFault::OutOfMemory);
        }
    }
    Ok(Some(flags))
}
