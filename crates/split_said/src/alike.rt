// Names that may be meant as one.

use crate::said::Said;
use crate::words::{push, push_quoted};
use indexmap::{IndexMap, IndexSet};
use range_plane::OutOfMemory;
use range_texts::is_unseen;
use std::alloc::{AllocError, Global};
use unicode_normalization::to_nfkc;

// A text without the blank at its start; `None` where there is no blank.
fn behind_blank(text: &[u8]) -> Option<&[u8]> {
    match text {
        [b' ' | b'\t', rest @ ..] => Some(rest),
        [0xC2, 0xA0, rest @ ..] => Some(rest),
        _ => None,
    }
}

// A text without the blank at its end; `None` where there is no blank.
fn before_blank(text: &[u8]) -> Option<&[u8]> {
    match text {
        [rest @ .., b' ' | b'\t'] => Some(rest),
        [rest @ .., 0xC2, 0xA0] => Some(rest),
        _ => None,
    }
}

// A text without the blanks at its start.
fn behind_blanks(text: &[u8]) -> &[u8] {
    let mut rest = text;
    for _blank in 0..text.len() {
        match behind_blank(rest) {
            Some(others) => rest = others,
            None => return rest,
        }
    }
    rest
}

// A text without the blanks at its end.
fn before_blanks(text: &[u8]) -> &[u8] {
    let mut rest = text;
    for _blank in 0..text.len() {
        match before_blank(rest) {
            Some(others) => rest = others,
            None => return rest,
        }
    }
    rest
}

// A text with one blank in place of several.
fn with_single_blanks(alloc: Global, text: &[u8]) -> Result<Vec<u8>, AllocError> {
    let mut single = Vec::new(alloc);
    for byte in text {
        if *byte != b' ' || !single.ends_with(b" ") {
            single.push(*byte)?;
        }
    }
    Ok(single)
}

// What a name has in common with those that are alike: its small letters, without blanks beside them and with one between them
// in place of several. One that is no UTF-8 is like itself alone.
fn likeness(alloc: Global, name: &[u8]) -> Result<Vec<u8>, OutOfMemory> {
    let own = with_single_blanks(alloc, before_blanks(behind_blanks(name)))?;
    match str::from_utf8(&own) {
        Ok(text) => Ok(text.to_lowercase(alloc)?.into_bytes()),
        Err(_no_text) => Ok(own),
    }
}

// Whether a character takes no place: it is not seen, and is no blank.
fn takes_no_place(character: char) -> bool {
    is_unseen(character) && !character.is_whitespace()
}

// A text without characters that take no place.
fn without_unseen(alloc: Global, text: &str) -> Result<String, OutOfMemory> {
    let mut seen = String::new(alloc);
    for character in text.chars() {
        if !takes_no_place(character) {
            seen.push(character)?;
        }
    }
    Ok(seen)
}

// What a name has in common with those that differ in the form of letters alone: its normal form of compatibility, NFKC, without
// characters that take no place. One that is no UTF-8 is like itself alone.
fn letters_of(alloc: Global, name: &[u8]) -> Result<Vec<u8>, OutOfMemory> {
    match str::from_utf8(name) {
        Ok(text) => Ok(to_nfkc(alloc, without_unseen(alloc, text)?.as_str())?.into_bytes()),
        Err(_no_text) => Ok(Vec::from_slice(alloc, name)?),
    }
}

// A number without the zeros at its start, and without decimals that are zeros; any other text as it is.
fn number_of(text: &[u8]) -> &[u8] {
    let end = text.iter().position(|byte| *byte == b'.');
    let (whole, decimals) = text.split_at(end.unwrap_or(text.len()));
    let are_zeros = decimals.iter().skip(1).all(|byte| *byte == b'0');
    if whole.is_empty() || !are_zeros || !whole.iter().all(u8::is_ascii_digit) {
        return text;
    }
    let first = whole.iter().position(|byte| *byte != b'0');
    whole.get(first.unwrap_or(whole.len())..).unwrap_or(text)
}

// What a name has in common with those that differ in the form of letters, and in blanks or capitals too.
fn likeness_of_letters(alloc: Global, name: &[u8]) -> Result<Vec<u8>, OutOfMemory> {
    likeness(alloc, &letters_of(alloc, name)?)
}

// The Latin letter that a Cyrillic or a Greek one looks like; any other character as it is.
fn latin_of(character: char) -> char {
    match character {
        '\u{391}' | '\u{410}' => 'A',
        '\u{392}' | '\u{412}' => 'B',
        '\u{421}' => 'C',
        '\u{395}' | '\u{415}' => 'E',
        '\u{397}' | '\u{41D}' => 'H',
        '\u{399}' | '\u{406}' => 'I',
        '\u{408}' => 'J',
        '\u{39A}' | '\u{41A}' => 'K',
        '\u{39C}' | '\u{41C}' => 'M',
        '\u{39D}' => 'N',
        '\u{39F}' | '\u{41E}' => 'O',
        '\u{3A1}' | '\u{420}' => 'P',
        '\u{405}' => 'S',
        '\u{3A4}' | '\u{422}' => 'T',
        '\u{3A7}' | '\u{425}' => 'X',
        '\u{3A5}' | '\u{423}' => 'Y',
        '\u{396}' => 'Z',
        '\u{430}' => 'a',
        '\u{441}' => 'c',
        '\u{435}' => 'e',
        '\u{456}' => 'i',
        '\u{458}' => 'j',
        '\u{3BF}' | '\u{43E}' => 'o',
        '\u{440}' => 'p',
        '\u{455}' => 's',
        '\u{3BD}' => 'v',
        '\u{445}' => 'x',
        '\u{443}' => 'y',
        _ => character,
    }
}

// What a name has in common with those that look the same, with letters of other scripts: Latin letters for such that look like
// them.
fn looks_of(alloc: Global, name: &[u8]) -> Result<Vec<u8>, OutOfMemory> {
    let letters = letters_of(alloc, name)?;
    let Ok(text) = str::from_utf8(&letters) else {
        return Ok(Vec::from_slice(alloc, name)?);
    };
    let mut looks = String::new(alloc);
    for character in text.chars() {
        looks.push(latin_of(character))?;
    }
    likeness(alloc, looks.as_bytes())
}

// Whether a character is a sign between words, such as a blank, a point or a dash.
fn is_sign(character: char) -> bool {
    matches!(
        character,
        ' ' | '\u{A0}' | '_' | '-' | '.' | '/' | '\u{2010}'..='\u{2015}' | '\u{2212}'
    )
}

// What a name has in common with those that differ in the signs between words.
fn words_of(alloc: Global, name: &[u8]) -> Result<Vec<u8>, OutOfMemory> {
    let letters = letters_of(alloc, name)?;
    let Ok(text) = str::from_utf8(&letters) else {
        return Ok(Vec::from_slice(alloc, name)?);
    };
    let mut words = String::new(alloc);
    for character in text.chars() {
        words.push(if is_sign(character) { ' ' } else { character })?;
    }
    likeness(alloc, words.as_bytes())
}

// That two names are alike, and what they differ in.
fn alike_text(
    alloc: Global,
    first: &[u8],
    second: &[u8],
    what: &str,
) -> Result<Vec<u8>, AllocError> {
    let mut text = Vec::new(alloc);
    push(&mut text, "animals ")?;
    push_quoted(&mut text, first)?;
    push(&mut text, " and ")?;
    push_quoted(&mut text, second)?;
    push(&mut text, " differ in ")?;
    push(&mut text, what)?;
    push(&mut text, " alone: are they one?")?;
    Ok(text)
}

// The first name of this key, if there was one; else this name is the first.
fn first_of<'a>(
    known: &mut IndexMap<Vec<u8>, &'a [u8]>,
    key: Vec<u8>,
    name: &'a [u8],
) -> Result<Option<&'a [u8]>, OutOfMemory> {
    let first = known.get(key.as_slice()).copied();
    if first.is_none() {
        let _none = known.insert(key, name)?;
    }
    Ok(first)
}

// The names that were seen, by what they have in common with others.
#[derive(Drop)]
struct Known<'a> {
    by_likeness: IndexMap<Vec<u8>, &'a [u8]>,
    by_letters: IndexMap<Vec<u8>, &'a [u8]>,
    by_both: IndexMap<Vec<u8>, &'a [u8]>,
    by_looks: IndexMap<Vec<u8>, &'a [u8]>,
    by_words: IndexMap<Vec<u8>, &'a [u8]>,
    by_number: IndexMap<Vec<u8>, &'a [u8]>,
}

// Says that a name may be meant as one with the first that it is like, if there is one, and what they differ in.
fn tell_first(
    alloc: Global,
    said: &mut Said,
    first: Option<&[u8]>,
    name: &[u8],
    what: &str,
) -> Result<(), OutOfMemory> {
    match first {
        Some(first) => said.say(alloc, &alike_text(alloc, first, name, what)?),
        None => Ok(()),
    }
}

// Says which names before this one may be meant as one with it: the first from which it differs in blanks or capitals, and the
// first from which it differs in the form of letters, if that is another one; or else the first from which it differs in both,
// or in letters of other scripts, or in the signs between words; and the first that is the same number, with other zeros.
fn tell_name<'a>(
    alloc: Global,
    said: &mut Said,
    known: &mut Known<'a>,
    name: &'a [u8],
) -> Result<(), OutOfMemory> {
    let alike = first_of(&mut known.by_likeness, likeness(alloc, name)?, name)?;
    let same = first_of(&mut known.by_letters, letters_of(alloc, name)?, name)?;
    let both = first_of(&mut known.by_both, likeness_of_letters(alloc, name)?, name)?;
    let looks = first_of(&mut known.by_looks, looks_of(alloc, name)?, name)?;
    let words = first_of(&mut known.by_words, words_of(alloc, name)?, name)?;
    let number = Vec::from_slice(alloc, number_of(name))?;
    let equal = first_of(&mut known.by_number, number, name)?;
    tell_first(alloc, said, equal, name, "zeros")?;
    tell_first(alloc, said, alike, name, "blanks or capitals")?;
    if alike != same {
        tell_first(alloc, said, same, name, "the form of letters")?;
    }
    if alike.is_none() && same.is_none() {
        let what = "the form of letters and in blanks or capitals";
        tell_first(alloc, said, both, name, what)?;
    }
    if both.is_none() {
        let what = "letters of other scripts that look the same";
        tell_first(alloc, said, looks, name, what)?;
    }
    if both.is_none() && looks.is_none() {
        tell_first(alloc, said, words, name, "the signs between words")?;
    }
    Ok(())
}

// Says which names may be meant as one, each with the first that it is like.
pub(crate) fn tell_alike(
    alloc: Global,
    said: &mut Said,
    names: &IndexSet<Vec<u8>>,
) -> Result<(), OutOfMemory> {
    let mut known = Known {
        by_likeness: IndexMap::new(alloc),
        by_letters: IndexMap::new(alloc),
        by_both: IndexMap::new(alloc),
        by_looks: IndexMap::new(alloc),
        by_words: IndexMap::new(alloc),
        by_number: IndexMap::new(alloc),
    };
    for name in names.iter() {
        tell_name(alloc, said, &mut known, name)?;
    }
    Ok(())
}
