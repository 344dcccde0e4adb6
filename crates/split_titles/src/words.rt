// The words of titles.

use crate::signs::is_wide_sign;

// What a byte of a title is.
#[derive(Clone, Copy, PartialEq, Eq)]
enum Letter {
    Small,
    Great,
    Digit,
    Sign,
}

// What a byte is by itself. Of those that are no ASCII all but these lead to letters: they begin the signs from U+0080 to U+00BF,
// as the degree and a blank that does not break, and from U+2000 to U+2FFF.
fn letter_of(byte: u8) -> Letter {
    match byte {
        b'a'..=b'z' => Letter::Small,
        b'A'..=b'Z' => Letter::Great,
        b'0'..=b'9' => Letter::Digit,
        0xC2 | 0xE2 => Letter::Sign,
        0x80.. => Letter::Small,
        _ => Letter::Sign,
    }
}

// The small letter of one that two bytes write, a Latin one of Europe, a Greek or a Cyrillic one; other letters as they are.
fn small_pair(first: u8, second: u8) -> (u8, u8) {
    match (first, second) {
        (0xC3, 0x80..=0x96 | 0x98..=0x9E) => (first, second | 0x20),
        (0xC4, 0x80..=0xB7) | (0xC5, 0x8A..=0xB7) => (first, second | 1),
        (0xC4, 0xB9 | 0xBB | 0xBD) => (first, second.saturating_add(1)),
        (0xC5, 0x81 | 0x83 | 0x85 | 0x87 | 0xB9 | 0xBB | 0xBD) => (first, second.saturating_add(1)),
        (0xC8, 0x98 | 0x9A) => (first, second | 1),
        (0xCE, 0x86) => (first, 0xAC),
        (0xCE, 0x88..=0x8A) => (first, second.saturating_add(0x25)),
        (0xCE, 0x8C) => (0xCF, second),
        (0xCE, 0x8E | 0x8F) => (0xCF, second.saturating_sub(1)),
        (0xCE, 0x91..=0x9F) => (first, second | 0x20),
        (0xCE, 0xA0..=0xAB) => (0xCF, second & 0x9F),
        (0xD0, 0x80..=0x8F) => (0xD1, second | 0x10),
        (0xD0, 0x90..=0x9F) => (first, second | 0x20),
        (0xD0, 0xA0..=0xAF) => (0xD1, second & 0x8F),
        _ => (first, second),
    }
}

// The plain small letters of those from U+00C0, U+0100 and U+0140 on, 64 of each; a point for those that stay.
const FROM_C0: &[u8] = b"aaaaaa.ceeeeiiii.nooooo.ouuuuy..aaaaaa.ceeeeiiii.nooooo.ouuuuy.y";

const FROM_100: &[u8] = b"aaaaaaccccccccddddeeeeeeeeeegggggggghhhhiiiiiiiiii..jjkk.lllllll";

const FROM_140: &[u8] = b"lllnnnnnn...oooooo..rrrrrrssssssssttttttuuuuuuuuuuuuwwyyyzzzzzz.";

// The plain small letter of a Latin one that two bytes write; a point for others.
fn plain_latin(first: u8, second: u8) -> u8 {
    let letters = match first {
        0xC3 => FROM_C0,
        0xC4 => FROM_100,
        0xC5 => FROM_140,
        _ => b"",
    };
    match (first, second) {
        (0xC8, 0x98 | 0x99) => b's',
        (0xC8, 0x9A | 0x9B) => b't',
        _ => *letters.get(usize::from(second & 0x3F)).unwrap_or(&b'.'),
    }
}

// A small Greek or Cyrillic letter without its accent; other letters as they are.
fn without_accent(first: u8, second: u8) -> (u8, u8) {
    match (first, second) {
        (0xCE, 0xAC) => (0xCE, 0xB1),
        (0xCE, 0xAD) => (0xCE, 0xB5),
        (0xCE, 0xAE) => (0xCE, 0xB7),
        (0xCE, 0xAF | 0x90) | (0xCF, 0x8A) => (0xCE, 0xB9),
        (0xCE, 0xB0) | (0xCF, 0x8B | 0x8D) => (0xCF, 0x85),
        (0xCF, 0x8C) => (0xCE, 0xBF),
        (0xCF, 0x8E) => (0xCF, 0x89),
        (0xCF, 0x82) => (0xCF, 0x83),
        (0xD0, 0xB9) | (0xD1, 0x9D) => (0xD0, 0xB8),
        (0xD1, 0x90 | 0x91) => (0xD0, 0xB5),
        (0xD1, 0x93) => (0xD0, 0xB3),
        (0xD1, 0x97) => (0xD1, 0x96),
        (0xD1, 0x9C) => (0xD0, 0xBA),
        (0xD1, 0x9E) => (0xD1, 0x83),
        _ => (first, second),
    }
}

// The plain small letter of one that two bytes write, a Latin one behind 0.
fn plain_pair(first: u8, second: u8) -> (u8, u8) {
    match plain_latin(first, second) {
        b'.' => {
            let (first, second) = small_pair(first, second);
            without_accent(first, second)
        }
        letter => (0, letter),
    }
}

// Whether a byte begins a letter that `small_pair` knows, or a mark that combines with the letter before it.
fn begins_pair(byte: u8) -> bool {
    matches!(byte, 0xC3..=0xC5 | 0xC8 | 0xCC..=0xCF | 0xD0 | 0xD1)
}

// Whether a byte goes on with a character of UTF-8.
fn goes_on(byte: u8) -> bool {
    0x80 <= byte && byte < 0xC0
}

// Whether two bytes write a great letter that `small_pair` knows.
fn is_great_pair(first: u8, second: u8) -> bool {
    small_pair(first, second) != (first, second)
}

// Whether two bytes write a mark that combines with the letter before it, from U+0300 to U+036F.
fn is_mark(first: u8, second: u8) -> bool {
    match (first, second) {
        (0xCC, 0x80..=0xBF) | (0xCD, 0x80..=0xAF) => true,
        _ => false,
    }
}

// A text without the marks at its end that combine with letters.
fn without_marks_behind(text: &[u8]) -> &[u8] {
    let mut rest = text;
    for _ in 0..text.len() {
        rest = match rest {
            [start @ .., first, last] if is_mark(*first, *last) => start,
            _ => return rest,
        };
    }
    rest
}

// What the last byte of a text is, by those before it.
fn last_letter(text: &[u8]) -> Letter {
    match without_marks_behind(text) {
        [.., 0xC2, last] if goes_on(*last) => Letter::Sign,
        [.., 0xE2, last] if goes_on(*last) => Letter::Sign,
        [.., 0xE2, between, last] if goes_on(*between) && goes_on(*last) => Letter::Sign,
        [.., first, last] if is_great_pair(*first, *last) => Letter::Great,
        [.., last] => letter_of(*last),
        [] => Letter::Sign,
    }
}

// Whether the byte at a place of a title is one of three that write a wide sign.
fn is_of_wide_sign(title: &[u8], place: usize) -> bool {
    for back in 0..3 {
        match place.checked_sub(back) {
            Some(start) if is_wide_sign(behind(title, start)) => return true,
            _ => {}
        }
    }
    false
}

// What the byte at a place of a title is.
fn letter_at(title: &[u8], place: usize) -> Letter {
    let start = title.get(..=place).unwrap_or(b"");
    match start.last() {
        Some(byte) if !byte.is_ascii() && is_of_wide_sign(title, place) => Letter::Sign,
        _ => last_letter(start),
    }
}

// Whether a word goes on from a letter to the next one: not from a small letter to a great one, nor between letters and digits.
fn joins(before: Letter, letter: Letter) -> bool {
    match (before, letter) {
        (Letter::Digit, Letter::Digit) | (Letter::Great, Letter::Great) => true,
        (Letter::Small | Letter::Great, Letter::Small) => true,
        _ => false,
    }
}

// Whether a text begins with the first byte of a letter that `small_pair` knows.
fn is_inside_pair(text: &[u8]) -> bool {
    match text {
        [first, second, ..] => begins_pair(*first) && goes_on(*second),
        _ => false,
    }
}

// Whether a word goes on at a place of a title.
fn goes_on_at(title: &[u8], place: usize) -> bool {
    match place.checked_sub(1) {
        Some(before) => {
            is_inside_pair(behind(title, before))
                || joins(letter_at(title, before), letter_at(title, place))
        }
        None => false,
    }
}

// Whether a word of a title begins at a place.
pub(crate) fn begins_at(title: &[u8], place: usize) -> bool {
    letter_at(title, place) != Letter::Sign && !goes_on_at(title, place)
}

// Where the word of a title that begins at a place ends.
fn end_of(title: &[u8], place: usize) -> usize {
    for at in place.saturating_add(1)..title.len() {
        if !goes_on_at(title, at) {
            return at;
        }
    }
    title.len()
}

// The word of a title that begins at a place; empty where none does.
pub(crate) fn word_from(title: &[u8], place: usize) -> &[u8] {
    if begins_at(title, place) {
        title.get(place..end_of(title, place)).unwrap_or(b"")
    } else {
        b""
    }
}

// The start of a text, of at most this length.
pub(crate) fn start_of(text: &[u8], length: usize) -> &[u8] {
    match text.split_at_checked(length) {
        Some((start, _)) => start,
        None => text,
    }
}

// A text behind a start of this length; empty where it is no longer.
pub(crate) fn behind(text: &[u8], length: usize) -> &[u8] {
    match text.split_at_checked(length) {
        Some((_, rest)) => rest,
        None => b"",
    }
}

// The first word of a title that begins at a place or behind it; empty where none does.
pub(crate) fn next_word(title: &[u8], from: usize) -> &[u8] {
    for place in from..title.len() {
        let word = word_from(title, place);
        if !word.is_empty() {
            return word;
        }
    }
    b""
}

// Whether a title has one word alone.
pub(crate) fn is_one_word(title: &[u8]) -> bool {
    for place in 0..title.len() {
        let word = word_from(title, place);
        if !word.is_empty() {
            return next_word(title, place.saturating_add(word.len())).is_empty();
        }
    }
    false
}

// The last word of a title that begins before a place; empty where none does.
pub(crate) fn word_before(title: &[u8], place: usize) -> &[u8] {
    for back in 0..place {
        let word = word_from(title, place.saturating_sub(back.saturating_add(1)));
        if !word.is_empty() {
            return word;
        }
    }
    b""
}

// The first letter of a text, plain and small, and how many bytes write it. One of ASCII stands behind 0.
fn first_letter(text: &[u8]) -> ((u8, u8), usize) {
    match text {
        [first, second, ..] if begins_pair(*first) => (plain_pair(*first, *second), 2),
        [only, ..] => ((0, only.to_ascii_lowercase()), 1),
        [] => ((0, 0), 0),
    }
}

// A text without the marks at its start that combine with the letter before them.
fn without_marks(text: &[u8]) -> &[u8] {
    let mut rest = text;
    for _ in 0..text.len() {
        rest = match rest {
            [first, second, others @ ..] if is_mark(*first, *second) => others,
            _ => return rest,
        };
    }
    rest
}

// Whether two words may be the same, by their first letters, if these are of ASCII.
fn may_be_same(word: &[u8], other: &[u8]) -> bool {
    match (word.first(), other.first()) {
        (Some(one), Some(two)) if one.is_ascii() && two.is_ascii() => one.eq_ignore_ascii_case(two),
        (Some(_), Some(_)) | (None, None) => true,
        _ => false,
    }
}

// Whether two words are the same in small letters without accents.
pub(crate) fn is_same(word: &[u8], other: &[u8]) -> bool {
    if !may_be_same(word, other) {
        return false;
    }
    let (mut one, mut two) = (word, other);
    for _ in 0..word.len() {
        let (letter, length) = first_letter(one);
        let (own, own_length) = first_letter(two);
        if letter != own {
            return false;
        }
        one = without_marks(behind(one, length));
        two = without_marks(behind(two, own_length));
    }
    one.is_empty() && two.is_empty()
}

// Whether a word is one of these, in small letters without accents.
pub(crate) fn is_one_of(word: &[u8], words: &[&str]) -> bool {
    words.iter().any(|own| is_same(word, own.as_bytes()))
}

/// Whether a text without blanks beside it is one of these words, as words of titles are compared.
pub fn is_word(text: &[u8], words: &[&str]) -> bool {
    is_one_of(text.trim_ascii(), words)
}

// The least bytes of two signs of China or Japan.
const TWO_SIGNS: usize = 6;

// Whether a word has another within it that is of two signs or more, as those of China and Japan stand without blanks.
fn has_signs(word: &[u8], own: &[u8]) -> bool {
    if own.len() < TWO_SIGNS {
        return false;
    }
    let are_signs = own.first().is_some_and(|byte| 0xE3 <= *byte);
    are_signs && word.windows(own.len()).any(|bytes| bytes == own)
}

// Whether one of these is a word of a title, or signs within it.
fn is_within(word: &[u8], words: &[&str]) -> bool {
    let has_more = word.len() > TWO_SIGNS && !word.is_ascii();
    is_one_of(word, words) || has_more && words.iter().any(|own| has_signs(word, own.as_bytes()))
}

/// The first word of a title that is one of these, in small letters without accents, or has such signs of China or Japan. Words of a title stand between signs that are no
/// letters and no digits, and are parted where a great letter follows a small one, and between letters and digits.
pub fn first_word<'t>(title: &'t [u8], words: &[&str]) -> Option<&'t [u8]> {
    for place in 0..title.len() {
        let word = word_from(title, place);
        if !word.is_empty() && is_within(word, words) {
            return Some(word);
        }
    }
    None
}

/// Whether a word of a title is one of these, as `first_word` finds it.
pub fn has_word(title: &[u8], words: &[&str]) -> bool {
    first_word(title, words).is_some()
}
