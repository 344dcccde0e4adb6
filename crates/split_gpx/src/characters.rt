// The characters that XML can have.

/// Whether XML 1.0 can have a character.
pub(crate) fn is_of_xml(character: char) -> bool {
    match character {
        '\t' | '\n' | '\r' => true,
        '\u{FFFE}' | '\u{FFFF}' => false,
        _ => character >= ' ',
    }
}

/// How many bytes are left from the first character on that XML cannot have, if there is one.
pub(crate) fn left_from_bad(text: &str) -> Option<usize> {
    let mut left = text.len();
    for character in text.chars() {
        if !is_of_xml(character) {
            return Some(left);
        }
        left = left.saturating_sub(character.len_utf8());
    }
    None
}
