// Signs that look like those of ASCII: dashes, blanks that do not break, and signs as wide as letters of China and Japan.

// The byte of ASCII that a text begins with, or that the sign there looks like, and how many bytes write it; another byte as it is.
pub(crate) fn sign_at(text: &[u8]) -> Option<(u8, usize)> {
    match text {
        [0xE2, 0x88, 0x92, ..] | [0xE2, 0x80, 0x90..=0x95, ..] | [0xEF, 0xB9, 0xA3, ..] => {
            Some((b'-', 3))
        }
        [0xC2, 0xA0, ..] => Some((b' ', 2)),
        [0xE2, 0x80, 0x80..=0x8A | 0xAF, ..]
        | [0xE2, 0x81, 0x9F, ..]
        | [0xE3, 0x80, 0x80, ..]
        | [0xEF, 0xBB, 0xBF, ..] => Some((b' ', 3)),
        [0xEF, 0xBC, low, ..] => Some((low.saturating_sub(0x60), 3)),
        [0xEF, 0xBD, low, ..] => Some((low.saturating_sub(0x20), 3)),
        [byte, ..] => Some((*byte, 1)),
        [] => None,
    }
}

// The byte of ASCII that a text ends with, or that the sign there looks like, and how many bytes write it; none behind other letters.
pub(crate) fn sign_before(text: &[u8]) -> Option<(u8, usize)> {
    for length in 1..4 {
        let (_, end) = text.split_at_checked(text.len().checked_sub(length)?)?;
        match sign_at(end) {
            Some((sign, own)) if own == length && sign.is_ascii() => return Some((sign, own)),
            _ => {}
        }
    }
    None
}

// Whether three bytes write a sign of China or Japan, none that stands for a letter, or a sign that is as wide or as small as theirs.
pub(crate) fn is_wide_sign(text: &[u8]) -> bool {
    match text {
        [0xE3, 0x80, 0x85..=0x87, ..] => false,
        [0xE3, 0x80, _, ..] | [0xE3, 0x83, 0xBB, ..] => true,
        [0xEF, 0xB9, 0x90..=0xAB, ..] | [0xEF, 0xBB, 0xBF, ..] => true,
        [0xEF, 0xBC, 0x81..=0x8F | 0x9A..=0xA0 | 0xBB..=0xBF, ..] => true,
        [0xEF, 0xBD, 0x80 | 0x9B..=0xA5, ..] => true,
        _ => false,
    }
}
