// References to characters: by the five names of XML, or by number.

ghost use Rattle.std.specs.Prelude.{◌≤◌};

use crate::characters::is_of_xml;
use crate::signs::split_before;

// The number of digits.
fn number_of(digits: &[u8], radix: u32) -> Option<u32>
    requires lower_bound { 2 ≤ radix }
    requires upper_bound { radix ≤ 36 }
{
    if digits.is_empty() {
        return None;
    }
    let mut number = 0u32;
    for byte in digits {
        let digit = char::from(*byte).to_digit(radix)?;
        number = number.checked_mul(radix)?.checked_add(digit)?;
    }
    Some(number)
}

// The character of a number.
fn character_of(number: Option<u32>) -> Option<char> {
    char::from_u32(number?).filter(|character| is_of_xml(*character))
}

// The character that stands between `&` and `;`.
fn character_named(name: &[u8]) -> Option<char> {
    match name {
        b"lt" => Some('<'),
        b"gt" => Some('>'),
        b"amp" => Some('&'),
        b"apos" => Some('\''),
        b"quot" => Some('"'),
        [b'#', b'x', digits @ ..] => character_of(number_of(digits, 16)),
        [b'#', digits @ ..] => character_of(number_of(digits, 10)),
        _ => None,
    }
}

/// The character of the reference behind `&`, and what follows it.
pub(crate) fn split_reference(text: &[u8]) -> Option<(char, &[u8])> {
    let (name, rest) = split_before(text, b';')?;
    Some((character_named(name)?, rest.get(1..)?))
}

/// How many bytes are left from the first `&` on that begins no reference, if there is one.
pub(crate) fn left_from_bad_reference(text: &[u8]) -> Option<usize> {
    let mut rest = text;
    for _ in 0..text.len() {
        let (_, found) = split_before(rest, b'&')?;
        match split_reference(found.get(1..)?) {
            Some((_, behind)) => rest = behind,
            None => return Some(found.len()),
        }
    }
    None
}
