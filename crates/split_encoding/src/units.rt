// Texts in units of two or four bytes: UTF-16 and UTF-32.

use crate::fault::DecodeFault;
use crate::order::{ByteOrder, order_of_utf16, order_of_utf32};
use std::alloc::Global;

// A fault where bytes are left that make no unit, which begin at this place.
fn expect_none(left: &[u8], place: usize) -> Result<(), DecodeFault> {
    if left.is_empty() {
        Ok(())
    } else {
        Err(DecodeFault::NoCharacter { place })
    }
}

/// The text of UTF-16 behind the first `start` bytes.
pub(crate) fn decode_utf16(
    alloc: Global,
    bytes: &[u8],
    start: usize,
    order: ByteOrder,
) -> Result<String, DecodeFault> {
    let (pairs, left) = bytes.get(start..).unwrap_or_default().as_chunks::<2>();
    // A unit takes no more than three bytes.
    let mut text = String::with_capacity(alloc, pairs.len().saturating_mul(3))?;
    let mut place = start;
    for decoded in char::decode_utf16(pairs.iter().map(|pair| order.two(*pair))) {
        match decoded {
            Ok(character) => {
                text.push(character)?;
                place = place.saturating_add(2 * character.len_utf16());
            }
            Err(_) => return Err(DecodeFault::NoCharacter { place }),
        }
    }
    expect_none(left, place)?;
    Ok(text)
}

/// The text of UTF-32 behind the first `start` bytes.
pub(crate) fn decode_utf32(
    alloc: Global,
    bytes: &[u8],
    start: usize,
    order: ByteOrder,
) -> Result<String, DecodeFault> {
    let (fours, left) = bytes.get(start..).unwrap_or_default().as_chunks::<4>();
    // A character takes no more than four bytes.
    let mut text = String::with_capacity(alloc, bytes.len())?;
    let mut place = start;
    for four in fours {
        match char::from_u32(order.four(*four)) {
            Some(character) => text.push(character)?,
            None => return Err(DecodeFault::NoCharacter { place }),
        }
        place = place.saturating_add(4);
    }
    expect_none(left, place)?;
    Ok(text)
}

/// The text of UTF-16 behind its byte order mark. No bytes are a text without one.
pub(crate) fn decode_marked_utf16(alloc: Global, bytes: &[u8]) -> Result<String, DecodeFault> {
    match order_of_utf16(bytes) {
        Some(order) => decode_utf16(alloc, bytes, 2, order),
        None if bytes.is_empty() => Ok(String::new(alloc)),
        None => Err(DecodeFault::NoMark),
    }
}

/// The text of UTF-32 behind its byte order mark. No bytes are a text without one.
pub(crate) fn decode_marked_utf32(alloc: Global, bytes: &[u8]) -> Result<String, DecodeFault> {
    match order_of_utf32(bytes) {
        Some(order) => decode_utf32(alloc, bytes, 4, order),
        None if bytes.is_empty() => Ok(String::new(alloc)),
        None => Err(DecodeFault::NoMark),
    }
}
