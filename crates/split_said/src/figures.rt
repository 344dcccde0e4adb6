// Figures behind words.

use crate::words::push;
use itoa::Buffer;
use range_plane::Scale;
use std::alloc::{AllocError, Global};

// Appends a number that may be below 0.
pub(crate) fn push_signed(text: &mut Vec<u8>, number: i64) -> Result<(), AllocError> {
    let mut buffer = Buffer::new();
    push(text, buffer.format(number))
}

// Appends a number with commas between thousands.
pub(crate) fn push_grouped(text: &mut Vec<u8>, number: u64) -> Result<(), AllocError> {
    let mut buffer = Buffer::new();
    let figures = buffer.format(number).as_bytes();
    for (at, figure) in figures.iter().enumerate() {
        if at > 0 && figures.len().saturating_sub(at) % 3 == 0 {
            push(text, ",")?;
        }
        text.extend_from_slice(&[*figure])?;
    }
    Ok(())
}

// Appends so many units as metres with two decimals.
pub(crate) fn push_metres(text: &mut Vec<u8>, units: i64, unit: Scale) -> Result<(), AllocError> {
    if units < 0 {
        push(text, "-")?;
    }
    let mut buffer = Buffer::new();
    let most = units.unsigned_abs();
    match unit {
        Scale::Metre => {
            push(text, buffer.format(most))?;
            push(text, ".00")
        }
        Scale::Decimetre => {
            push(text, buffer.format(most / 10))?;
            push(text, ".")?;
            let mut last = Buffer::new();
            push(text, last.format(most % 10))?;
            push(text, "0")
        }
    }
}

// Appends a number with two decimals.
pub(crate) fn push_hundredths(
    alloc: Global,
    text: &mut Vec<u8>,
    number: f64,
) -> Result<(), AllocError> {
    let figures = format!(in alloc; "{number:.2}")?;
    push(text, figures.as_str())
}

// Appends a number with three decimals.
pub(crate) fn push_thousandths(
    alloc: Global,
    text: &mut Vec<u8>,
    number: f64,
) -> Result<(), AllocError> {
    let figures = format!(in alloc; "{number:.3}")?;
    push(text, figures.as_str())
}

// Appends a digit behind a point, unless it is 0.
fn push_decimal(text: &mut Vec<u8>, digit: u8) -> Result<(), AllocError> {
    if digit == b'0' {
        return Ok(());
    }
    text.extend_from_slice(&[b'.', digit])
}

// Appends the two digits of a number below 1 of which the first stands at so many places behind the point.
fn push_below_one(text: &mut Vec<u8>, first: u8, second: u8, place: u8) -> Result<(), AllocError> {
    push(text, "0.")?;
    for _zero in b'1'..place {
        push(text, "0")?;
    }
    text.extend_from_slice(&[first])?;
    if second == b'0' {
        return Ok(());
    }
    text.extend_from_slice(&[second])
}

// Appends a number that is written with two digits and a power of ten: without that power, where the number is not small.
fn push_plain(text: &mut Vec<u8>, figures: &[u8]) -> Result<(), AllocError> {
    match figures {
        [first, b'.', second, b'e', b'0'] => {
            text.extend_from_slice(&[*first])?;
            push_decimal(text, *second)
        }
        [first, b'.', second, b'e', b'-', place] if *place <= b'4' => {
            push_below_one(text, *first, *second, *place)
        }
        [first, b'.', second, b'e', b'-', place] => {
            text.extend_from_slice(&[*first])?;
            push_decimal(text, *second)?;
            push(text, "e-0")?;
            text.extend_from_slice(&[*place])
        }
        _ => text.extend_from_slice(figures),
    }
}

// Appends a number below 10 with two digits; a 0 that ends it is not written.
pub(crate) fn push_two_digits(
    alloc: Global,
    text: &mut Vec<u8>,
    number: f64,
) -> Result<(), AllocError> {
    let figures = format!(in alloc; "{number:.1e}")?;
    push_plain(text, figures.as_bytes())
}
