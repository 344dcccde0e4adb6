// Words behind others.

use itoa::Buffer;
use split_reading::Zone;
use std::alloc::AllocError;

// Appends words.
pub(crate) fn push(text: &mut Vec<u8>, words: &str) -> Result<(), AllocError> {
    text.extend_from_slice(words.as_bytes())
}

// Appends a number.
pub(crate) fn push_number(text: &mut Vec<u8>, number: usize) -> Result<(), AllocError> {
    let mut buffer = Buffer::new();
    push(text, buffer.format(number))
}

// Appends a number of parts, of which one has so many, as a decimal without zeros at its end.
pub(crate) fn push_decimal(text: &mut Vec<u8>, parts: u64, one: u64) -> Result<(), AllocError> {
    let mut buffer = Buffer::new();
    push(text, buffer.format(parts.checked_div(one).unwrap_or(0)))?;
    let mut rest = parts.checked_rem(one).unwrap_or(0);
    let mut unit = one / 10;
    if rest > 0 {
        push(text, ".")?;
    }
    for _place in 0..20 {
        if rest == 0 {
            return Ok(());
        }
        push_number(
            text,
            usize::try_from(rest.checked_div(unit).unwrap_or(0)).unwrap_or(0),
        )?;
        rest = rest.checked_rem(unit).unwrap_or(0);
        unit = unit / 10;
    }
    Ok(())
}

// Appends a name between apostrophes.
pub(crate) fn push_quoted(text: &mut Vec<u8>, name: &[u8]) -> Result<(), AllocError> {
    push(text, "'")?;
    text.extend_from_slice(name)?;
    push(text, "'")
}

// Appends an option with its value, as it is written.
pub(crate) fn push_option(
    text: &mut Vec<u8>,
    option: &str,
    value: &[u8],
) -> Result<(), AllocError> {
    push(text, option)?;
    push(text, " ")?;
    if value.contains(&b' ') {
        push_quoted(text, value)
    } else {
        text.extend_from_slice(value)
    }
}

// Appends a zone.
pub(crate) fn push_zone(text: &mut Vec<u8>, zone: Zone) -> Result<(), AllocError> {
    push_number(text, usize::from(zone.number))?;
    push(text, if zone.is_south { "S" } else { "N" })
}

// Appends a zone by the option that names it.
pub(crate) fn push_zone_option(text: &mut Vec<u8>, zone: Zone) -> Result<(), AllocError> {
    push(text, "--zone ")?;
    push_zone(text, zone)
}
