// Numbers as tables have them.

ghost use Rattle.std.specs.Prelude.{◌≡◌, ◌+◌, ◌*◌, ◌<◌, ◌≤◌, ◌++◌, ◌^◌, OnOk, decimal};
ghost use Rattle.page_text.specs.Figures.{hectare};
ghost use Rattle.page_tables.specs.Numbers.{has_zero, hectares, in_powers, is_small, number, padded, places_of, pointed, small, trimmed};

use itoa::Buffer;
use page_text::{hectare, push_digit, push_whole};
use range_plane::Scale;
use std::alloc::AllocError;

/// Appends the last digits of a number, so many.
pub(crate) fn push_padded(text: &mut Vec<u8>, places: u8, number: u64) -> Result<(), AllocError>
    ensures { OnOk result (text.new.items ≡ text.old.items ++ padded places number) }
{
    if places == 0 {
        return Ok(());
    }
    push_padded(text, places - 1, number / 10)?;
    push_digit(text, (number % 10) as u8)
}

// Whether the last of several decimals is a zero.
fn has_zero(places: u8, number: u64) -> bool
    ensures { result ≡ has_zero places number }
{
    places > 1 && number % 10 == 0
}

// Appends so many decimals without the zeros at their end, of which one stays.
fn push_trimmed(text: &mut Vec<u8>, places: u8, number: u64) -> Result<(), AllocError>
    ensures { OnOk result (text.new.items ≡ text.old.items ++ trimmed places number) }
{
    if has_zero(places, number) {
        push_trimmed(text, places - 1, number / 10)
    } else {
        push_padded(text, places, number)
    }
}

// Appends digits with a point behind the first, if there are more.
fn push_pointed(text: &mut Vec<u8>, digits: &[u8]) -> Result<(), AllocError>
    ensures { OnOk result (text.new.items ≡ text.old.items ++ pointed digits.now) }
{
    match digits {
        [first, others @ ..] if !others.is_empty() => {
            text.extend_from_slice(&[*first, b'.'])?;
            text.extend_from_slice(others)
        }
        _ => text.extend_from_slice(digits),
    }
}

// Appends a number by its digits and a power of ten.
fn push_in_powers(text: &mut Vec<u8>, places: u8, number: u64) -> Result<(), AllocError>
    ensures { OnOk result (text.new.items ≡ text.old.items ++ in_powers places number) }
{
    let mut buffer = Buffer::new();
    let digits = buffer.format(number).as_bytes();
    push_pointed(text, digits)?;
    text.extend_from_slice(b"e-0")?;
    push_padded(
        text,
        1,
        (usize::from(places) + 1).saturating_sub(digits.len()) as u64,
    )
}

// Appends so many decimals of a small number, by its first digits and a power of ten.
fn push_small(text: &mut Vec<u8>, places: u8, number: u64) -> Result<(), AllocError>
    requires { places < 9 }
    ensures { OnOk result (text.new.items ≡ text.old.items ++ small places number) }
{
    if has_zero(places, number) {
        return push_small(text, places - 1, number / 10);
    }
    push_in_powers(text, places, number)
}

// Whether so many decimals are below a ten thousandth, and not nothing.
fn is_small(places: u8, decimals: u64) -> bool
    requires places { places < 9 }
    requires decimals { decimals < 2 ^ 40 }
    ensures { result ≡ is_small places decimals }
{
    decimals != 0 && decimals * 10_000 < 10_u64.pow(u32::from(places))
}

/// Appends a number by its whole part and so many decimals, as shortly as it can be.
pub(crate) fn push_number(
    text: &mut Vec<u8>,
    whole: u128,
    places: u8,
    decimals: u64,
) -> Result<(), AllocError>
    requires places { places < 9 }
    requires decimals { decimals < 2 ^ 40 }
    ensures { OnOk result (text.new.items ≡ text.old.items ++ number whole places decimals) }
{
    if whole == 0 && is_small(places, decimals) {
        return push_small(text, places, decimals);
    }
    push_whole(text, whole)?;
    text.extend_from_slice(b".")?;
    push_trimmed(text, places, decimals)
}

// How many decimals hectares have.
fn places_of(unit: Scale) -> u8
    ensures value { result ≡ places_of unit }
    ensures most { result < 9 }
{
    match unit {
        Scale::Metre => 5,
        Scale::Decimetre => 7,
    }
}

/// Appends a doubled area as hectares.
#[tactic(auto, unfolding(crate::specs::Numbers::hectares))]
pub(crate) fn push_hectares(text: &mut Vec<u8>, area2: u128, unit: Scale) -> Result<(), AllocError>
    ensures { OnOk result (text.new.items ≡ text.old.items ++ hectares area2 unit) }
{
    let hectare = hectare(unit);
    push_number(
        text,
        area2 / hectare,
        places_of(unit),
        (area2 % hectare * 5) as u64,
    )
}
