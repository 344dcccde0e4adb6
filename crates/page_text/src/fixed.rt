// Quotients as they are written.

ghost use Rattle.std.specs.Prelude.{◌≡◌, ◌++◌, ◌+◌, ◌*◌, ◌<◌, ◌^◌, OnOk, decimal, length};
ghost use Rattle.page_text.specs.Figures.{comma_before, decimals, digit, fixed, grouped, grouped_behind, placed, power, rounded};

use crate::bytes::push;
use itoa::Buffer;
use std::alloc::AllocError;

/// How many places of a number stand behind its point.
#[derive(Clone, Copy, PartialEq, Eq, Debug)]
pub enum Places {
    Whole,
    Tenths,
    Hundredths,
}

// How many of its last places one has.
fn power(places: Places) -> u128
    ensures value { result ≡ power places }
    ensures some { 0 < result }
    ensures most { result < 101 }
{
    match places {
        Places::Whole => 1,
        Places::Tenths => 10,
        Places::Hundredths => 100,
    }
}

// A quotient rounded, halves up.
fn rounded(part: u128, whole: u128) -> u128
    requires some { 0 < whole }
    requires part { part < 2 ^ 120 }
    requires whole { whole < 2 ^ 120 }
    ensures { result ≡ rounded part whole }
{
    (2 * part + whole) / (2 * whole)
}

// What stands before a digit that is not the first, where so many are left with it.
fn comma_before(left: usize) -> &'static str
    ensures { result.now ≡ comma_before left }
{
    if left % 3 == 0 { "," } else { "" }
}

// Appends the digits behind the first, with commas.
fn push_grouped_behind(text: &mut Vec<u8>, digits: &[u8]) -> Result<(), AllocError>
    ensures { OnOk result (text.new.items ≡ text.old.items ++ grouped_behind digits.now) }
{
    for (place, digit) in digits.iter().enumerate() {
        push(text, comma_before(digits.len() - place))?;
        text.extend_from_slice(&[*digit])?;
    }
    Ok(())
}

// Appends a number with commas between thousands.
fn push_grouped(text: &mut Vec<u8>, number: u128) -> Result<(), AllocError>
    ensures { OnOk result (text.new.items ≡ text.old.items ++ grouped number) }
{
    let mut buffer = Buffer::new();
    match buffer.format(number).as_bytes() {
        [first, behind @ ..] => {
            text.extend_from_slice(&[*first])?;
            push_grouped_behind(text, behind)
        }
        [] => Ok(()),
    }
}

/// Appends a whole number.
///
/// # Errors
///
/// Memory ran out.
pub fn push_whole(text: &mut Vec<u8>, number: u128) -> Result<(), AllocError>
    ensures { OnOk result (text.new.items ≡ text.old.items ++ decimal number) }
{
    let mut buffer = Buffer::new();
    text.extend_from_slice(buffer.format(number).as_bytes())
}

/// Appends a digit.
///
/// # Errors
///
/// Memory ran out.
pub fn push_digit(text: &mut Vec<u8>, number: u8) -> Result<(), AllocError>
    requires { number < 10 }
    ensures { OnOk result (text.new.items ≡ text.old.items ++ digit number) }
{
    text.extend_from_slice(&[b'0' + number])
}

// Appends what stands behind the whole part of a number of such places.
fn push_decimals(text: &mut Vec<u8>, places: Places, rest: u8) -> Result<(), AllocError>
    requires { rest < power places }
    ensures { OnOk result (text.new.items ≡ text.old.items ++ decimals places rest) }
{
    match places {
        Places::Whole => Ok(()),
        Places::Tenths => {
            push(text, ".")?;
            push_digit(text, rest)
        }
        Places::Hundredths => {
            push(text, ".")?;
            push_digit(text, rest / 10)?;
            push_digit(text, rest % 10)
        }
    }
}

// Appends a number of such places.
fn push_placed(text: &mut Vec<u8>, scaled: u128, places: Places) -> Result<(), AllocError>
    ensures { OnOk result (text.new.items ≡ text.old.items ++ placed scaled places) }
{
    let power = power(places);
    push_grouped(text, scaled / power)?;
    push_decimals(text, places, (scaled % power) as u8)
}

/// Appends a quotient with so many decimals, halves up, and commas between thousands.
///
/// # Errors
///
/// Memory ran out.
#[tactic(auto, unfolding(crate::specs::Figures::fixed))]
pub fn push_fixed(
    text: &mut Vec<u8>,
    part: u128,
    whole: u128,
    places: Places,
) -> Result<(), AllocError>
    requires some { 0 < whole }
    requires part { part < 2 ^ 110 }
    requires whole { whole < 2 ^ 110 }
    ensures { OnOk result (text.new.items ≡ text.old.items ++ fixed part whole places) }
{
    push_placed(text, rounded(part * power(places), whole), places)
}
