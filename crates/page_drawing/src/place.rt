// Places in a drawing.

ghost use Rattle.std.specs.Prelude.{◌≡◌, ◌++◌, OnOk};
ghost use Rattle.page_drawing.specs.Places.{minus, place, tenths, tenths_text};

use crate::number::{push_digit, push_number};
use crate::pixels::Pixels;
use std::alloc::AllocError;

/// Pixels in tenths, rounded once, halves up.
pub fn tenths(pixels: Pixels) -> i128
    ensures { result ≡ tenths pixels.part pixels.whole }
{
    (20 * pixels.part + pixels.whole as i128).div_euclid((2 * pixels.whole) as i128)
}

// What stands before a number.
pub(crate) fn minus(number: i128) -> &'static [u8]
    ensures { result.now ≡ minus number }
{
    if number < 0 { b"-" } else { b"" }
}

/// Appends a number of tenths with one decimal.
///
/// # Errors
///
/// Memory ran out.
pub fn push_tenths(text: &mut Vec<u8>, tenths: i128) -> Result<(), AllocError>
    ensures { OnOk result (text.new.items ≡ text.old.items ++ tenths_text tenths) }
{
    let size = tenths.unsigned_abs();
    text.extend_from_slice(minus(tenths))?;
    push_number(text, size / 10)?;
    text.extend_from_slice(b".")?;
    push_digit(text, (size % 10) as u8)
}

/// Appends a place: a number of pixels with one decimal, rounded once, halves up.
///
/// # Errors
///
/// Memory ran out.
pub fn push_place(text: &mut Vec<u8>, pixels: Pixels) -> Result<(), AllocError>
    ensures { OnOk result (text.new.items ≡ text.old.items ++ place pixels.part pixels.whole) }
{
    push_tenths(text, tenths(pixels))
}
