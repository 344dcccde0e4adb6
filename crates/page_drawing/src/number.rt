// Whole numbers and digits.

ghost use Rattle.std.specs.Prelude.{◌≡◌, ◌<◌, ◌++◌, OnOk, decimal};
ghost use Rattle.page_text.specs.Figures.{digit};

use itoa::Buffer;
use std::alloc::AllocError;

/// Appends a whole number without commas.
///
/// # Errors
///
/// Memory ran out.
pub fn push_number(text: &mut Vec<u8>, number: u128) -> Result<(), AllocError>
    ensures { OnOk result (text.new.items ≡ text.old.items ++ decimal number) }
{
    let mut buffer = Buffer::new();
    text.extend_from_slice(buffer.format(number).as_bytes())
}

/// Appends a digit.
pub(crate) fn push_digit(text: &mut Vec<u8>, number: u8) -> Result<(), AllocError>
    requires { number < 10 }
    ensures { OnOk result (text.new.items ≡ text.old.items ++ digit number) }
{
    text.extend_from_slice(&[b'0' + number])
}
