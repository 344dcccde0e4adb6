// Classes of colours.

ghost use Rattle.std.specs.Prelude.{◌≡◌, ◌++◌, OnOk};
ghost use Rattle.page_drawing.specs.Colours.{colour};

use crate::number::push_digit;
use std::alloc::AllocError;

// How many classes of colours the page has, from c0 on.
const COLOURS: u64 = 7;

/// Appends the class of the colour of the animal with this number, counted from 1.
///
/// # Errors
///
/// Memory ran out.
pub fn push_colour(text: &mut Vec<u8>, number: u64) -> Result<(), AllocError>
    ensures { OnOk result (text.new.items ≡ text.old.items ++ colour number) }
{
    text.extend_from_slice(b"c")?;
    push_digit(text, (number.saturating_sub(1) % COLOURS) as u8)
}
