// Values of axes and grids.

ghost use Rattle.std.specs.Prelude.{◌≡◌, ◌%◌, ◌+◌, ◌*◌, ◌<◌, ◌≤◌, ◌++◌, ◌^◌, OnOk, unsigned_abs};
ghost use Rattle.page_drawing.specs.Steps.{decimal_count, size_at, thousandths_text, value_decimals, value_text};

use crate::number::push_digit;
use crate::place::minus;
use crate::step::{Step, size_of};
use page_text::{Places, push_fixed};
use std::alloc::AllocError;

// Appends the decimals of a value in thousandths, so many.
fn push_decimals(text: &mut Vec<u8>, decimals: u8, rest: u16) -> Result<(), AllocError>
    requires { rest < 1000 }
    ensures { OnOk result (text.new.items ≡ text.old.items ++ value_decimals decimals rest) }
{
    let (first, second, third) = (
        (rest / 100) as u8,
        (rest / 10 % 10) as u8,
        (rest % 10) as u8,
    );
    match decimals {
        0 => Ok(()),
        1 => {
            text.extend_from_slice(b".")?;
            push_digit(text, first)
        }
        2 => {
            text.extend_from_slice(b".")?;
            push_digit(text, first)?;
            push_digit(text, second)
        }
        _ => {
            text.extend_from_slice(b".")?;
            push_digit(text, first)?;
            push_digit(text, second)?;
            push_digit(text, third)
        }
    }
}

// Appends so many thousandths, with so many decimals.
fn push_thousandths(text: &mut Vec<u8>, thousandths: u128, decimals: u8) -> Result<(), AllocError>
    requires { thousandths ≤ 2 ^ 112 }
    ensures { OnOk result (text.new.items ≡ text.old.items ++ thousandths_text thousandths decimals) }
{
    push_fixed(text, thousandths / 1000, 1, Places::Whole)?;
    push_decimals(text, decimals, (thousandths % 1000) as u16)
}

// So many steps, in thousandths.
fn thousandths_of(step: Step, count: u64) -> u128
    requires { count ≤ 2 ^ 63 }
    ensures value { result ≡ count * size_at step.place }
    ensures most { result ≤ 2 ^ 112 }
{
    u128::from(count) * u128::from(size_of(step))
}

// How many decimals a step has.
fn decimal_count(step: Step) -> u8
    ensures { result ≡ decimal_count step.place }
{
    3_u8.saturating_sub(step.place / 3)
}

/// Appends so many steps as a number, with commas between thousands and the decimals of the step.
///
/// # Errors
///
/// Memory ran out.
pub fn push_value(text: &mut Vec<u8>, step: Step, count: i64) -> Result<(), AllocError>
    ensures { OnOk result (text.new.items ≡ text.old.items ++ value_text step.place count) }
{
    text.extend_from_slice(minus(i128::from(count)))?;
    push_thousandths(
        text,
        thousandths_of(step, count.unsigned_abs()),
        decimal_count(step),
    )
}
