// Lengths of time.

ghost use Rattle.std.specs.Prelude.{◌≡◌, ◌++◌, OnOk};
ghost use Rattle.page_text.specs.Figures.{days, interval, length_of_time};

use crate::bytes::push;
use crate::figures::NOTHING;
use crate::fixed::{Places, push_fixed};
use std::alloc::AllocError;

/// Appends seconds as a number of days: below 10 in tenths, else whole ones.
///
/// # Errors
///
/// Memory ran out.
pub fn push_days(text: &mut Vec<u8>, seconds: u64) -> Result<(), AllocError>
    ensures { OnOk result (text.new.items ≡ text.old.items ++ days seconds) }
{
    let places = if seconds < 864_000 {
        Places::Tenths
    } else {
        Places::Whole
    };
    push_fixed(text, u128::from(seconds), 86_400, places)
}

// Appends a length of time, of which twice the seconds are given.
fn push_length(text: &mut Vec<u8>, seconds2: u64) -> Result<(), AllocError>
    ensures { OnOk result (text.new.items ≡ text.old.items ++ length_of_time seconds2) }
{
    let part = u128::from(seconds2);
    if seconds2 < 200 {
        push_fixed(text, part, 2, Places::Whole)?;
        push(text, " s")
    } else if seconds2 < 12_000 {
        push_fixed(text, part, 120, Places::Whole)?;
        push(text, " min")
    } else if seconds2 < 720_000 {
        push_fixed(text, part, 7_200, Places::Tenths)?;
        push(text, " h")
    } else {
        push_fixed(text, part, 172_800, Places::Tenths)?;
        push(text, " d")
    }
}

/// Appends a length of time, of which twice the seconds are given, or a dash where there is none.
///
/// # Errors
///
/// Memory ran out.
pub fn push_interval(text: &mut Vec<u8>, seconds2: Option<u64>) -> Result<(), AllocError>
    ensures { OnOk result (text.new.items ≡ text.old.items ++ interval seconds2) }
{
    match seconds2 {
        Some(seconds2) => push_length(text, seconds2),
        None => text.extend_from_slice(NOTHING),
    }
}
