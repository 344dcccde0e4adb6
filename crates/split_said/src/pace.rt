// What the filters leave out that look at more than one fix.

use crate::said::Said;
use crate::words::{push, push_decimal};
use range_plane::OutOfMemory;
use std::alloc::Global;

// How many millionths one has.
const MILLION: u64 = 1_000_000;

// How many seconds an hour has.
const HOUR: u64 = 3600;

// How many billionths of an hour are told apart, of six figures at most.
const BILLION: u64 = 1_000_000_000;

/// Says how many fixes are faster than so many millionths of a metre a second.
///
/// # Errors
///
/// Memory ran out.
pub fn tell_speed(
    alloc: Global,
    said: &mut Said,
    millionths: u64,
    count: usize,
) -> Result<(), OutOfMemory> {
    let mut text = Vec::new(alloc);
    push(&mut text, "fixes are faster than ")?;
    push_decimal(&mut text, millionths, MILLION)?;
    push(&mut text, " m/s: left out")?;
    said.say_counted(alloc, count, &text)
}

// A number with six figures, and zeros behind them.
fn with_six_figures(number: u64) -> u64 {
    let mut unit: u64 = 1;
    for _figure in 0..20 {
        let rounded = number
            .saturating_add(unit / 2)
            .checked_div(unit)
            .unwrap_or(0);
        if rounded < 1_000_000 {
            return rounded.saturating_mul(unit);
        }
        unit = unit.saturating_mul(10);
    }
    number
}

/// Says how many fixes are not the first in so many seconds.
///
/// # Errors
///
/// Memory ran out.
pub fn tell_every(
    alloc: Global,
    said: &mut Said,
    seconds: u64,
    count: usize,
) -> Result<(), OutOfMemory> {
    let parts = (seconds % HOUR).saturating_mul(BILLION) / HOUR;
    let hours = (seconds / HOUR)
        .saturating_mul(BILLION)
        .saturating_add(parts);
    let mut text = Vec::new(alloc);
    push(&mut text, "fixes are not the first in ")?;
    push_decimal(&mut text, with_six_figures(hours), BILLION)?;
    push(&mut text, " hours: left out")?;
    said.say_counted(alloc, count, &text)
}
