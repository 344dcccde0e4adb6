// The curve itself: its steps.

use crate::axes::Axes;
use crate::curve::short;
use page_drawing::{Spot, push_place, push_tenths, tenths};
use range_estimator::Row;
use std::alloc::AllocError;

// A place at which the curve turns, in tenths of a pixel, and whether it is the first.
#[derive(Clone, Copy)]
struct Turn {
    is_first: bool,
    x: i128,
    y: i128,
}

// Appends a turn.
fn push_turn(text: &mut Vec<u8>, turn: Turn) -> Result<(), AllocError> {
    text.extend_from_slice(if turn.is_first { b"M" } else { b"H" })?;
    push_tenths(text, turn.x)?;
    text.extend_from_slice(if turn.is_first { b" " } else { b"V" })?;
    push_tenths(text, turn.y)
}

// The turn behind another, which is written unless both are at one place across. Of such the last is drawn.
fn turn_behind(text: &mut Vec<u8>, turn: Turn, spot: Spot) -> Result<Turn, AllocError> {
    let (x, y) = (tenths(spot.x), tenths(spot.y));
    let is_same = turn.x == x;
    if !is_same {
        push_turn(text, turn)?;
    }
    Ok(Turn {
        is_first: turn.is_first && is_same,
        x,
        y,
    })
}

// Appends the turns of the curve behind its first.
fn push_turns(
    text: &mut Vec<u8>,
    axes: &Axes,
    rows: &[Row],
    first: Turn,
    area2: u128,
) -> Result<(), AllocError> {
    let (mut turn, mut former) = (first, area2);
    for (place, row) in rows.iter().enumerate() {
        if row.area2 != former {
            let spot = axes.spot(place as u64 + 1, short(row.area2));
            turn = turn_behind(text, turn, spot)?;
            former = row.area2;
        }
    }
    push_turn(text, turn)
}

/// Appends the curve of some rows.
pub(crate) fn push_steps(text: &mut Vec<u8>, axes: &Axes, rows: &[Row]) -> Result<(), AllocError> {
    let Some(first) = rows.first() else {
        return Ok(());
    };
    let spot = axes.spot(1, short(first.area2));
    let turn = Turn {
        is_first: true,
        x: tenths(spot.x),
        y: tenths(spot.y),
    };
    push_turns(text, axes, rows, turn, first.area2)?;
    text.extend_from_slice(b"H")?;
    push_place(text, axes.x(axes.fixes))
}
