// Cells of tables, which name what they hold.

use crate::shown::{Shown, area};
use page_dates::push_date;
use page_text::{Places, push_fixed, push_hectares, push_interval};
use range_plane::Scale;
use std::alloc::AllocError;

// What stands for a number that there is not: a dash.
pub(crate) const NOTHING: &[u8] = b"\xE2\x80\x93";

// Appends the start of a cell that holds a field.
pub(crate) fn push_start(text: &mut Vec<u8>, field: &[u8]) -> Result<(), AllocError> {
    text.extend_from_slice(b"<td data-field=\"")?;
    text.extend_from_slice(field)?;
    text.extend_from_slice(b"\">")
}

// Appends the end of a cell.
pub(crate) fn push_end(text: &mut Vec<u8>) -> Result<(), AllocError> {
    text.extend_from_slice(b"</td>")
}

// Appends a count.
pub(crate) fn push_count(text: &mut Vec<u8>, count: u64) -> Result<(), AllocError> {
    push_fixed(text, u128::from(count), 1, Places::Whole)
}

// Appends the cell of a count that may be known.
pub(crate) fn push_count_cell(
    text: &mut Vec<u8>,
    field: &[u8],
    count: Option<u64>,
) -> Result<(), AllocError> {
    push_start(text, field)?;
    match count {
        Some(count) => push_count(text, count)?,
        None => text.extend_from_slice(NOTHING)?,
    }
    push_end(text)
}

// Appends the cell of the date of a second that may be known.
pub(crate) fn push_date_cell(
    text: &mut Vec<u8>,
    field: &[u8],
    shown: &Shown,
    second: Option<u64>,
) -> Result<(), AllocError> {
    push_start(text, field)?;
    match second {
        Some(second) => push_date(text, shown.clock, shown.dated, second)?,
        None => text.extend_from_slice(NOTHING)?,
    }
    push_end(text)
}

// Appends the cell of a length of time, of which twice the seconds are given.
pub(crate) fn push_interval_cell(
    text: &mut Vec<u8>,
    field: &[u8],
    seconds2: Option<u64>,
) -> Result<(), AllocError> {
    push_start(text, field)?;
    push_interval(text, seconds2)?;
    push_end(text)
}

// Appends the cell of the area at a level.
pub(crate) fn push_area_cell(
    text: &mut Vec<u8>,
    level: u8,
    area2: u128,
    unit: Scale,
) -> Result<(), AllocError> {
    text.extend_from_slice(b"<td data-field=\"hectares_")?;
    push_fixed(text, u128::from(level), 1, Places::Whole)?;
    text.extend_from_slice(b"\">")?;
    push_hectares(text, area(area2), unit)?;
    push_end(text)
}
