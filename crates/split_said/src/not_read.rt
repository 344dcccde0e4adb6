// The columns that are not read.

use crate::said::Said;
use crate::sheet::{Sheet, title_at};
use crate::words::push;
use range_plane::OutOfMemory;
use split_titles::not_read;
use std::alloc::{AllocError, Global};

// Appends a title, or two apostrophes for an empty one.
fn push_title(text: &mut Vec<u8>, title: &[u8]) -> Result<(), AllocError> {
    if title.is_empty() {
        push(text, "''")
    } else {
        text.extend_from_slice(title)
    }
}

// Appends the titles of columns at some places.
fn push_titles(text: &mut Vec<u8>, sheet: &Sheet<'_>, places: &[usize]) -> Result<(), AllocError> {
    for (at, place) in places.iter().enumerate() {
        if at > 0 {
            push(text, ", ")?;
        }
        push_title(text, title_at(sheet, *place))?;
    }
    Ok(())
}

// Says which columns are read in no role, if there are some.
pub(crate) fn tell_not_read(
    alloc: Global,
    said: &mut Said,
    sheet: &Sheet<'_>,
) -> Result<(), OutOfMemory> {
    let places = not_read(alloc, sheet.columns, sheet.titles.len())?;
    if places.is_empty() {
        return Ok(());
    }
    let mut text = Vec::new(alloc);
    push(&mut text, "not read: ")?;
    push_titles(&mut text, sheet, &places)?;
    said.say(alloc, &text)
}
