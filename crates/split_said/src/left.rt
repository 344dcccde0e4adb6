// How many records are left out, and why.

use crate::said::Said;
use crate::sheet::Sheet;
use crate::words::{push, push_decimal, push_number};
use range_plane::OutOfMemory;
use split_counts::{ALL_REASONS, REASONS, reason_place};
use split_fates::row_reason;
use split_reading::Row;
use split_record::reason_words;
use split_tracks::Reason;
use std::alloc::{AllocError, Global};

// How many trillionths one has.
const TRILLION: u64 = 1_000_000_000_000;

// How many records are left out for each reason that is known before the grid is, by the place of the reason.
#[derive(Clone, Copy)]
pub(crate) struct LeftCounts {
    counts: [usize; REASONS],
}

impl LeftCounts {
    // Those of rows.
    pub(crate) fn of(sheet: &Sheet<'_>, rows: &[Row]) -> LeftCounts {
        let mut left = LeftCounts {
            counts: [0; REASONS],
        };
        for row in rows {
            if let Some(reason) = row_reason(row, sheet.keeps_marks) {
                left.add(reason);
            }
        }
        left
    }

    // Counts a record that is left out for a reason.
    fn add(&mut self, reason: Reason) {
        if let Some(count) = self.counts.get_mut(reason_place(reason)) {
            *count = count.saturating_add(1);
        }
    }

    // How many are left out for a reason.
    pub(crate) fn count(&self, reason: Reason) -> usize {
        match self.counts.get(reason_place(reason)) {
            Some(count) => *count,
            None => 0,
        }
    }
}

// That no fix is left, and for which reasons how many records were left out.
pub(crate) fn none_left_text(alloc: Global, left: &LeftCounts) -> Result<Vec<u8>, AllocError> {
    let mut text = Vec::new(alloc);
    push(&mut text, "no fix is left; left out by reason")?;
    let mut mark = ": ";
    for reason in ALL_REASONS {
        let count = left.count(reason);
        if count > 0 {
            push(&mut text, mark)?;
            text.extend_from_slice(reason_words(reason))?;
            push(&mut text, " ")?;
            push_number(&mut text, count)?;
            mark = ", ";
        }
    }
    Ok(text)
}

// Says how many records are left out for a reason, in these words.
pub(crate) fn tell_left(
    alloc: Global,
    said: &mut Said,
    left: &LeftCounts,
    reason: Reason,
    words: Vec<u8>,
) -> Result<(), OutOfMemory> {
    let mut text = words;
    push(&mut text, ": left out")?;
    said.say_counted(alloc, left.count(reason), &text)
}

// Words and a value.
fn words_of(alloc: Global, words: &str, value: &[u8]) -> Result<Vec<u8>, AllocError> {
    let mut text = Vec::from_slice(alloc, words.as_bytes())?;
    text.extend_from_slice(value)?;
    Ok(text)
}

// Says how many fixes are left out for their dilution of precision and their type.
fn tell_quality(
    alloc: Global,
    said: &mut Said,
    sheet: &Sheet<'_>,
    left: &LeftCounts,
) -> Result<(), OutOfMemory> {
    if let Some(most) = sheet.filters.most_dop {
        let text = words_of(alloc, "fixes have no DOP", b"")?;
        tell_left(alloc, said, left, Reason::NoDop, text)?;
        let mut text = words_of(alloc, "fixes have a DOP above ", b"")?;
        push_decimal(&mut text, most.unsigned_abs(), TRILLION)?;
        tell_left(alloc, said, left, Reason::Dop, text)?;
    }
    if !sheet.filters.types.is_empty() {
        let text = words_of(
            alloc,
            "fixes are of other fix types than ",
            sheet.wanted.types,
        )?;
        tell_left(alloc, said, left, Reason::Type, text)?;
    }
    Ok(())
}

// Says how many fixes are left out for their quality and their time.
pub(crate) fn tell_filters(
    alloc: Global,
    said: &mut Said,
    sheet: &Sheet<'_>,
    left: &LeftCounts,
) -> Result<(), OutOfMemory> {
    tell_quality(alloc, said, sheet, left)?;
    if sheet.filters.since.is_some() {
        let text = words_of(alloc, "fixes are before ", sheet.wanted.since)?;
        tell_left(alloc, said, left, Reason::Before, text)?;
    }
    if sheet.filters.until.is_some() {
        let text = words_of(alloc, "fixes are after ", sheet.wanted.until)?;
        tell_left(alloc, said, left, Reason::After, text)?;
    }
    Ok(())
}
