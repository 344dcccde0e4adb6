// By which form and which clock times are read.

use crate::exports::{Exports, push_records};
use crate::said::Said;
use crate::sheet::Sheet;
use crate::words::push;
use range_plane::OutOfMemory;
use split_reading::{Row, Told};
use std::alloc::{AllocError, Global};

// By which form and which clock times are read, of which some have no offset, or none do.
fn form_text(
    alloc: Global,
    form: &[u8],
    clock: &[u8],
    are_local: bool,
) -> Result<Vec<u8>, AllocError> {
    let mut text = Vec::new(alloc);
    push(&mut text, "times are read as ")?;
    text.extend_from_slice(form)?;
    let joint = if are_local {
        ", in "
    } else {
        ", by their own offsets from UTC; days and hours are those of "
    };
    push(&mut text, joint)?;
    text.extend_from_slice(clock)?;
    Ok(text)
}

// Whether a record tells of a fix.
fn is_fix(row: &Row) -> bool {
    matches!(row.told, Told::Fix(_))
}

// Whether some times of fixes are read by the clock: they have no offset. So where there is no fix.
fn are_local(rows: &[Row]) -> bool {
    rows.iter().any(|row| is_odd(row, Odd::Local)) || !rows.iter().any(is_fix)
}

// What is odd about the time of a fix.
#[derive(Clone, Copy)]
enum Odd {
    // It has no offset, and others have one.
    Local,
    // The clock showed it twice.
    Twice,
}

// What is said of records whose times are odd, behind their count.
fn odd_text(
    alloc: Global,
    odd: Odd,
    records: &[u32],
    clock: &[u8],
    exports: &Exports<'_>,
) -> Result<Vec<u8>, AllocError> {
    let mut text = Vec::new(alloc);
    push(
        &mut text,
        match odd {
            Odd::Local => "times have no offset, which others have, and are read in ",
            Odd::Twice => "records lie in the hour that comes twice in ",
        },
    )?;
    text.extend_from_slice(clock)?;
    push(&mut text, ": records ")?;
    push_records(&mut text, records, exports)?;
    Ok(text)
}

// Whether a record tells of a fix whose time is odd.
fn is_odd(row: &Row, odd: Odd) -> bool {
    match (row.told, odd) {
        (Told::Fix(fix), Odd::Local) => fix.is_local,
        (Told::Fix(fix), Odd::Twice) => fix.is_twice,
        (Told::LeftOut(_), _) => false,
    }
}

// Whether a record tells of a fix whose time has an offset, or is a number of seconds.
fn has_offset(row: &Row) -> bool {
    match row.told {
        Told::Fix(fix) => !fix.is_local,
        Told::LeftOut(_) => false,
    }
}

// The records whose times are odd.
fn odd_records(alloc: Global, rows: &[Row], odd: Odd) -> Result<Vec<u32>, OutOfMemory> {
    let mut records = Vec::new(alloc);
    for (index, row) in rows.iter().enumerate() {
        if is_odd(row, odd) {
            let index = u32::try_from(index).unwrap_or(u32::MAX);
            records.push(index.saturating_add(1))?;
        }
    }
    Ok(records)
}

// Says which records have odd times, if some have.
fn tell_odd(
    alloc: Global,
    said: &mut Said,
    sheet: &Sheet<'_>,
    rows: &[Row],
    odd: Odd,
) -> Result<(), OutOfMemory> {
    let records = odd_records(alloc, rows, odd)?;
    let clock = sheet.times.clock_name;
    let text = odd_text(alloc, odd, &records, clock, &sheet.exports)?;
    said.say_counted(alloc, records.len(), &text)
}

// Says by which form and which clock times are read, where that does not go without saying, which have no offset beside others that
// have one, and which records lie in an hour that comes twice.
pub(crate) fn tell_clock(
    alloc: Global,
    said: &mut Said,
    sheet: &Sheet<'_>,
    rows: &[Row],
) -> Result<(), OutOfMemory> {
    let times = sheet.times;
    if !sheet.columns.time.is_empty() && !times.form.is_empty() {
        let text = form_text(alloc, times.form, times.clock_name, are_local(rows))?;
        said.say(alloc, &text)?;
    }
    if rows.iter().any(has_offset) {
        tell_odd(alloc, said, sheet, rows, Odd::Local)?;
    }
    tell_odd(alloc, said, sheet, rows, Odd::Twice)
}
