// Whether a column that is not read has the times of a table without a column of the time.

use csv::ByteRecord;
use range_plane::OutOfMemory;
use split_reading::{Rules, time_text};
use split_table::{TableFault, TableText};
use split_times::iso_time;
use std::alloc::Global;

// What is seen of the texts of a column.
#[derive(Clone, Copy, PartialEq, Eq)]
enum Texts {
    // All are missing.
    Missing,
    // All that are not missing are times of ISO.
    Times,
    // One is something else.
    Others,
}

impl Texts {
    // The same with one text more, which is empty where it is missing.
    fn with(self, text: &[u8]) -> Texts {
        if self == Texts::Others || text.is_empty() {
            self
        } else if iso_time(text).is_ok() {
            Texts::Times
        } else {
            Texts::Others
        }
    }
}

// What is seen of some columns with the texts of one more record: those that it had by the rules if the column were that of the
// time.
fn with_record(
    buffer: &mut Vec<u8>,
    seen: &mut [Texts],
    columns: &[usize],
    fields: &ByteRecord,
    rules: &Rules<'_, '_>,
) -> Result<(), OutOfMemory> {
    for (own, time) in seen.iter_mut().zip(columns.chunks(1)) {
        let as_time = Rules { time, ..*rules };
        *own = own.with(time_text(buffer, fields, &as_time)?);
    }
    Ok(())
}

// What is seen of some columns in so many records of a text.
fn look(
    alloc: Global,
    text: &TableText<'_>,
    rules: &Rules<'_, '_>,
    columns: &[usize],
    count: usize,
) -> Result<Vec<Texts>, TableFault> {
    let mut table = text.table(alloc)?;
    let mut buffer = Vec::new(alloc);
    let Ok(mut seen) = vec![in alloc; Texts::Missing; columns.len()] else {
        return Err(TableFault::OutOfMemory);
    };
    for _record in 0..count {
        if table.advance()? {
            let fields = table.current();
            if with_record(&mut buffer, &mut seen, columns, fields, rules).is_err() {
                return Err(TableFault::OutOfMemory);
            }
        }
    }
    Ok(seen)
}

/// The first of some columns of a text with so many records all of whose texts, but those that are missing by the rules, are times
/// of ISO, if there is one.
///
/// # Errors
///
/// Memory ran out.
pub fn column_of_times(
    alloc: Global,
    text: &TableText<'_>,
    rules: &Rules<'_, '_>,
    columns: &[usize],
    count: usize,
) -> Result<Option<usize>, TableFault> {
    let seen = look(alloc, text, rules, columns, count)?;
    match seen.iter().position(|column| *column == Texts::Times) {
        Some(place) => Ok(columns.get(place).copied()),
        None => Ok(None),
    }
}
