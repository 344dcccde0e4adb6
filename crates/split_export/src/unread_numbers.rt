// The whole numbers of a column that is not read.

use split_reading::{Rules, time_text};
use split_table::{Table, TableFault, TableText};
use split_times::seconds_in;
use std::alloc::Global;

// What the text of a record is.
enum Cell {
    Missing,
    Whole(u64),
    Other,
}

// What the text of the record of a table that was read last is, by rules of which the time stands in the column that is looked at.
fn current_cell(
    buffer: &mut Vec<u8>,
    table: &Table<'_>,
    rules: &Rules<'_, '_>,
) -> Result<Cell, TableFault> {
    let Ok(text) = time_text(buffer, table.current(), rules) else {
        return Err(TableFault::OutOfMemory);
    };
    match seconds_in(text) {
        Some(number) if number.nanosecond == 0 => Ok(Cell::Whole(number.second)),
        None if text.is_empty() => Ok(Cell::Missing),
        _ => Ok(Cell::Other),
    }
}

/// The whole numbers that a column has in the first records of a text, so many, by the words for what is missing of rules; none
/// where one of its texts is no whole number.
///
/// # Errors
///
/// Memory ran out.
pub fn numbers_in(
    alloc: Global,
    text: &TableText<'_>,
    rules: &Rules<'_, '_>,
    column: usize,
    count: usize,
) -> Result<Option<Vec<Option<u64>>>, TableFault> {
    let as_time = Rules {
        time: &[column],
        ..*rules
    };
    let mut table = text.table(alloc)?;
    let mut buffer = Vec::new(alloc);
    let mut numbers = Vec::new(alloc);
    for _record in 0..count {
        if !table.advance()? {
            break;
        }
        let number = match current_cell(&mut buffer, &table, &as_time)? {
            Cell::Whole(number) => Some(number),
            Cell::Missing => None,
            Cell::Other => return Ok(None),
        };
        if numbers.push(number).is_err() {
            return Err(TableFault::OutOfMemory);
        }
    }
    Ok(Some(numbers))
}
