// Which words for what is missing stand in a table.

use csv::ByteRecord;
use range_plane::OutOfMemory;
use split_reading::is_word;
use split_table::{TableFault, TableText};
use std::alloc::Global;

// Notes which words a record has in these columns.
fn note(
    met: &mut [bool],
    words: &[&[u8]],
    columns: &[usize],
    fields: &ByteRecord,
    has_commas: bool,
) {
    for (own, word) in met.iter_mut().zip(words) {
        *own = *own
            || columns.iter().any(|column| is_word(
                word,
                fields.get(*column).unwrap_or(b""),
                has_commas,
            ));
    }
}

// No word is met.
fn none_met(alloc: Global, words: usize) -> Result<Vec<bool>, OutOfMemory> {
    Ok(vec![in alloc; false; words]?)
}

/// Of each word whether it stands in one of these columns, in a table of so many records. In numbers commas may stand before
/// decimals or not.
///
/// # Errors
///
/// Memory ran out.
pub fn words_met(
    alloc: Global,
    text: &TableText<'_>,
    columns: &[usize],
    words: &[&[u8]],
    records: usize,
    has_commas: bool,
) -> Result<Vec<bool>, TableFault> {
    let Ok(mut met) = none_met(alloc, words.len()) else {
        return Err(TableFault::OutOfMemory);
    };
    let mut table = text.table(alloc)?;
    for _record in 0..records {
        if met.iter().all(|own| *own) || !table.advance()? {
            return Ok(met);
        }
        note(&mut met, words, columns, table.current(), has_commas);
    }
    Ok(met)
}
