// Whether the column of the animal has it.

use crate::alike::tell_alike;
use crate::rows::record_at;
use crate::said::Said;
use crate::sheet::{Sheet, title_at};
use crate::stop::{Stop, refused};
use crate::words::{push, push_number};
use crate::words_missing::{ask_missing, has_lost_digits};
use range_plane::OutOfMemory;
use split_reading::{Ledger, Row};
use split_refusal::Kind;
use split_titles::push_shown;
use std::alloc::{AllocError, Global};

// How many records each animal has, also of those that are left out.
fn record_counts(alloc: Global, ledger: &Ledger) -> Result<Vec<usize>, OutOfMemory> {
    let mut counts = vec![in alloc; 0usize; ledger.names.len()]?;
    for row in ledger.rows.iter() {
        if let Some(animal) = row.animal {
            if let Some(count) = counts.get_mut(animal as usize) {
                *count = count.saturating_add(1);
            }
        }
    }
    Ok(counts)
}

// That each of so many animals has one record.
fn one_fix_text(alloc: Global, animals: usize, title: &[u8]) -> Result<Vec<u8>, AllocError> {
    let mut text = Vec::new(alloc);
    push(&mut text, "every one of ")?;
    push_number(&mut text, animals)?;
    push(&mut text, " animals has one record: is ")?;
    text.extend_from_slice(title)?;
    push(
        &mut text,
        " the animal? Name its column, as by --animal COLUMN",
    )?;
    Ok(text)
}

// That most of so many animals have one record.
fn few_fixes_text(alloc: Global, animals: usize, title: &[u8]) -> Result<Vec<u8>, AllocError> {
    let mut text = Vec::new(alloc);
    push(&mut text, "of ")?;
    push_number(&mut text, animals)?;
    push(&mut text, " animals have one record: is ")?;
    text.extend_from_slice(title)?;
    push(&mut text, " the animal?")?;
    Ok(text)
}

// Whether a name has an end of a line.
fn has_line_end(name: &[u8]) -> bool {
    name.contains(&b'\n') || name.contains(&b'\r')
}

// That a name has an end of a line.
fn line_end_text(alloc: Global, name: &[u8]) -> Result<Vec<u8>, AllocError> {
    let mut text = Vec::new(alloc);
    push(&mut text, "the name of animal ")?;
    push_shown(&mut text, name)?;
    push(&mut text, " has an end of a line: is a quote missing?")?;
    Ok(text)
}

// The first record of an animal.
fn first_record(ledger: &Ledger, animal: u32) -> Option<u32> {
    let is_own = |row: &Row| row.animal == Some(animal);
    match ledger.rows.iter().position(is_own) {
        Some(place) => Some(record_at(place)),
        None => None,
    }
}

// That a name is a number without all its digits.
fn lost_digits_text(alloc: Global, name: &[u8]) -> Result<Vec<u8>, AllocError> {
    let mut text = Vec::new(alloc);
    push(&mut text, "the name of animal ")?;
    push_shown(&mut text, name)?;
    push(
        &mut text,
        " is a number that has lost digits: write its column as text, before a spreadsheet opens it",
    )?;
    Ok(text)
}

// What is wrong with a name, if anything is.
fn name_fault(alloc: Global, name: &[u8]) -> Option<Result<Vec<u8>, AllocError>> {
    if has_line_end(name) {
        Some(line_end_text(alloc, name))
    } else if has_lost_digits(name) {
        Some(lost_digits_text(alloc, name))
    } else {
        None
    }
}

// Refuses a name with an end of a line, which has records of its own where a quote is missing, and one that is a number without
// all its digits, which others may have too.
fn refuse_names(alloc: Global, ledger: &Ledger) -> Result<(), Stop> {
    for (animal, name) in ledger.names.iter().enumerate() {
        if let Some(text) = name_fault(alloc, name) {
            let animal = u32::try_from(animal).unwrap_or(u32::MAX);
            let record = first_record(ledger, animal);
            return Err(refused(alloc, Kind::Name, record, text));
        }
    }
    Ok(())
}

// Refuses names that cannot be right, and a column of the animal that has another one in each row; says where most have, which
// names may be none, and which are alike.
pub(crate) fn check_animals(
    alloc: Global,
    said: &mut Said,
    sheet: &Sheet<'_>,
    ledger: &Ledger,
) -> Result<(), Stop> {
    let Some(column) = sheet.columns.animal.first() else {
        return Ok(());
    };
    refuse_names(alloc, ledger)?;
    let counts = record_counts(alloc, ledger)?;
    ask_missing(alloc, said, &ledger.names, &counts)?;
    let animals = counts.len();
    if animals < 2 {
        return Ok(());
    }
    let title = title_at(sheet, *column);
    let single = counts.iter().filter(|count| **count == 1).count();
    if single == animals {
        let text = one_fix_text(alloc, animals, title);
        return Err(refused(alloc, Kind::OneFix, None, text));
    }
    if single > animals / 2 {
        said.say_counted(alloc, single, &few_fixes_text(alloc, animals, title)?)?;
    }
    tell_alike(alloc, said, &ledger.names)?;
    Ok(())
}
