// Refusals of a record.

ghost use Rattle.std.specs.Prelude.{◌≡◌, IfOk, Some};
ghost use Rattle.split_refusal.specs.Refused.{IsOfKind, Names};

use crate::forms::without_blanks;
use crate::kind::Kind;
use crate::parts::form_of_columns;
use crate::push::{Field, field_at, push, push_field, push_number};
use crate::refusal::{Refusal, Sentence};
use crate::remedies::push_number_remedy;
use crate::times::{
    clock_sentence, missing_time, number_sentence, second_sentence, several_sentence, time_sentence,
};
use crate::zones::zone_sentence;
use range_plane::OutOfMemory;
use split_reading::CellFault;
use split_times::TimeFault;
use split_titles::is_of_animal;
use std::alloc::{AllocError, Global};

// What is said behind a field that is no number, or no mark.
const NO_NUMBER: &str = " and not a number of up to 12 digits";

const NO_MARK: &str = " and not true or false (or 1 or 0): write those, or rename the column";

const NO_TRUTH: &str = " and neither true nor false: write those, or rename the column";

// That a record has so many fields, and others are wanted.
fn count_sentence(alloc: Global, count: usize, wanted: usize) -> Result<Sentence, OutOfMemory> {
    let mut text = Vec::new(alloc);
    push_number(&mut text, count as u64)?;
    push(&mut text, " fields where ")?;
    push_number(&mut text, wanted as u64)?;
    push(&mut text, " are wanted")?;
    Ok(Sentence {
        kind: Kind::Fields,
        text,
    })
}

// The first other column with a usual title of the animal in which a record has something.
fn other_animal<'a>(shown: &RecordShown<'a>) -> Option<Field<'a>> {
    for column in 0..shown.titles.len() {
        let field = field_in(shown, column);
        let has_text = !without_blanks(field.cell).is_empty();
        if has_text && is_of_animal(field.title) && !shown.animal.contains(&column) {
            return Some(field);
        }
    }
    None
}

// Appends that a record has an animal in another column, where it does, and how both are read.
fn push_other_animal(
    text: &mut Vec<u8>,
    field: Field<'_>,
    other: Option<Field<'_>>,
) -> Result<(), AllocError> {
    let Some(other) = other else {
        return Ok(());
    };
    push(text, "; and ")?;
    text.extend_from_slice(other.title)?;
    push(text, " has one, which is taken there by --animal '")?;
    text.extend_from_slice(field.title)?;
    push(text, ",")?;
    text.extend_from_slice(other.title)?;
    push(text, "'")
}

// That a record names no animal in this field, and perhaps in another one.
fn unnamed_sentence(
    alloc: Global,
    field: Field<'_>,
    other: Option<Field<'_>>,
) -> Result<Sentence, OutOfMemory> {
    let mut text = Vec::new(alloc);
    if without_blanks(field.cell).is_empty() {
        push(&mut text, "there is no ")?;
        text.extend_from_slice(field.title)?;
        push(&mut text, ", and --skip-unnamed leaves such records out")?;
        push_other_animal(&mut text, field, other)?;
    } else {
        push_field(
            &mut text,
            field,
            ", a word of --na, and so no animal: leave it out of --na, or --skip-unnamed leaves such records out",
        )?;
    }
    Ok(Sentence {
        kind: Kind::Animal,
        text,
    })
}

// A field, and words about it.
fn field_sentence(
    alloc: Global,
    kind: Kind,
    field: Field<'_>,
    words: &str,
) -> Result<Sentence, OutOfMemory>
    ensures { IfOk result (λ sentence. sentence.kind ≡ kind) }
{
    let mut text = Vec::new(alloc);
    push_field(&mut text, field, words)?;
    Ok(Sentence { kind, text })
}

// That a field is no number.
fn no_number_sentence(alloc: Global, field: Field<'_>) -> Result<Sentence, OutOfMemory> {
    let mut sentence = field_sentence(alloc, Kind::Number, field, NO_NUMBER)?;
    push_number_remedy(&mut sentence.text, field.cell)?;
    Ok(sentence)
}

/// A record of a table, and what its refusal needs to know of the table.
#[derive(Clone, Copy)]
pub struct RecordShown<'a> {
    /// The number of the record.
    pub number: u32,
    pub titles: &'a [&'a [u8]],
    pub fields: &'a [&'a [u8]],
    /// The columns of the animal.
    pub animal: &'a [usize],
    /// The columns of the time.
    pub time: &'a [usize],
    /// The forms of times, as they were named, with `|` between; empty where none was.
    pub forms: &'a str,
    /// The name of the zone by whose clock times are read.
    pub clock: &'a str,
}

// The titles of some columns, and what a record has there, each with blanks between.
pub(crate) fn joined(
    alloc: Global,
    shown: &RecordShown<'_>,
) -> Result<(Vec<u8>, Vec<u8>), OutOfMemory> {
    let mut titles = Vec::new(alloc);
    let mut cells = Vec::new(alloc);
    for (at, column) in shown.time.iter().enumerate() {
        if at > 0 {
            push(&mut titles, " ")?;
            push(&mut cells, " ")?;
        }
        let field = field_at(shown.titles, shown.fields, Some(*column));
        titles.extend_from_slice(field.title)?;
        cells.extend_from_slice(field.cell)?;
    }
    Ok((titles, cells))
}

// The form that several columns of the time have together, by their titles and what a record has there; none where it is the one
// that is named.
fn form_of_several(alloc: Global, shown: &RecordShown<'_>) -> Result<Option<String>, OutOfMemory> {
    let mut titles: Vec<&[u8]> = Vec::new(alloc);
    let mut texts: Vec<&[u8]> = Vec::new(alloc);
    for column in shown.time {
        let field = field_at(shown.titles, shown.fields, Some(*column));
        titles.push(field.title)?;
        texts.push(without_blanks(field.cell))?;
    }
    if titles.len() < 2 {
        return Ok(None);
    }
    match form_of_columns(alloc, &titles, &texts)? {
        Some(form) if form.as_str() != shown.forms => Ok(Some(form)),
        _ => Ok(None),
    }
}

// The sentence of a field that is no time.
fn no_time_sentence(
    alloc: Global,
    fault: TimeFault,
    shown: &RecordShown<'_>,
    field: Field<'_>,
) -> Result<Sentence, OutOfMemory> {
    match form_of_several(alloc, shown)? {
        Some(form) if fault == TimeFault::NotTime => {
            several_sentence(alloc, field, shown.forms, &form)
        }
        _ => time_sentence(alloc, field, fault, shown.forms),
    }
}

// What is wrong with the time of a record, if that is the fault.
fn sentence_of_time(
    alloc: Global,
    fault: CellFault,
    shown: &RecordShown<'_>,
    field: Field<'_>,
) -> Result<Option<Sentence>, OutOfMemory> {
    let sentence = match fault {
        CellFault::NoTime => missing_time(alloc, field, shown.time.len())?,
        CellFault::Time { fault } => no_time_sentence(alloc, fault, shown, field)?,
        CellFault::Number { fault } => number_sentence(alloc, field, fault)?,
        CellFault::Clock { fault } => clock_sentence(alloc, field, fault, shown.clock)?,
        CellFault::NotSecond => second_sentence(alloc, field)?,
        _ => return Ok(None),
    };
    Ok(Some(sentence))
}

// The field of a record in a column.
fn field_in<'a>(shown: &RecordShown<'a>, column: usize) -> Field<'a> {
    field_at(shown.titles, shown.fields, Some(column))
}

// What is wrong with a record, where that is not its time.
fn sentence_of_cell(
    alloc: Global,
    fault: CellFault,
    shown: &RecordShown<'_>,
) -> Result<Sentence, OutOfMemory> {
    match fault {
        CellFault::FieldCount { count } => count_sentence(alloc, count, shown.titles.len()),
        CellFault::NotNumber { column } => { no_number_sentence(alloc, field_in(shown, column)) }
        CellFault::NotTruth { column } => {
            field_sentence(alloc, Kind::Mark, field_in(shown, column), NO_MARK)
        }
        CellFault::NoTruth { column } => {
            field_sentence(alloc, Kind::Mark, field_in(shown, column), NO_TRUTH)
        }
        CellFault::NotZone { column } => zone_sentence(alloc, field_in(shown, column)),
        _ => {
            let animal = field_at(shown.titles, shown.fields, shown.animal.first().copied());
            unnamed_sentence(alloc, animal, other_animal(shown))
        }
    }
}

// What is wrong with a record.
fn sentence_of(
    alloc: Global,
    fault: CellFault,
    shown: &RecordShown<'_>,
) -> Result<Sentence, OutOfMemory> {
    let (title, cell) = joined(alloc, shown)?;
    let field = Field {
        title: &title,
        cell: &cell,
    };
    match sentence_of_time(alloc, fault, shown, field)? {
        Some(sentence) => Ok(sentence),
        None => sentence_of_cell(alloc, fault, shown),
    }
}

// That the sign of a number may stand before thousands.
fn grouped_sentence(alloc: Global, field: Field<'_>) -> Result<Sentence, OutOfMemory>
    ensures { IfOk result (λ sentence. sentence.kind ≡ Kind.Number) }
{
    let words = if field.cell.contains(&b',') {
        ", whose comma may stand before thousands: export without it"
    } else {
        ", whose point may stand before thousands: export without it"
    };
    field_sentence(alloc, Kind::Number, field, words)
}

/// The refusal of a record with a number in this column whose sign may stand before thousands. It has these fields, and the table
/// has these titles.
pub fn refused_grouped(
    alloc: Global,
    record: u32,
    titles: &[&[u8]],
    fields: &[&[u8]],
    column: usize,
) -> Refusal
    ensures { IsOfKind Kind.Number result }
{
    let field = field_at(titles, fields, Some(column));
    match grouped_sentence(alloc, field) {
        Ok(sentence) => Refusal::whole(alloc, sentence.kind, Some(record), &sentence.text),
        Err(_no_memory) => Refusal::out_of_memory(alloc),
    }
}

/// The refusal of a record for what is wrong with it.
pub fn refused_cell(alloc: Global, fault: CellFault, shown: &RecordShown<'_>) -> Refusal
    ensures { Names (Some shown.now.number) result }
{
    match sentence_of(alloc, fault, shown) {
        Ok(sentence) => Refusal::whole(alloc, sentence.kind, Some(shown.number), &sentence.text),
        Err(_no_memory) => Refusal::out_of_memory(alloc),
    }
}
