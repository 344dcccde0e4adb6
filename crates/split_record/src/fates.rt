// What became of each record of a table, as it is written.

ghost use Rattle.std.specs.Prelude.{◌≡◌, ◌++◌, [], IfOk, OnOk, decimal, map};
ghost use Rattle.split_record.specs.Fates.{fate_line, fates_text, file_of, titles};
ghost use Rattle.split_record.specs.OneLine.{one_line};
ghost use Rattle.split_record.specs.Lines.{field_text, reason_words, text_of_line};

use crate::lines::{push_field, push_number};
use crate::one_line::push_one_line;
use crate::reasons::reason_words;
use itoa::Buffer;
use range_plane::OutOfMemory;
use split_tracks::{Entry, Fate, Reason};
use std::alloc::{AllocError, Allocator};

// The name of the file of an animal.
fn file_of<'a>(names: &'a [Vec<u8>], animal: Option<u32>) -> &'a [u8]
    ensures { result.now ≡ file_of (map (λ name. name.items) names.now) animal }
{
    match animal {
        Some(animal) => match names.get(animal as usize) {
            Some(name) => name,
            None => b"",
        },
        None => b"",
    }
}

// Appends the line of titles.
fn push_titles<A: Allocator>(text: &mut Vec<u8, A>) -> Result<(), AllocError>
    ensures { OnOk result (text.new.items ≡ text.old.items ++ text_of_line titles) }
{
    push_one_line(text, b"record")?;
    push_field(text, b"file")?;
    push_field(text, b"second")?;
    push_field(text, b"nanosecond")?;
    push_field(text, b"reason")?;
    text.extend_from_slice(b"\n")
}

// Appends the number of a record, as the first field of a line.
fn push_first<A: Allocator>(text: &mut Vec<u8, A>, number: usize) -> Result<(), AllocError>
    ensures { OnOk result (text.new.items ≡ text.old.items ++ one_line (decimal number)) }
{
    let mut buffer = Buffer::new();
    push_one_line(text, buffer.format(number).as_bytes())
}

// Appends the fields of a record that is in the track of a file of this name.
fn push_entry<A: Allocator>(
    text: &mut Vec<u8, A>,
    file: &[u8],
    entry: &Entry,
) -> Result<(), AllocError>
    ensures { OnOk result (text.new.items ≡ text.old.items ++ field_text file.now
        ++ field_text (decimal entry.now.moment.second) ++ field_text (decimal entry.now.moment.nanosecond) ++ field_text []) }
{
    push_field(text, file)?;
    push_number(text, entry.moment.second)?;
    push_number(text, entry.moment.nanosecond)?;
    push_field(text, b"")
}

// Appends the fields of a record that is left out, of an animal whose file has this name.
fn push_left_out<A: Allocator>(
    text: &mut Vec<u8, A>,
    file: &[u8],
    reason: Reason,
) -> Result<(), AllocError>
    ensures { OnOk result (text.new.items ≡ text.old.items ++ field_text file.now
        ++ field_text [] ++ field_text [] ++ field_text (reason_words reason)) }
{
    push_field(text, file)?;
    push_field(text, b"")?;
    push_field(text, b"")?;
    push_field(text, reason_words(reason))
}

// Appends the line of a record of this number.
fn push_fate<A: Allocator>(
    text: &mut Vec<u8, A>,
    names: &[Vec<u8>],
    number: usize,
    fate: &Fate,
) -> Result<(), AllocError>
    ensures { OnOk result (text.new.items
        ≡ text.old.items ++ text_of_line (fate_line (map (λ name. name.items) names.now) number fate.now)) }
{
    push_first(text, number)?;
    match fate {
        Fate::InTrack { animal, entry } => push_entry(text, file_of(names, Some(*animal)), entry)?,
        Fate::LeftOut { animal, reason } => push_left_out(text, file_of(names, *animal), *reason)?,
    }
    text.extend_from_slice(b"\n")
}

/// The text of what became of each record of a table, a line of CSV for each below its titles: the number of the record; the name
/// of the file of its animal, without `.csv`, if the record names one; the second and the nanoseconds of its moment, if it is in
/// the track of that file; and else why it is left out.
///
/// # Errors
///
/// Memory ran out.
pub fn fates_text<A: Allocator>(
    alloc: A,
    names: &[Vec<u8>],
    fates: &[Fate],
) -> Result<Vec<u8, A>, OutOfMemory>
    ensures { IfOk result (λ text. text.items ≡ fates_text (map (λ name. name.items) names.now) fates.now) }
{
    let mut text = Vec::new(alloc);
    push_titles(&mut text)?;
    for index in 0..fates.len() {
        push_fate(&mut text, names, index + 1, &fates[index])?;
    }
    Ok(text)
}
