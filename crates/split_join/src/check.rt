// Whether the table of a text is that of others, one after the other.

ghost use Rattle.std.specs.Prelude.{◌≡◌, ◌++◌, [], ◌∷◌, true, IfOk, OnOk};
ghost use Rattle.csv.specs.Records.{fields_of};
ghost use Rattle.split_join.specs.Joined.{AreNext, AreParts, IsJoined, IsPart, Passed};

use crate::fault::{JoinFault, fault_of};
use csv::ByteRecord;
use split_table::{Table, TableFault};
use std::alloc::Global;

// Whether two records have the same fields.
fn are_alike(one: &ByteRecord, other: &ByteRecord) -> bool
    ensures { (result ≡ true) → fields_of «one».now ≡ fields_of «other».now }
{
    one == other
}

// Takes the next record of the whole, which has to be this one.
fn pass(whole: &mut Table<'_>, record: &ByteRecord) -> Result<(), JoinFault>
    ensures passed { OnOk result (Passed (fields_of «record».now ∷ []) whole.old.left whole.new.left) }
    ensures titles { whole.new.titles ≡ whole.old.titles }
{
    let found = match whole.advance() {
        Ok(found) => found,
        Err(fault) => return Err(fault_of(0, fault)),
    };
    if found && are_alike(whole.current(), record) {
        Ok(())
    } else {
        Err(JoinFault::NotOne)
    }
}

// Takes the records of a part from the whole, whose next they have to be, and counts them.
fn pass_all(whole: &mut Table<'_>, part: &mut Table<'_>, text: usize) -> Result<u32, JoinFault>
    ensures next { IfOk result (AreNext whole.old.left part.old.left whole.new.left) }
    ensures titles { whole.new.titles ≡ whole.old.titles }
{
    for count in 0..u32::MAX {
        match part.advance() {
            Ok(true) => pass(whole, part.current())?,
            Ok(false) => return Ok(count),
            Err(fault) => return Err(fault_of(text, fault)),
        }
    }
    Err(JoinFault::TooManyRecords)
}

// Takes the records of the table of this text from the whole, which has to have its titles.
fn pass_text(
    alloc: Global,
    whole: &mut Table<'_>,
    bytes: &[u8],
    text: usize,
) -> Result<u32, JoinFault>
    ensures part { IfOk result (IsPart whole.old whole.new bytes.now) }
    ensures titles { whole.new.titles ≡ whole.old.titles }
{
    let mut part = match Table::new(alloc, bytes) {
        Ok(part) => part,
        Err(fault) => return Err(fault_of(text, fault)),
    };
    if !are_alike(whole.titles(), part.titles()) {
        return Err(JoinFault::Titles { text });
    }
    pass_all(whole, &mut part, text)
}

// Puts a count behind others.
fn push_count(counts: &mut Vec<u32>, count: u32) -> Result<(), JoinFault>
    ensures { OnOk result (counts.new.items ≡ counts.old.items ++ count ∷ []) }
{
    match counts.push(count) {
        Ok(()) => Ok(()),
        Err(_) => Err(JoinFault::OutOfMemory),
    }
}

// Takes the records of the tables of all texts from the whole, and counts those of each.
fn pass_texts(alloc: Global, whole: &mut Table<'_>, texts: &[&[u8]]) -> Result<Vec<u32>, JoinFault>
    ensures { IfOk result (λ counts. AreParts whole.old whole.new texts.now counts.items) }
{
    let mut counts = Vec::new(alloc);
    for text in 0..texts.len() {
        let count = pass_text(alloc, whole, texts[text], text)?;
        push_count(&mut counts, count)?;
    }
    Ok(counts)
}

// Why the table of all is not read.
fn unread(fault: TableFault) -> JoinFault {
    match fault {
        TableFault::OutOfMemory => JoinFault::OutOfMemory,
        _ => JoinFault::NotOne,
    }
}

/// How many records each of these texts has in the table of all.
///
/// # Errors
///
/// That table is not theirs.
pub(crate) fn counts_in(alloc: Global, all: &[u8], texts: &[&[u8]]) -> Result<Vec<u32>, JoinFault>
    ensures { IfOk result (λ counts. IsJoined texts.now all.now counts.items) }
{
    let mut whole = match Table::new(alloc, all) {
        Ok(whole) => whole,
        Err(fault) => return Err(unread(fault)),
    };
    let counts = pass_texts(alloc, &mut whole, texts)?;
    match whole.advance() {
        Ok(false) => Ok(counts),
        Ok(true) => Err(JoinFault::NotOne),
        Err(fault) => Err(fault_of(0, fault)),
    }
}
