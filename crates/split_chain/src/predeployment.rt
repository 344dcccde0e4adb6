// Columns that are not read and say which records are of before a deployment.

ghost use Rattle.std.specs.Prelude.{IfErr};
ghost use Rattle.split_refusal.specs.Refused.{IsOfNoFix};

use range_plane::OutOfMemory;
use split_export::{Export, Flag, Flags, flags_in};
use split_reading::{Row, Told};
use split_refusal::Refusal;
use split_said::Said;
use split_table::TableFault;
use split_titles::{has_word, is_read, trimmed};
use std::alloc::Global;

// Words of titles of such columns, of which two stand for one.
const WORDS: [&str; 3] = ["predeployment", "predeploy", "predeployed"];

// Whether a title is that of a column that says which records are of before a deployment.
fn is_one(title: &[u8]) -> bool {
    let is_parted = has_word(title, &["pre"]) && has_word(title, &["deployment", "deploy"]);
    has_word(title, &WORDS) || is_parted
}

// Whether a row has a fix that is taken, and its flag is set.
fn is_flagged(row: &Row, flag: Flag) -> bool {
    match row.told {
        Told::Fix(fix) => fix.is_taken() && flag == Flag::Set,
        Told::LeftOut(_) => false,
    }
}

// How many rows have a fix that is taken, and a flag that is set.
fn count_flagged(rows: &[Row], flags: &[Flag]) -> usize {
    let mut count: usize = 0;
    for (row, flag) in rows.iter().zip(flags) {
        if is_flagged(row, *flag) {
            count = count.saturating_add(1);
        }
    }
    count
}

// How many fixes that are taken have a flag that is set in a column.
fn count_in(alloc: Global, export: &Export<'_>, column: usize) -> Result<usize, TableFault> {
    let rows = &export.ledger.rows;
    match flags_in(alloc, &export.text, column, rows.len(), Flags::Plain)? {
        Some(flags) => Ok(count_flagged(rows, &flags)),
        None => Ok(0),
    }
}

// Asks whether so many fixes are the animal's, of which a column of this title says that they are of before its deployment.
fn ask(alloc: Global, said: &mut Said, title: &[u8], count: usize) -> Result<(), OutOfMemory> {
    if count == 0 {
        return Ok(());
    }
    let title = str::from_utf8(trimmed(title)).unwrap_or("");
    let line = format!(in alloc;
        "{count} fixes are of before the deployment, by {title}: are they the animal's?"
    )?;
    said.say(alloc, line.as_bytes())
}

// Asks it of a column.
fn ask_of(
    alloc: Global,
    said: &mut Said,
    export: &Export<'_>,
    column: usize,
    title: &[u8],
) -> Result<(), Refusal>
    ensures { IfErr result IsOfNoFix }
{
    let Ok(count) = count_in(alloc, export, column) else {
        return Err(Refusal::out_of_memory(alloc));
    };
    match ask(alloc, said, title, count) {
        Ok(()) => Ok(()),
        Err(_) => Err(Refusal::out_of_memory(alloc)),
    }
}

/// Asks whether fixes are the animal's of which a column that is not read says that they are of before its deployment.
///
/// # Errors
///
/// Memory ran out.
pub(crate) fn tell_predeployment(
    alloc: Global,
    said: &mut Said,
    export: &Export<'_>,
) -> Result<(), Refusal>
    ensures { IfErr result IsOfNoFix }
{
    for (column, title) in export.titles.iter().enumerate() {
        if is_one(title) && !is_read(&export.columns, column) {
            ask_of(alloc, said, export, column, title)?;
        }
    }
    Ok(())
}
