// Columns that are not read and say when animals got their devices and lost them.

ghost use Rattle.std.specs.Prelude.{IfErr};
ghost use Rattle.split_refusal.specs.Refused.{IsOfNoFix};

use crate::passed::title_at;
use range_plane::OutOfMemory;
use split_export::{Asked, Beyond, End, Export, beyond_in, rules_of};
use split_refusal::Refusal;
use split_said::Said;
use split_titles::{has_word, is_read, trimmed};
use std::alloc::Global;

// Words of titles of deployments, and of their ends.
const DEPLOYMENTS: [&str; 4] = ["deploy", "deployed", "deployment", "deployments"];

const FIRSTS: [&str; 3] = ["on", "start", "begin"];

const LASTS: [&str; 3] = ["off", "end", "stop"];

// Which end of deployments a column of this title has; none where it has neither.
fn end_of(title: &[u8]) -> Option<End> {
    if !has_word(title, &DEPLOYMENTS) {
        return None;
    }
    match (has_word(title, &FIRSTS), has_word(title, &LASTS)) {
        (true, false) => Some(End::First),
        (false, true) => Some(End::Last),
        _ => None,
    }
}

// Asks whether fixes are the animal's that lie beyond the times in a column of this title.
fn ask(
    alloc: Global,
    said: &mut Said,
    column: usize,
    title: &[u8],
    end: End,
    found: Beyond,
) -> Result<(), OutOfMemory> {
    let Beyond { fixes, beyond } = found;
    if beyond == 0 {
        return Ok(());
    }
    let side = match end {
        End::First => "before",
        End::Last => "after",
    };
    let title = str::from_utf8(trimmed(title)).unwrap_or("");
    let number = column.saturating_add(1);
    let line = format!(in alloc;
        "{beyond} of {fixes} fixes lie {side} the times in column {number} '{title}': are they hers?"
    )?;
    said.say(alloc, line.as_bytes())
}

// Asks it of a column that has this end.
fn ask_of(
    alloc: Global,
    said: &mut Said,
    asked: &Asked<'_>,
    export: &Export<'_>,
    column: usize,
    end: End,
) -> Result<(), Refusal>
    ensures { IfErr result IsOfNoFix }
{
    let Ok(rules) = rules_of(&export.columns, export.titles.len(), false, asked) else {
        return Ok(());
    };
    let rows = &export.ledger.rows;
    let Ok(found) = beyond_in(alloc, &export.text, &rules, column, end, rows) else {
        return Err(Refusal::out_of_memory(alloc));
    };
    match ask(alloc, said, column, title_at(export, column), end, found) {
        Ok(()) => Ok(()),
        Err(_) => Err(Refusal::out_of_memory(alloc)),
    }
}

/// Asks whether fixes are the animal's that lie before the times when it got its device, or after those when it lost it, by a column
/// that is not read.
///
/// # Errors
///
/// Memory ran out.
pub(crate) fn tell_deployments(
    alloc: Global,
    said: &mut Said,
    asked: &Asked<'_>,
    export: &Export<'_>,
) -> Result<(), Refusal>
    ensures { IfErr result IsOfNoFix }
{
    if export.columns.time.is_empty() || export.columns.is_second {
        return Ok(());
    }
    for (column, title) in export.titles.iter().enumerate() {
        match end_of(title) {
            Some(end) if !is_read(&export.columns, column) => {
                ask_of(alloc, said, asked, export, column, end)?;
            }
            _ => {}
        }
    }
    Ok(())
}
