// What is said of an export before its records are looked at: points that are not read, and words for what is missing that no field
// is.

ghost use Rattle.std.specs.Prelude.{IfErr};
ghost use Rattle.split_refusal.specs.Refused.{IsOfNoFix};

use crate::wish::Wish;
use range_plane::OutOfMemory;
use split_export::{Asked, Export, has_commas, words_met};
use split_refusal::Refusal;
use split_said::Said;
use split_titles::{Columns, is_read};
use std::alloc::Global;

// The columns of a table of this width that are read.
fn columns_read(
    alloc: Global,
    columns: &Columns<Global>,
    width: usize,
) -> Result<Vec<usize>, OutOfMemory> {
    let mut places = Vec::new(alloc);
    for at in 0..width {
        if is_read(columns, at) {
            places.push(at)?;
        }
    }
    Ok(places)
}

// Says that no field is this word.
fn say_unmet(alloc: Global, said: &mut Said, word: &[u8]) -> Result<(), OutOfMemory> {
    let word = str::from_utf8(word).unwrap_or("");
    let line = format!(in alloc; "--na: no field of the columns that are read is '{word}'")?;
    said.say(alloc, line.as_bytes())
}

// Says which words are met by no field.
fn say_all_unmet(
    alloc: Global,
    said: &mut Said,
    words: &[&[u8]],
    met: &[bool],
) -> Result<(), OutOfMemory> {
    for (word, is_met) in words.iter().zip(met) {
        if !*is_met && !word.is_empty() {
            say_unmet(alloc, said, word)?;
        }
    }
    Ok(())
}

/// Says how many points of GPX are not read, if there are such.
///
/// # Errors
///
/// Memory ran out.
pub(crate) fn tell_other_points(
    alloc: Global,
    said: &mut Said,
    wish: &Wish<'_>,
) -> Result<(), Refusal>
    ensures { IfErr result IsOfNoFix }
{
    let count = wish.other_points;
    if count == 0 {
        return Ok(());
    }
    let Ok(line) = format!(in alloc;
        "points of no track, as waypoints and those of routes: {count}, not read"
    ) else {
        return Err(Refusal::out_of_memory(alloc));
    };
    match said.say(alloc, line.as_bytes()) {
        Ok(()) => Ok(()),
        Err(_) => Err(Refusal::out_of_memory(alloc)),
    }
}

/// Says which words for what is missing no field of a table is, if such words were named.
///
/// # Errors
///
/// Memory ran out.
pub(crate) fn tell_unmet(
    alloc: Global,
    said: &mut Said,
    bytes: &[u8],
    asked: &Asked<'_>,
    wish: &Wish<'_>,
    export: &Export<'_>,
) -> Result<(), Refusal>
    ensures { IfErr result IsOfNoFix }
{
    if !wish.names_missing {
        return Ok(());
    }
    let Ok(columns) = columns_read(alloc, &export.columns, export.titles.len()) else {
        return Err(Refusal::out_of_memory(alloc));
    };
    let records = export.ledger.rows.len();
    let commas = has_commas(bytes, asked);
    let Ok(met) = words_met(
        alloc,
        &export.text,
        &columns,
        asked.missing,
        records,
        commas,
    ) else {
        return Err(Refusal::out_of_memory(alloc));
    };
    match say_all_unmet(alloc, said, asked.missing, &met) {
        Ok(()) => Ok(()),
        Err(_) => Err(Refusal::out_of_memory(alloc)),
    }
}
