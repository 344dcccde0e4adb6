// Columns that are read, and whose titles have words that are not known: how they are read is said.

ghost use Rattle.std.specs.Prelude.{IfErr};
ghost use Rattle.split_refusal.specs.Refused.{IsOfNoFix};

use crate::passed::title_at;
use range_plane::OutOfMemory;
use split_export::{Asked, Export};
use split_reading::{Row, Told};
use split_refusal::Refusal;
use split_said::Said;
use split_titles::{PRESETS, Pair, Subject, comes_to, trimmed, unknown_word};
use std::alloc::Global;

// How coordinates and times are read.
const AS_EASTINGS: &str = "eastings in metres";

const AS_NORTHINGS: &str = "northings in metres";

const AS_LONGITUDES: &str = "longitudes: degrees, those in the west below 0";

const AS_LATITUDES: &str = "latitudes: degrees, those in the south below 0";

const AS_TIMES: &str = "times of UTC";

// Says how a column is read, if its title has a word that is not known.
fn tell(
    alloc: Global,
    said: &mut Said,
    export: &Export<'_>,
    column: usize,
    subject: Subject,
    words: &str,
) -> Result<(), OutOfMemory> {
    let title = trimmed(title_at(export, column));
    if unknown_word(title, subject).is_none() {
        return Ok(());
    }
    let title = str::from_utf8(title).unwrap_or("");
    let number = column.saturating_add(1);
    let line = format!(in alloc; "column {number} '{title}' is read as {words}")?;
    said.say(alloc, line.as_bytes())
}

// Says it of two columns of coordinates.
fn tell_pair(
    alloc: Global,
    said: &mut Said,
    export: &Export<'_>,
    pair: Option<Pair>,
    first: &str,
    second: &str,
) -> Result<(), OutOfMemory> {
    let Some(pair) = pair else {
        return Ok(());
    };
    tell(alloc, said, export, pair.first, Subject::Coordinates, first)?;
    tell(
        alloc,
        said,
        export,
        pair.second,
        Subject::Coordinates,
        second,
    )
}

// Whether a title is one of times of a preset.
fn is_of_preset(title: &[u8]) -> bool {
    PRESETS.iter().any(|preset| preset
        .time
        .split(',')
        .any(|own| comes_to(title, own.as_bytes())))
}

// Whether a row has a fix whose time has no offset.
fn is_local(row: &Row) -> bool {
    match row.told {
        Told::Fix(fix) => fix.is_local,
        Told::LeftOut(_) => false,
    }
}

// Says it of the columns of the time, where no zone was named and times have no offset.
fn tell_times(
    alloc: Global,
    said: &mut Said,
    asked: &Asked<'_>,
    export: &Export<'_>,
) -> Result<(), OutOfMemory> {
    if asked.named.zone.is_some() || !export.ledger.rows.iter().any(is_local) {
        return Ok(());
    }
    for column in &export.columns.time {
        if !is_of_preset(title_at(export, *column)) {
            tell(alloc, said, export, *column, Subject::Times, AS_TIMES)?;
        }
    }
    Ok(())
}

// Says it of all columns.
fn tell_all(
    alloc: Global,
    said: &mut Said,
    asked: &Asked<'_>,
    export: &Export<'_>,
) -> Result<(), OutOfMemory> {
    let columns = &export.columns;
    tell_times(alloc, said, asked, export)?;
    tell_pair(
        alloc,
        said,
        export,
        columns.metres,
        AS_EASTINGS,
        AS_NORTHINGS,
    )?;
    tell_pair(
        alloc,
        said,
        export,
        columns.degrees,
        AS_LONGITUDES,
        AS_LATITUDES,
    )
}

/// Says how columns of times and coordinates are read whose titles have words that are not known.
///
/// # Errors
///
/// Memory ran out.
pub(crate) fn tell_unknown_words(
    alloc: Global,
    said: &mut Said,
    asked: &Asked<'_>,
    export: &Export<'_>,
) -> Result<(), Refusal>
    ensures { IfErr result IsOfNoFix }
{
    match tell_all(alloc, said, asked, export) {
        Ok(()) => Ok(()),
        Err(_) => Err(Refusal::out_of_memory(alloc)),
    }
}
