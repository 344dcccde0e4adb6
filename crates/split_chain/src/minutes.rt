// Columns that are not read and have the minutes of degrees.

ghost use Rattle.std.specs.Prelude.{IfErr};
ghost use Rattle.split_refusal.specs.Refused.{IsOfNoFix};

use crate::joined::Unread;
use crate::passed::refusal_of;
use split_export::Export;
use split_reading::{Row, Told};
use split_refusal::Refusal;
use split_titles::is_of_minutes;
use std::alloc::Global;

// The trillionths of a degree.
const DEGREE: i64 = 1_000_000_000_000;

// What is said of such a column beside degrees that are all whole.
const WORDS: &str =
    "has minutes or seconds of degrees, which the whole degrees that are read have not: write degrees with decimals, as \
     degrees + minutes / 60 + seconds / 3600, with a minus before all that lie in the south or the west, and remove it";

// Whether a number of trillionths of a degree is one of whole degrees.
fn is_whole(trillionths: i64) -> bool {
    trillionths.checked_rem(DEGREE) == Some(0)
}

// Whether the degrees of a row, if it has some, are whole.
fn has_whole_degrees(row: &Row) -> bool {
    match row.told {
        Told::Fix(fix) => match fix.degrees {
            Some((longitude, latitude)) => is_whole(longitude) && is_whole(latitude),
            None => true,
        },
        Told::LeftOut(_) => true,
    }
}

/// Refuses degrees that are all whole where a column that is not read has minutes of degrees, or seconds.
///
/// # Errors
///
/// There is such a column, or memory ran out.
pub(crate) fn refuse_minutes(
    alloc: Global,
    export: &Export<'_>,
    unread: Unread<'_>,
) -> Result<(), Refusal>
    ensures { IfErr result IsOfNoFix }
{
    if export.columns.degrees.is_none() || !export.ledger.rows.iter().all(has_whole_degrees) {
        return Ok(());
    }
    for (column, texts) in unread.columns.iter().zip(unread.texts) {
        let title = unread.title(*column);
        if texts.are_there && texts.are_numbered && is_of_minutes(title) {
            return Err(refusal_of(alloc, *column, title, WORDS));
        }
    }
    Ok(())
}
