// Columns that are not read and name the unit of coordinates.

ghost use Rattle.std.specs.Prelude.{IfErr};
ghost use Rattle.split_refusal.specs.Refused.{IsOfNoFix};

use crate::joined::Unread;
use crate::passed::refusal_of;
use split_export::{Export, Texts};
use split_refusal::Refusal;
use split_titles::{Columns, UnitNamed, is_of_units, unit_named};
use std::alloc::Global;

// What is said of units of metres, and of degrees, that are none.
const NO_METRES: &str =
    "says that coordinates are in another unit than metres, in which they are read: write metres and remove it, \
     or remove it where it is not theirs";

const NO_DEGREES: &str =
    "says that coordinates are in another unit than degrees, in which they are read: write degrees with \
     decimals and remove it, or remove it where it is not theirs";

const AS_METRES: &str =
    "says that coordinates are in degrees, and they are read as metres: name them by --lon and --lat, or remove \
     it where it is not theirs";

const SEVERAL: &str =
    "has several units: write all coordinates in metres, or in degrees with decimals, and remove it, or remove it \
     where it is not theirs";

// What is said of a column of units beside such columns that are read, if it is refused.
fn words_of(columns: &Columns<Global>, texts: &Texts) -> Option<&'static str> {
    let has_metres = columns.metres.is_some();
    let has_degrees = columns.degrees.is_some();
    if texts.are_several {
        return Some(SEVERAL);
    }
    match unit_named(texts.first_text()) {
        Some(UnitNamed::Length) if has_metres => Some(NO_METRES),
        Some(UnitNamed::Angle) if has_degrees => Some(NO_DEGREES),
        Some(UnitNamed::Degrees | UnitNamed::Angle) if !has_degrees => Some(AS_METRES),
        _ => None,
    }
}

/// Refuses coordinates of which a column that is not read names another unit than that in which they are read.
///
/// # Errors
///
/// There is such a column, or memory ran out.
pub(crate) fn refuse_units(
    alloc: Global,
    export: &Export<'_>,
    unread: Unread<'_>,
) -> Result<(), Refusal>
    ensures { IfErr result IsOfNoFix }
{
    for (column, texts) in unread.columns.iter().zip(unread.texts) {
        let title = unread.title(*column);
        if texts.are_there && texts.are_units && is_of_units(title) {
            if let Some(words) = words_of(&export.columns, texts) {
                return Err(refusal_of(alloc, *column, title, words));
            }
        }
    }
    Ok(())
}
