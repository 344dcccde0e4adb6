// The rows of a ledger that count.

use split_fates::row_reason;
use split_reading::{Row, Told, ToldFix};

// The fix of a record, if it is used and no filter leaves it out.
pub(crate) fn taken_fix(row: &Row) -> Option<ToldFix> {
    match row.told {
        Told::Fix(fix) => { if fix.is_taken() { Some(fix) } else { None } }
        Told::LeftOut(_) => None,
    }
}

// The fix of a record, if it stands in a track: one that is taken, or also one with a mark.
pub(crate) fn kept_fix(row: &Row, keeps_marks: bool) -> Option<ToldFix> {
    match row.told {
        Told::Fix(fix) if row_reason(row, keeps_marks).is_none() => Some(fix),
        _ => None,
    }
}

// The metres of a record, if its fix is taken and has some.
pub(crate) fn taken_metres(row: &Row) -> Option<(i64, i64)> {
    match taken_fix(row) {
        Some(fix) => fix.metres,
        None => None,
    }
}

// The number of the record of a row at a place.
pub(crate) fn record_at(place: usize) -> u32 {
    u32::try_from(place.saturating_add(1)).unwrap_or(u32::MAX)
}
