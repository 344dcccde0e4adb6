// The records of a table as a whole.

ghost use Rattle.std.specs.Prelude.{IfErr};
ghost use Rattle.split_refusal.specs.Refused.{IsOfNoFix};

use crate::animals::check_animals;
use crate::clocks::tell_clock;
use crate::exports::tell_exports;
use crate::left::{LeftCounts, none_left_text, tell_filters};
use crate::rows::taken_fix;
use crate::said::Said;
use crate::seconds::check_seconds;
use crate::sensors::{check_classes, check_sensors};
use crate::sheet::Sheet;
use crate::stop::{Stop, refusal_of, refused};
use crate::words::push;
use range_plane::OutOfMemory;
use split_reading::{Ledger, Row, Told};
use split_refusal::{Kind, Refusal};
use split_tracks::Reason;
use std::alloc::{AllocError, Global};

// That a table has no record.
fn empty_text(alloc: Global) -> Result<Vec<u8>, AllocError> {
    Vec::from_slice(alloc, b"there is no record below the titles")
}

// Says how many records are none of an animal at a place.
fn tell_unread(alloc: Global, said: &mut Said, left: &LeftCounts) -> Result<(), OutOfMemory> {
    said.say_counted(
        alloc,
        left.count(Reason::Animal),
        b"records have no animal: left out",
    )?;
    said.say_counted(
        alloc,
        left.count(Reason::Coordinates),
        b"records have no coordinates: left out",
    )?;
    said.say_counted(
        alloc,
        left.count(Reason::Zero),
        b"records have longitude and latitude 0: left out",
    )
}

// Says which columns are not there.
fn tell_no_columns(alloc: Global, said: &mut Said, sheet: &Sheet<'_>) -> Result<(), OutOfMemory> {
    if sheet.columns.animal.is_empty() {
        let mut text = Vec::new(alloc);
        push(
            &mut text,
            "no column has a usual title for the animal: all fixes are of one, named ",
        )?;
        text.extend_from_slice(sheet.name)?;
        said.say(alloc, &text)?;
    }
    if sheet.columns.time.is_empty() {
        said.say(
            alloc,
            b"no column has a usual title for the time: fixes are in the order of rows, as seconds 0, 1, 2, ..",
        )?;
    }
    Ok(())
}

// How many fixes of sensors that are wanted are not used.
fn outlier_count(rows: &[Row]) -> usize {
    rows.iter()
        .filter(|row| match row.told {
            Told::Fix(fix) => fix.is_of_sensor && !fix.is_used,
            Told::LeftOut(_) => false,
        })
        .count()
}

// Says how many fixes are not used.
fn tell_outliers(
    alloc: Global,
    said: &mut Said,
    sheet: &Sheet<'_>,
    rows: &[Row],
) -> Result<(), OutOfMemory> {
    let count = outlier_count(rows);
    if sheet.keeps_marks {
        said.say_counted(alloc, count, b"outliers: use 0")
    } else {
        said.say_counted(alloc, count, b"outliers: left out")
    }
}

// Checks the records of a table.
fn check(alloc: Global, said: &mut Said, sheet: &Sheet<'_>, ledger: &Ledger) -> Result<(), Stop> {
    if ledger.rows.is_empty() {
        return Err(refused(alloc, Kind::Empty, None, empty_text(alloc)));
    }
    tell_exports(alloc, said, &sheet.exports)?;
    check_animals(alloc, said, sheet, ledger)?;
    check_seconds(alloc, sheet, ledger)?;
    let left = LeftCounts::of(sheet, &ledger.rows);
    tell_unread(alloc, said, &left)?;
    tell_no_columns(alloc, said, sheet)?;
    tell_clock(alloc, said, sheet, &ledger.rows)?;
    check_sensors(alloc, said, sheet, ledger, &left)?;
    tell_outliers(alloc, said, sheet, &ledger.rows)?;
    check_classes(alloc, said, sheet, ledger, &left)?;
    tell_filters(alloc, said, sheet, &left)?;
    if ledger.rows.iter().all(|row| taken_fix(row).is_none()) {
        return Err(refused(alloc, Kind::Empty, None, none_left_text(alloc, &left)));
    }
    Ok(())
}

/// Checks the records of a table as a whole, and says what is left out and what is odd: exports of which it was made, animals with one record each, names
/// that are alike, records without an animal or a place, columns that are not there, how times are read, the sensor, outliers, and fixes that filters
/// leave out.
///
/// # Errors
///
/// The table has no record, or no fix is left; a name has an end of a line; each animal has one record; seconds may be those of a
/// minute, or have no dates, which an option has; fixes are of several sensors and none is named, or of Argos and no class is named; no fix is of a sensor that is named;
/// or memory ran out.
pub fn check_ledger(
    alloc: Global,
    said: &mut Said,
    sheet: &Sheet<'_>,
    ledger: &Ledger,
) -> Result<(), Refusal>
    ensures { IfErr result IsOfNoFix }
{
    match check(alloc, said, sheet, ledger) {
        Ok(()) => Ok(()),
        Err(stop) => Err(refusal_of(alloc, stop)),
    }
}
