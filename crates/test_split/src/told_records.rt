// What the records of tables say, in words.

use crate::sheets::Sheet;
use indexmap::IndexSet;
use split_reading::{
    CellFault, Ledger, Progress, ReadingFault, Row, Told, ToldFix, Zone, read_records,
};
use split_table::Table;
use split_times::Moment;
use split_tracks::Reason;
use std::alloc::{AllocError, Global};
use std::process::Abort;
use std::test::Fail;

// A moment by its second, behind which nanoseconds stand, where it has some.
fn moment_words(alloc: Global, moment: Moment) -> Result<String, AllocError> {
    if moment.nanosecond == 0 {
        format!(in alloc; "{}", moment.second)
    } else {
        format!(in alloc; "{}+{}", moment.second, moment.nanosecond)
    }
}

// A zone behind a blank, or nothing.
fn zone_words(alloc: Global, zone: Option<Zone>) -> Result<String, AllocError> {
    let Some(zone) = zone else {
        return Ok(String::new(alloc));
    };
    let hemisphere = if zone.is_south { "S" } else { "N" };
    format!(in alloc; " {}{hemisphere}", zone.number)
}

// When and where a fix was, and whether it is used.
fn fix_words(alloc: Global, fix: &ToldFix) -> Result<String, AllocError> {
    let moment = moment_words(alloc, fix.moment)?;
    let zone = zone_words(alloc, fix.zone)?;
    let end = match (fix.is_used, fix.is_of_sensor, fix.left_for) {
        (false, _, _) => ", not used",
        (true, false, _) => ", of another sensor",
        (true, true, Some(_)) => ", filtered",
        (true, true, None) => "",
    };
    match (fix.metres, fix.degrees) {
        (Some((easting, northing)), _) => {
            format!(in alloc; " {moment}: {easting} {northing}{zone}{end}")
        }
        (None, Some((longitude, latitude))) => {
            format!(in alloc; " {moment}: degrees {longitude} {latitude}{zone}{end}")
        }
        (None, None) => format!(in alloc; " {moment}: nowhere{zone}{end}"),
    }
}

// Why a record is left out.
fn reason_words(reason: Reason) -> &'static str {
    match reason {
        Reason::Animal => ": no animal",
        Reason::Coordinates => ": no coordinates",
        Reason::Zero => ": zero",
        _ => ": left out",
    }
}

// What a record says, behind the numbers of its animal and its sensor.
fn row_words(alloc: Global, row: &Row) -> Result<String, AllocError> {
    let sensor = row.sensor;
    let words = match row.told {
        Told::LeftOut(reason) => format!(in alloc; "{}", reason_words(reason))?,
        Told::Fix(fix) => fix_words(alloc, &fix)?,
    };
    match row.animal {
        Some(animal) => format!(in alloc; "{animal}/{sensor}{words}"),
        None => format!(in alloc; "-/{sensor}{words}"),
    }
}

// Appends words, each between brackets.
fn tell_words(text: &mut Vec<u8>, words: &IndexSet<Vec<u8>>) -> Result<(), AllocError> {
    for word in words.iter() {
        text.extend_from_slice(b"[")?;
        text.extend_from_slice(word)?;
        text.extend_from_slice(b"]")?;
    }
    Ok(())
}

// The names and the sensors of a ledger, and what each record says.
fn ledger_words(alloc: Global, ledger: &Ledger) -> Result<Vec<u8>, AllocError> {
    let mut text = Vec::new(alloc);
    tell_words(&mut text, &ledger.names)?;
    text.extend_from_slice(b" | ")?;
    tell_words(&mut text, &ledger.sensors)?;
    let mut sign = " | ";
    for row in ledger.rows.iter() {
        text.extend_from_slice(sign.as_bytes())?;
        text.extend_from_slice(row_words(alloc, row)?.as_bytes())?;
        sign = "; ";
    }
    Ok(text)
}

// Who hears nothing.
#[derive(Drop)]
struct Silent;

impl Progress for Silent {
    fn hear(&mut self, _records: u32) {}
}

// The ledger of such records below the titles, or why they have none.
fn read(alloc: Global, sheet: &Sheet, records: &str) -> Result<Result<Ledger, ReadingFault>, Fail> {
    let text = format!(in alloc; "{}\n{records}", sheet.titles)?;
    let mut table = Table::new(alloc, text.as_bytes())?;
    Ok(read_records(alloc, &mut table, &sheet.rules, &mut Silent))
}

// Checks what such records say.
pub(crate) fn expect_told(
    rt: &impl Abort,
    alloc: Global,
    sheet: &Sheet,
    records: &str,
    expected: &str,
) -> Result<(), Fail> {
    let ledger = read(alloc, sheet, records)??;
    let words = ledger_words(alloc, &ledger)?;
    assert!(rt; words.as_slice() == expected.as_bytes(), "{records}");
    Ok(())
}

// Checks the number of the record that is at fault, and its fault.
pub(crate) fn expect_fault(
    rt: &impl Abort,
    alloc: Global,
    sheet: &Sheet,
    records: &str,
    record: u32,
    fault: CellFault,
) -> Result<(), Fail> {
    let found = read(alloc, sheet, records)?.err();
    let expected = ReadingFault::Record { record, fault };
    assert!(rt; found == Some(expected), "{records}");
    Ok(())
}
