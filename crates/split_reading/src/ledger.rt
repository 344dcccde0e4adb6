// The ledger of a table: what became of each of its records.

ghost use Rattle.std.specs.Prelude.{◌≡◌, ◌++◌, ◌∷◌, ◌-◌, ◌<◌, [], false, IfErr, IfOk, IfSome, None, OnOk, length};
ghost use Rattle.csv.specs.Records.{fields_of};
ghost use Rattle.split_reading.specs.Ledger.{AreTimely, GoesOn, IsFaultAt, IsLedger, IsLedgerFault, IsRowFault, IsWithin, Writes, animal_in, last_of, lasts_with, names_with, with_last, written};
ghost use Rattle.split_reading.specs.Words.{texts};
ghost use Rattle.split_table.specs.Table.{TakesRecord};

use crate::fault::ReadingFault;
use crate::moment::{When, time_text};
use crate::progress::{Progress, tell_count};
use crate::rules::Rules;
use crate::told::{Told, name_in, sensor_in, told_in};
use crate::words::number_of;
use csv::ByteRecord;
use indexmap::IndexSet;
use range_plane::OutOfMemory;
use split_table::Table;
use split_times::Moment;
use std::alloc::Global;

/// What a record says.
#[derive(Clone, Copy, PartialEq, Eq, Debug)]
pub struct Row {
    /// The number of its animal, if it names one.
    pub animal: Option<u32>,
    /// The number of its sensor.
    pub sensor: u32,
    pub told: Told,
}

/// What the records of a table say, in their order.
#[derive(Drop)]
pub struct Ledger {
    /// The names of the animals, numbered from 0 in the order of their first records.
    pub names: IndexSet<Vec<u8>>,
    /// The sensors by their names; that of a record that names none is empty.
    pub sensors: IndexSet<Vec<u8>>,
    /// The moment of the last fix of each animal, in the order of records; none where it has no fix so far.
    pub lasts: Vec<Option<Moment>>,
    pub rows: Vec<Row>,
}

// The number of the animal of a record, if it names one.
fn animal_in(
    alloc: Global,
    names: &mut IndexSet<Vec<u8>>,
    fields: &ByteRecord,
    rules: &Rules<'_, '_>,
) -> Result<Option<u32>, OutOfMemory>
    requires { length (texts names.old) < 4_294_967_296 }
    ensures value { IfOk result (λ animal. animal ≡ animal_in rules.now (texts names.old) (fields_of «fields».now)) }
    ensures names { OnOk result (texts names.new ≡ names_with rules.now (texts names.old) (fields_of «fields».now)) }
{
    match name_in(fields, rules) {
        Some(name) => Ok(Some(number_of(alloc, names, name)? as u32)),
        None => Ok(None),
    }
}

// The moment of the last fix of an animal, if it had one.
fn last_of(lasts: &[Option<Moment>], animal: Option<u32>) -> Option<Moment>
    ensures { result ≡ last_of lasts.now animal }
{
    match animal {
        Some(animal) => lasts.get(animal as usize).copied().unwrap_or(None),
        None => None,
    }
}

// Notes that this is the moment of the last fix of an animal.
fn put_last(
    lasts: &mut Vec<Option<Moment>>,
    animal: usize,
    last: Option<Moment>,
) -> Result<(), OutOfMemory>
    ensures { OnOk result (lasts.new.items ≡ with_last lasts.old.items animal last) }
{
    if animal < lasts.len() {
        lasts[animal] = last;
    } else {
        lasts.push(last)?;
    }
    Ok(())
}

// Notes the moment of the last fix of an animal behind what a record of it says.
fn note_last(
    lasts: &mut Vec<Option<Moment>>,
    animal: Option<u32>,
    told: &Told,
) -> Result<(), OutOfMemory>
    ensures { OnOk result (lasts.new.items ≡ lasts_with lasts.old.items animal told.now) }
{
    let Some(animal) = animal else {
        return Ok(());
    };
    let last = match told {
        Told::Fix(fix) => Some(fix.moment),
        Told::LeftOut(_) => last_of(lasts, Some(animal)),
    };
    put_last(lasts, animal as usize, last)
}

// Puts a row behind others.
fn push_row(rows: &mut Vec<Row>, row: Row) -> Result<(), OutOfMemory>
    ensures { OnOk result (rows.new.items ≡ rows.old.items ++ row ∷ []) }
{
    rows.push(row)?;
    Ok(())
}

// Reads the next record of a table, and says whether there was one.
fn advance(table: &mut Table<'_>) -> Result<bool, ReadingFault>
    ensures takes { IfOk result
        (λ found. TakesRecord table.old.left found table.new.current table.new.left) }
    ensures none { table.old.left ≡ None → IfOk result (λ found. found ≡ false) }
    ensures fault { IfErr result (λ fault. fault ≡ ReadingFault.OutOfMemory) }
{
    match table.advance() {
        Ok(found) => Ok(found),
        Err(_) => Err(ReadingFault::OutOfMemory),
    }
}

// Writes what a record of this number says behind what a ledger has.
fn write_record(
    alloc: Global,
    ledger: &mut Ledger,
    buffer: &mut Vec<u8>,
    fields: &ByteRecord,
    number: u32,
    rules: &Rules<'_, '_>,
) -> Result<(), ReadingFault>
    requires number { 0 < number }
    requires few { IsWithin (number - 1) (written ledger.old) }
    ensures written { OnOk result (Writes rules.now number (written ledger.old) (fields_of «fields».now) (written ledger.new)) }
    ensures fault { IfErr result (IsRowFault rules.now number (written ledger.old) (fields_of «fields».now)) }
{
    let animal = animal_in(alloc, &mut ledger.names, fields, rules)?;
    let when = When {
        number,
        text: time_text(buffer, fields, rules)?,
        before: last_of(&ledger.lasts, animal),
    };
    let told = match told_in(fields, when, rules) {
        Ok(told) => told,
        Err(fault) => {
            return Err(ReadingFault::Record {
                record: number,
                fault,
            });
        }
    };
    note_last(&mut ledger.lasts, animal, &told)?;
    let sensor = number_of(alloc, &mut ledger.sensors, sensor_in(fields, rules))? as u32;
    let row = Row {
        animal,
        sensor,
        told,
    };
    push_row(&mut ledger.rows, row)?;
    Ok(())
}

// Reads the next record into a ledger of so many, and says whether there was one.
fn read_next(
    alloc: Global,
    table: &mut Table<'_>,
    ledger: &mut Ledger,
    buffer: &mut Vec<u8>,
    count: u32,
    rules: &Rules<'_, '_>,
) -> Result<bool, ReadingFault>
    requires few { IsWithin count (written ledger.old) }
    requires timely { AreTimely ledger.old.rows.items }
    ensures timely { OnOk result (AreTimely ledger.new.rows.items) }
    ensures goes_on { IfOk result (λ found. GoesOn rules.now count (written ledger.old) table.old.left found (written ledger.new) table.new.left) }
    ensures fault { IfErr result (λ fault. IfSome table.old.left (IsFaultAt rules.now count (written ledger.old) fault)) }
{
    if !advance(table)? {
        return Ok(false);
    }
    if count == u32::MAX {
        return Err(ReadingFault::TooManyRecords);
    }
    match write_record(alloc, ledger, buffer, table.current(), count + 1, rules) {
        Ok(()) => Ok(true),
        Err(fault) => Err(fault),
    }
}

/// Reads the records of a table that are left, each by the same rules, and tells how far it is.
///
/// # Errors
///
/// A record has a fault, and the first that has one is named; there are too many records; or memory ran out.
pub fn read_records<P: Progress>(
    alloc: Global,
    table: &mut Table<'_>,
    rules: &Rules<'_, '_>,
    progress: &mut P,
) -> Result<Ledger, ReadingFault>
    ensures ledger { IfOk result (λ ledger. IfSome table.old.left (IsLedger rules.now ledger)) }
    ensures timely { IfOk result (λ ledger. AreTimely ledger.rows.items) }
    ensures fault { IfErr result (λ fault. IfSome table.old.left (IsLedgerFault rules.now fault)) }
{
    let mut ledger = Ledger {
        names: IndexSet::new(alloc),
        sensors: IndexSet::new(alloc),
        lasts: Vec::new(alloc),
        rows: Vec::new(alloc),
    };
    let mut buffer = Vec::new(alloc);
    let mut count = 0u32;
    'records: loop {
        match read_next(alloc, table, &mut ledger, &mut buffer, count, rules) {
            Ok(true) => {
                count += 1;
                tell_count(progress, count);
            }
            Ok(false) => return Ok(ledger),
            Err(fault) => return Err(fault),
        }
    }
}
