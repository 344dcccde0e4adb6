// The table of an export, or its refusal.

ghost use Rattle.std.specs.Prelude.{◌≡◌, IfErr, IfOk, None, Some};
ghost use Rattle.split_chain.specs.Refused.{IsOfFault, record_of, record_of_reading};
ghost use Rattle.split_export.specs.Export.{IsExport};
ghost use Rattle.split_refusal.specs.Refused.{IsOfKind, IsOfNoFix, Names};
ghost use Rattle.split_times.specs.declared.orders.DayOrders.{DayOrders};

use crate::wish::Wish;
use range_plane::OutOfMemory;
use split_export::{
    Asked, Export, ExportFault, NotTaken, fields_of_record, part_alike, read_export, titles_of,
};
use split_reading::{CellFault, Progress, ReadingFault};
use split_refusal::{
    Kind, RecordShown, Refusal, refused_cell, refused_day, refused_grouped, refused_table,
    refused_text, refused_titles,
};
use split_times::DayOrders;
use split_titles::{Columns, Role, TitleFault, maker_of, trimmed};
use std::alloc::Global;

// Texts, as they are shown.
pub(crate) fn shown<'a>(alloc: Global, texts: &'a [Vec<u8>]) -> Result<Vec<&'a [u8]>, OutOfMemory> {
    let mut all: Vec<&[u8]> = Vec::new(alloc);
    for text in texts {
        all.push(text.as_slice())?;
    }
    Ok(all)
}

// The refusal of titles.
fn title_refusal(alloc: Global, bytes: &[u8], path: &[u8], fault: TitleFault<'_>) -> Refusal
    ensures { Names None result }
{
    let Ok(titles) = titles_of(alloc, bytes) else {
        return Refusal::out_of_memory(alloc);
    };
    match shown(alloc, &titles) {
        Ok(titles) => refused_titles(alloc, fault, &titles, path),
        Err(_) => Refusal::out_of_memory(alloc),
    }
}

// Why a record is refused.
#[derive(Clone, Copy)]
enum RecordFault {
    Cell(CellFault),
    // All numbers of its column of times may be days with hours, in these orders.
    Day(DayOrders),
}

// The refusal of a record, of which this is shown.
fn shown_refusal(alloc: Global, fault: RecordFault, shown: &RecordShown<'_>) -> Refusal
    ensures names { Names (Some shown.now.number) result }
    ensures day { (orders : DayOrders) → fault ≡ RecordFault.Day orders → IsOfKind Kind.Time result }
{
    match fault {
        RecordFault::Cell(fault) => refused_cell(alloc, fault, shown),
        RecordFault::Day(orders) => refused_day(alloc, shown, orders),
    }
}

// The refusal of a record with these titles and fields.
fn fields_refusal<'a>(
    alloc: Global,
    fault: RecordFault,
    number: u32,
    titles: &'a [&'a [u8]],
    fields: &'a [&'a [u8]],
    animal: &'a [usize],
    time: &'a [usize],
    forms: &'a str,
    clock: &'a str,
) -> Refusal
    ensures names { Names (Some number) result }
    ensures day { (orders : DayOrders) → fault ≡ RecordFault.Day orders → IsOfKind Kind.Time result }
{
    let shown = RecordShown {
        number,
        titles,
        fields,
        animal,
        time,
        forms,
        clock,
    };
    shown_refusal(alloc, fault, &shown)
}

// The refusal of a record of a table with such columns.
fn record_refusal(
    alloc: Global,
    bytes: &[u8],
    record: u32,
    fault: RecordFault,
    columns: &Columns<Global>,
    forms: &str,
    clock: &str,
) -> Refusal
    ensures names { Names (Some «record») result }
    ensures day { (orders : DayOrders) → fault ≡ RecordFault.Day orders → IsOfKind Kind.Time result }
{
    let (Ok(titles), Ok(fields)) = (
        titles_of(alloc, bytes),
        fields_of_record(alloc, bytes, record),
    ) else {
        return Refusal::out_of_memory(alloc);
    };
    match (shown(alloc, &titles), shown(alloc, &fields)) {
        (Ok(titles), Ok(fields)) => fields_refusal(
            alloc,
            fault,
            record,
            &titles,
            &fields,
            &columns.animal,
            &columns.time,
            forms,
            clock,
        ),
        _ => Refusal::out_of_memory(alloc),
    }
}

/// The refusal of a record whose time may be a day with hours in one of these orders, as all numbers of its column.
pub(crate) fn day_refusal(
    alloc: Global,
    bytes: &[u8],
    record: u32,
    orders: DayOrders,
    columns: &Columns<Global>,
    wish: &Wish<'_>,
) -> Refusal
    ensures { IsOfNoFix result }
{
    record_refusal(
        alloc,
        bytes,
        record,
        RecordFault::Day(orders),
        columns,
        wish.forms,
        wish.clock_name,
    )
}

/// The refusal of a table without a column of the time, of which one with another title has times.
pub(crate) fn untimed_refusal(alloc: Global, titles: &[Vec<u8>], column: usize) -> Refusal
    ensures { IsOfNoFix result }
{
    let title = match titles.get(column) {
        Some(title) => trimmed(title),
        None => b"",
    };
    let title = str::from_utf8(title).unwrap_or("");
    match format!(in alloc;
        "no column has a usual title for the time, and {title} has times: name it, as by --time '{title}', or leave it out"
    ) {
        Ok(text) => Refusal::new(alloc, Kind::Columns, None, text.as_bytes()),
        Err(_) => Refusal::out_of_memory(alloc),
    }
}

// The columns of a table, once more.
fn columns_again(alloc: Global, bytes: &[u8], asked: &Asked<'_>) -> Option<Columns<Global>> {
    let titles = titles_of(alloc, bytes).ok()?;
    let shown = shown(alloc, &titles).ok()?;
    split_titles::find_columns(alloc, &shown, &asked.named).ok()
}

// The refusal of records.
fn reading_refusal(
    alloc: Global,
    bytes: &[u8],
    fault: ReadingFault,
    asked: &Asked<'_>,
    wish: &Wish<'_>,
) -> Refusal
    ensures { Names (record_of_reading fault) result }
{
    match fault {
        ReadingFault::OutOfMemory => Refusal::out_of_memory(alloc),
        ReadingFault::TooManyRecords => Refusal::new(
            alloc,
            Kind::Unread,
            None,
            b"the table has 4,294,967,296 records or more, which are not read: split it",
        ),
        ReadingFault::Record { record, fault } => match columns_again(alloc, bytes, asked) {
            Some(columns) => record_refusal(
                alloc,
                bytes,
                record,
                RecordFault::Cell(fault),
                &columns,
                wish.forms,
                wish.clock_name,
            ),
            None => Refusal::out_of_memory(alloc),
        },
    }
}

// That an option needs a time, and no column has it.
fn refused_no_time(alloc: Global, option: &str) -> Refusal
    ensures { Names None result }
{
    match format!(in alloc;
        "{option}: no column has a usual title for the time: name it, as by --time COLUMN"
    ) {
        Ok(text) => Refusal::new(alloc, Kind::Option, None, text.as_bytes()),
        Err(_) => Refusal::out_of_memory(alloc),
    }
}

// That the columns are those of a maker.
fn refused_maker(alloc: Global, maker: &str) -> Refusal
    ensures none { Names None result }
    ensures no_fix { IsOfNoFix result }
{
    match format!(in alloc; "the columns are those of {maker}: read them by --from {maker}") {
        Ok(text) => Refusal::new(alloc, Kind::Columns, None, text.as_bytes()),
        Err(_) => Refusal::out_of_memory(alloc),
    }
}

// The maker whose columns a table has.
fn maker_in(alloc: Global, bytes: &[u8]) -> Option<&'static str> {
    let titles = titles_of(alloc, bytes).ok()?;
    maker_of(&shown(alloc, &titles).ok()?)
}

// The refusal of titles none of which is a usual one of coordinates: they may be those of a maker.
fn refused_no_coordinates(alloc: Global, bytes: &[u8], path: &[u8], asked: &Asked<'_>) -> Refusal
    ensures { Names None result }
{
    let is_named = asked.named.lon.is_some() || asked.named.easting.is_some();
    match maker_in(alloc, bytes) {
        Some(maker) if !is_named => refused_maker(alloc, maker),
        _ => title_refusal(alloc, bytes, path, TitleFault::NoCoordinates),
    }
}

// The refusal of an export.
fn export_refusal(
    alloc: Global,
    bytes: &[u8],
    path: &[u8],
    asked: &Asked<'_>,
    wish: &Wish<'_>,
    fault: ExportFault<'_>,
) -> Refusal
    ensures { Names (record_of fault.entry) result }
{
    match fault {
        ExportFault::Text(fault) => refused_text(alloc, fault, path),
        ExportFault::Table(fault) => refused_table(alloc, fault, path),
        ExportFault::Titles(TitleFault::NoCoordinates) => {
            refused_no_coordinates(alloc, bytes, path, asked)
        }
        ExportFault::Titles(fault) => title_refusal(alloc, bytes, path, fault),
        ExportFault::NotTaken(NotTaken::NoTime) => refused_no_time(alloc, wish.needs_time),
        ExportFault::Reading(fault) => reading_refusal(alloc, bytes, fault, asked, wish),
    }
}

/// The refusal of a number whose sign may stand before thousands, in a record and a column.
pub(crate) fn grouped_refusal(alloc: Global, bytes: &[u8], record: u32, column: usize) -> Refusal
    ensures { IsOfNoFix result }
{
    let (Ok(titles), Ok(fields)) = (
        titles_of(alloc, bytes),
        fields_of_record(alloc, bytes, record),
    ) else {
        return Refusal::out_of_memory(alloc);
    };
    match (shown(alloc, &titles), shown(alloc, &fields)) {
        (Ok(titles), Ok(fields)) => refused_grouped(alloc, record, &titles, &fields, column),
        _ => Refusal::out_of_memory(alloc),
    }
}

/// Refuses the table of a maker none of whose columns is named, and no title of the time is a usual one.
///
/// # Errors
///
/// It is one, or memory ran out.
pub(crate) fn refuse_maker(
    alloc: Global,
    asked: &Asked<'_>,
    export: &Export<'_>,
) -> Result<(), Refusal>
    ensures { IfErr result IsOfNoFix }
{
    let named = &asked.named;
    if !export.columns.time.is_empty() || named.lon.is_some() || named.easting.is_some() {
        return Ok(());
    }
    let Ok(titles) = shown(alloc, &export.titles) else {
        return Err(Refusal::out_of_memory(alloc));
    };
    match maker_of(&titles) {
        Some(maker) => Err(refused_maker(alloc, maker)),
        None => Ok(()),
    }
}

/// Reads the table of an export, and tells how far it is.
///
/// # Errors
///
/// Why it is refused.
pub(crate) fn read<'t, P: Progress>(
    alloc: Global,
    bytes: &'t [u8],
    path: &[u8],
    asked: &Asked<'_>,
    wish: &Wish<'_>,
    progress: &mut P,
) -> Result<Export<'t>, Refusal>
    ensures export { IfOk result (IsExport asked.now bytes.now) }
    ensures fault { IfErr result (IsOfFault asked.now bytes.now) }
{
    match read_export(alloc, bytes, asked, progress) {
        Ok(export) => Ok(export),
        Err(fault) => Err(export_refusal(alloc, bytes, path, asked, wish, fault)),
    }
}

/// Refuses two columns of animals that part the records otherwise than each other.
///
/// # Errors
///
/// That there are such columns, or that memory ran out.
pub(crate) fn refuse_other_animals(
    alloc: Global,
    bytes: &[u8],
    path: &[u8],
    export: &Export<'_>,
) -> Result<(), Refusal>
    ensures { IfErr result IsOfNoFix }
{
    let [taken] = export.columns.animal.as_slice() else {
        return Ok(());
    };
    let count = export.ledger.rows.len();
    for other in export.columns.other_animals.iter() {
        match part_alike(alloc, &export.text, count, *taken, *other) {
            Ok(true) => {}
            Ok(false) => {
                let fault = TitleFault::OneRole {
                    first: (*taken).min(*other),
                    second: (*taken).max(*other),
                    role: Role::Animal,
                };
                return Err(title_refusal(alloc, bytes, path, fault));
            }
            Err(_) => return Err(Refusal::out_of_memory(alloc)),
        }
    }
    Ok(())
}
