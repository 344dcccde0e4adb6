// The table of an export, read.

ghost use Rattle.std.specs.Prelude.{◌≡◌, IfErr, IfOk, IfSome, Ok, length};
ghost use Rattle.csv.specs.Records.{fields_of};
ghost use Rattle.split_reading.specs.Cells.{field};
ghost use Rattle.split_table.specs.Table.{IsRefused, table_of};
ghost use Rattle.split_reading.specs.Ledger.{AreTimely};
ghost use Rattle.split_export.specs.Export.{HasTitles, IsColumnsFault, IsExport, IsExportFault, IsLedgerBy, IsOfTable, IsTableFault, bytes_of, has_commas, with_titles};

use crate::asked::Asked;
use crate::rules::{NotTaken, rules_of};
use crate::text::{TextFault, text_fault};
use csv::ByteRecord;
use range_plane::OutOfMemory;
use split_reading::{Ledger, Progress, ReadingFault, read_records};
use split_table::{Table, TableFault, TableText, separator_of, without_mark};
use split_titles::{Columns, TitleFault, find_columns};
use std::alloc::Global;

/// Why an export cannot be read, in the order in which that is asked.
#[derive(Clone, Copy, PartialEq, Eq, Debug)]
pub enum ExportFault<'a> {
    Text(TextFault),
    Table(TableFault),
    Titles(TitleFault<'a>),
    NotTaken(NotTaken),
    Reading(ReadingFault),
}

/// The table of an export, read.
#[derive(Drop)]
pub struct Export<'t> {
    /// The text of which it is, for a second look.
    pub text: TableText<'t>,
    pub titles: Vec<Vec<u8>>,
    pub columns: Columns<Global>,
    pub ledger: Ledger,
}

// The field of a record at a place; one that is not there is empty.
fn field_at(fields: &ByteRecord, place: usize) -> &[u8]
    ensures { result.now ≡ field (fields_of «fields».now) place }
{
    fields.get(place).unwrap_or(b"")
}

// The fields of a record, as texts of their own.
fn own_fields(alloc: Global, fields: &ByteRecord) -> Result<Vec<Vec<u8>>, OutOfMemory>
    ensures { IfOk result (λ own. bytes_of own.items ≡ fields_of «fields».now) }
{
    let mut own = Vec::new(alloc);
    for place in 0..fields.len() {
        own.push(Vec::from_slice(alloc, field_at(fields, place))?)?;
    }
    Ok(own)
}

// The same, where only memory can run out.
pub(crate) fn fields_of(alloc: Global, fields: &ByteRecord) -> Result<Vec<Vec<u8>>, TableFault>
    ensures own { IfOk result (λ own. bytes_of own.items ≡ fields_of «fields».now) }
    ensures fault { IfErr result (λ fault. fault ≡ TableFault.OutOfMemory) }
{
    match own_fields(alloc, fields) {
        Ok(own) => Ok(own),
        Err(_) => Err(TableFault::OutOfMemory),
    }
}

/// The titles of the table of a text.
///
/// # Errors
///
/// Why the text is no table, or that memory ran out.
pub fn titles_of(alloc: Global, text: &[u8]) -> Result<Vec<Vec<u8>>, TableFault>
    ensures titles { IfOk result (λ titles. HasTitles (table_of text.now) titles.items) }
    ensures fault { IfErr result (IsRefused (table_of text.now)) }
{
    let table = match Table::new(alloc, text) {
        Ok(table) => table,
        Err(fault) => return Err(fault),
    };
    fields_of(alloc, table.titles())
}

// The columns of a table with these titles.
fn columns_of<'a>(
    alloc: Global,
    titles: &[Vec<u8>],
    asked: &Asked<'a>,
) -> Result<Columns<Global>, TitleFault<'a>> {
    let mut shown: Vec<&[u8]> = Vec::new(alloc);
    for title in titles {
        shown.push(title.as_slice())?;
    }
    find_columns(alloc, &shown, &asked.named)
}

// The ledger of the records of a table with these titles, by these columns.
fn ledger_by<'b, P: Progress>(
    alloc: Global,
    table: &mut Table<'_>,
    columns: &Columns<Global>,
    titles: &[Vec<u8>],
    has_commas: bool,
    asked: &Asked<'_>,
    progress: &mut P,
) -> Result<Ledger, ExportFault<'b>>
    ensures ledger { IfOk result (λ ledger. IfSome table.old.left (IsLedgerBy columns.now (length titles.now) has_commas asked.now ledger)) }
    ensures timely { IfOk result (λ ledger. AreTimely ledger.rows.items) }
    ensures fault { IfErr result (λ fault. IfSome table.old.left (IsColumnsFault columns.now (length titles.now) has_commas asked.now fault)) }
{
    let rules = match rules_of(columns, titles.len(), has_commas, asked) {
        Ok(rules) => rules,
        Err(fault) => return Err(ExportFault::NotTaken(fault)),
    };
    match read_records(alloc, table, &rules, progress) {
        Ok(ledger) => Ok(ledger),
        Err(fault) => Err(ExportFault::Reading(fault)),
    }
}

/// Whether commas may stand before decimals in the table of a text: they do not part its fields, or did not part those of the texts of which it
/// was made.
pub fn has_commas(text: &[u8], asked: &Asked<'_>) -> bool
    ensures { result ≡ has_commas asked.now text.now }
{
    asked.has_commas || separator_of(without_mark(text)) != b','
}

// Reads the table of a text of which no record was read.
fn read_table<'t, 'a, P: Progress>(
    alloc: Global,
    text: TableText<'t>,
    has_commas: bool,
    table: &mut Table<'_>,
    asked: &Asked<'a>,
    progress: &mut P,
) -> Result<Export<'t>, ExportFault<'a>>
    ensures text { IfOk result (λ export. export.text ≡ text.entry) }
    ensures export { IfOk result (λ export. IfSome table.old.left
        (λ records. IsOfTable asked.now has_commas (with_titles table.old.titles records) export)) }
    ensures fault { IfErr result (λ fault. IfSome table.old.left
        (λ records. IsTableFault asked.now has_commas (with_titles table.old.titles records) fault)) }
{
    let titles = match own_fields(alloc, table.titles()) {
        Ok(titles) => titles,
        Err(_) => return Err(ExportFault::Reading(ReadingFault::OutOfMemory)),
    };
    let columns = match columns_of(alloc, &titles, asked) {
        Ok(columns) => columns,
        Err(fault) => return Err(ExportFault::Titles(fault)),
    };
    match ledger_by(alloc, table, &columns, &titles, has_commas, asked, progress) {
        Ok(ledger) => Ok(Export {
            text,
            titles,
            columns,
            ledger,
        }),
        Err(fault) => Err(fault),
    }
}

/// Reads the table of an export, and tells how far it is.
///
/// # Errors
///
/// Why it cannot be read. Of all records with a fault the first is named.
pub fn read_export<'t, 'a, P: Progress>(
    alloc: Global,
    text: &'t [u8],
    asked: &Asked<'a>,
    progress: &mut P,
) -> Result<Export<'t>, ExportFault<'a>>
    ensures export { IfOk result (IsExport asked.now text.now) }
    ensures fault { IfErr result (IsExportFault asked.now text.now) }
{
    if let Some(fault) = text_fault(text) {
        return Err(ExportFault::Text(fault));
    }
    let own = match TableText::new(text) {
        Ok(own) => own,
        Err(fault) => return Err(ExportFault::Table(fault)),
    };
    let mut table = match own.table(alloc) {
        Ok(table) => table,
        Err(fault) => return Err(ExportFault::Table(fault)),
    };
    let commas = has_commas(text, asked);
    read_table(alloc, own, commas, &mut table, asked, progress)
}
