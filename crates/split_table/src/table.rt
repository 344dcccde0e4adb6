// A table of text: its titles, and its records in turn. No other file reads by the crate that splits records.

ghost use Rattle.std.specs.Prelude.{◌≡◌, Err, IfErr, IfOk, None, false};
ghost use Rattle.csv.specs.Reading.{records, strip_bom};
ghost use Rattle.csv.specs.Records.{fields_of};
ghost use Rattle.split_table.specs.Quotes.{config_by};
ghost use Rattle.split_table.specs.Table.{IsRefused, IsTable, TakesRecord, has_mark, table_of, titled};

use crate::quotes::quote_fault;
use crate::separator::separator_of;
use csv::{ByteRecord, Error, Reader, ReaderBuilder};
use std::alloc::Global;
use std::marker::Model;

/// Why a text is no table, or a record of it was not read. Records are numbered from 1 below the titles, which are
/// record 0.
#[derive(Clone, Copy, PartialEq, Eq, Debug)]
pub enum TableFault {
    OutOfMemory,
    /// A quote stands inside a field without quotes, or something else than a separator or the end of the line stands
    /// behind the last quote of a field.
    StrayQuote { record: u64 },
    /// A quote has no end.
    OpenQuote { record: u64 },
    /// There is no line that is not blank.
    NoTitles,
}

/// A text whose quotes stand as they have to: it is looked at once, and its table read as often as one likes.
#[derive(Drop)]
pub struct TableText<'a> {
    text: &'a [u8],
    separator: u8,
}

impl<'a> Model for TableText<'a> {
    ghost use Rattle.std.specs.Prelude.{List, ℕ};
    ghost use Rattle.split_table.specs.Table.{HasNoFault};

    ghost Value = { List ℕ };

    ghost view = { λ a. a.text.now };

    ghost invariant = { λ a. HasNoFault a.separator a.text.now };
}

/// The titles of a table, and the records below them that are left.
#[derive(Drop)]
pub struct Table<'a> {
    reader: Reader<&'a [u8]>,
    titles: ByteRecord,
    current: ByteRecord,
}

impl<'a> Model for Table<'a> {
    ghost use Rattle.split_table.specs.TableLeft.{TableLeft};

    ghost Value = { TableLeft };

    ghost use Rattle.split_table.specs.Quotes.{config_by};
    ghost use Rattle.split_table.specs.Table.{IsPlain, table_left};

    ghost view = { λ a. table_left a };

    ghost invariant = { λ a. IsPlain a.reader };
}

// Why a read of a record failed. A text in memory is read without failing, and records of any length as bytes, so only
// memory runs out.
fn fault_of(error: Error) -> TableFault
    ensures { result ≡ TableFault.OutOfMemory }
{
    let _ = error;
    TableFault::OutOfMemory
}

// Whether a text begins with a byte order mark.
fn has_mark(text: &[u8]) -> bool
    ensures { result ≡ has_mark text.now }
{
    text.len() >= 3 && text[0] == 0xEF && text[1] == 0xBB && text[2] == 0xBF
}

/// A text without the byte order mark with which it may begin.
pub fn without_mark(text: &[u8]) -> &[u8]
    ensures { result.now ≡ strip_bom text.entry.now }
{
    if has_mark(text) { &text[3..] } else { text }
}

// The table of a text with fields between such separators, whose quotes stand as they have to.
fn table_with(alloc: Global, text: &[u8], separator: u8) -> Result<Table<'_>, TableFault>
    ensures table { IfOk result (IsTable
        (titled (records (config_by separator) (strip_bom text.entry.now)))) }
    ensures fault { IfErr result (IsRefused
        (titled (records (config_by separator) (strip_bom text.entry.now)))) }
{
    let mut reader = ReaderBuilder::new()
        .delimiter(separator)
        .has_headers(false)
        .flexible(true)
        .from_reader(alloc, text);
    let mut titles = ByteRecord::new(alloc);
    match reader.read_byte_record(&mut titles) {
        Ok(true) => Ok(Table {
            reader,
            titles,
            current: ByteRecord::new(alloc),
        }),
        Ok(false) => Err(TableFault::NoTitles),
        Err(error) => Err(fault_of(error)),
    }
}

impl<'a> TableText<'a> {
    /// A text in UTF-8, where its quotes stand as they have to: as [`Table::new`] says.
    ///
    /// # Errors
    ///
    /// They stand otherwise.
    #[tactic(auto, unfolding(crate::specs::Table::table_of))]
    pub fn new(text: &'a [u8]) -> Result<TableText<'a>, TableFault>
        ensures text { IfOk result (λ own. own ≡ text.entry.now) }
        ensures fault { IfErr result (λ fault. table_of text.entry.now ≡ Err fault) }
    {
        let rest = without_mark(text);
        let separator = separator_of(rest);
        match quote_fault(rest, separator) {
            Some(fault) => Err(fault),
            None => Ok(TableText { text, separator }),
        }
    }

    /// Its bytes.
    pub fn bytes(&self) -> &'a [u8]
        ensures { result.now ≡ self.now }
    {
        self.text
    }

    /// Its table.
    ///
    /// # Errors
    ///
    /// It has no line of titles, or memory ran out.
    #[tactic(auto, unfolding(crate::specs::Table::table_of))]
    pub fn table(&self, alloc: Global) -> Result<Table<'a>, TableFault>
        ensures table { IfOk result (IsTable (table_of self.now)) }
        ensures fault { IfErr result (IsRefused (table_of self.now)) }
    {
        table_with(alloc, self.text, self.separator)
    }
}

impl<'a> Table<'a> {
    /// The table of a text in UTF-8, which may begin with a byte order mark. Fields stand between semicolons, if one stands
    /// before the first comma of the line of titles, between tabs, if that line has neither, or between commas. Lines end
    /// in LF, CRLF or CR, and blank ones are passed over. Fields may stand between quotes, as RFC 4180 has it.
    ///
    /// # Errors
    ///
    /// The quotes of the text stand otherwise, it has no line of titles, or memory ran out.
    pub fn new(alloc: Global, text: &'a [u8]) -> Result<Table<'a>, TableFault>
        ensures table { IfOk result (IsTable (table_of text.entry.now)) }
        ensures fault { IfErr result (IsRefused (table_of text.entry.now)) }
    {
        match TableText::new(text) {
            Ok(text) => text.table(alloc),
            Err(fault) => Err(fault),
        }
    }

    /// The titles.
    pub fn titles(&self) -> &ByteRecord
        ensures { fields_of result.now ≡ self.now.titles }
    {
        &self.titles
    }

    /// Reads the next record, and says whether there was one.
    ///
    /// # Errors
    ///
    /// Memory ran out. Then there are no more records.
    pub fn advance(&mut self) -> Result<bool, TableFault>
        ensures takes { IfOk result
            (λ found. TakesRecord self.old.left found self.new.current self.new.left) }
        ensures titles { self.new.titles ≡ self.old.titles }
        ensures none { self.old.left ≡ None → IfOk result (λ found. found ≡ false) }
        ensures fault { IfErr result (λ fault. fault ≡ TableFault.OutOfMemory) }
    {
        match self.reader.read_byte_record(&mut self.current) {
            Ok(found) => Ok(found),
            Err(error) => Err(fault_of(error)),
        }
    }

    /// The record that was read last.
    pub fn current(&self) -> &ByteRecord
        ensures { fields_of result.now ≡ self.now.current }
    {
        &self.current
    }
}
