// Texts of tables as the text of one.

ghost use Rattle.std.specs.Prelude.{IfOk};
ghost use Rattle.split_join.specs.Joined.{IsJoined};

use crate::check::counts_in;
use crate::fault::{JoinFault, fault_of};
use csv::{ByteRecord, Writer, WriterBuilder};
use split_table::{Table, separator_of, without_mark};
use std::alloc::Global;

/// The text of one table.
#[derive(Drop)]
pub struct Joined {
    pub text: Vec<u8>,
    /// How many records each text has in it.
    pub counts: Vec<u32>,
    /// Whether commas may stand before decimals: they did not part the fields of the texts.
    pub has_commas: bool,
}

// Writes a record.
fn write(writer: &mut Writer<Vec<u8>>, record: &ByteRecord) -> Result<(), JoinFault> {
    match writer.write_byte_record(record) {
        Ok(()) => Ok(()),
        Err(_) => Err(JoinFault::OutOfMemory),
    }
}

// The table of a text.
fn table_in<'a>(alloc: Global, bytes: &'a [u8], text: usize) -> Result<Table<'a>, JoinFault> {
    match Table::new(alloc, bytes) {
        Ok(table) => Ok(table),
        Err(fault) => Err(fault_of(text, fault)),
    }
}

// Writes the records of a table behind others, below its titles if it is the first.
fn write_table(
    writer: &mut Writer<Vec<u8>>,
    table: &mut Table<'_>,
    text: usize,
) -> Result<(), JoinFault> {
    if text == 0 {
        write(writer, table.titles())?;
    }
    for _ in 0..u32::MAX {
        match table.advance() {
            Ok(true) => write(writer, table.current())?,
            Ok(false) => return Ok(()),
            Err(fault) => return Err(fault_of(text, fault)),
        }
    }
    Err(JoinFault::TooManyRecords)
}

// What stands between the fields of a text.
fn sign_of(text: &[u8]) -> u8 {
    separator_of(without_mark(text))
}

// Writes the tables of texts whose fields stand between this sign.
fn write_tables(
    alloc: Global,
    writer: &mut Writer<Vec<u8>>,
    texts: &[&[u8]],
    sign: u8,
) -> Result<(), JoinFault> {
    for (text, bytes) in texts.iter().enumerate() {
        let mut table = table_in(alloc, bytes, text)?;
        if sign_of(bytes) != sign {
            return Err(JoinFault::Separator { text });
        }
        write_table(writer, &mut table, text)?;
    }
    Ok(())
}

// The bytes that were written.
fn written(writer: Writer<Vec<u8>>) -> Result<Vec<u8>, JoinFault> {
    match writer.into_inner() {
        Ok(bytes) => Ok(bytes),
        Err(_) => Err(JoinFault::OutOfMemory),
    }
}

// The text of the tables of texts whose fields stand between this sign.
fn text_of_all(alloc: Global, texts: &[&[u8]], sign: u8) -> Result<Vec<u8>, JoinFault> {
    let mut writer = WriterBuilder::new()
        .flexible(true)
        .from_writer(Vec::new(alloc));
    write_tables(alloc, &mut writer, texts, sign)?;
    written(writer)
}

/// Joins texts of tables with the same titles to the text of one, whose fields stand between commas.
///
/// # Errors
///
/// A text is no table, or what stands between its fields is not what does in the first; or, where there is no such text, its titles
/// are not those of the first.
pub fn join(alloc: Global, texts: &[&[u8]]) -> Result<Joined, JoinFault>
    ensures { IfOk result (λ joined. IsJoined texts.now joined.text.items joined.counts.items) }
{
    let sign = sign_of(texts.first().copied().unwrap_or(b""));
    let text = text_of_all(alloc, texts, sign)?;
    let counts = counts_in(alloc, &text, texts)?;
    Ok(Joined {
        text,
        counts,
        has_commas: sign != b',',
    })
}
