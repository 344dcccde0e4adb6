// A record of tracks, read back.

ghost use Rattle.std.specs.Prelude.{◌≡◌, IfErr, IfOk, Ok, OnOk};
ghost use Rattle.page_record.specs.Reading.{IsFaultOf, IsRefusal, all_read, at_line, kind_in, read, record_of, with_line};

use crate::fault::{LineFault, RecordFault, Wrong};
use crate::fields::{cut, is_utf8};
use crate::kind::{Kind, kind_of, may_follow};
use crate::put::{is_wrong, put_line};
use crate::record::{Record, nothing};
use std::alloc::Global;

// What was read so far.
#[derive(Drop)]
struct Reader {
    // The kind of the last line.
    last: Option<Kind>,
    so_far: Record,
}

// The kind of a line, which may stand behind the last one, and what stands behind the kind.
#[tactic(auto, unfolding(crate::specs::Reading::kind_in))]
fn kind_in(last: Option<Kind>, line: &[u8]) -> Result<(Kind, &[u8]), LineFault>
    ensures found { IfOk result (λ own. kind_in last line.now ≡ Ok (own.0, own.1.now)) }
    ensures fault { IfErr result (IsFaultOf (kind_in last line.now)) }
{
    if !is_utf8(line) {
        return Err(is_wrong(Wrong::NoText));
    }
    let Some((word, text)) = cut(line, b',') else {
        return Err(is_wrong(Wrong::Unknown));
    };
    let Some(kind) = kind_of(word) else {
        return Err(is_wrong(Wrong::Unknown));
    };
    if !may_follow(last, kind) {
        return Err(is_wrong(Wrong::Place));
    }
    Ok((kind, text))
}

// Reads one more line.
#[tactic(auto, unfolding(crate::specs::Reading::with_line))]
fn read_line(alloc: Global, reader: &mut Reader, line: &[u8]) -> Result<(), LineFault>
    ensures found { OnOk result (with_line (reader.old.last, read reader.old.so_far) line.now ≡ Ok (reader.new.last, read reader.new.so_far)) }
    ensures fault { IfErr result (IsFaultOf (with_line (reader.old.last, read reader.old.so_far) line.now)) }
{
    let (kind, text) = kind_in(reader.last, line)?;
    put_line(alloc, &mut reader.so_far, kind, text)?;
    reader.last = Some(kind);
    Ok(())
}

// What was read, where this stands behind the last end of a line, which ends the line before that of this number.
fn finished(reader: Reader, number: usize, last: &[u8]) -> Result<Record, RecordFault>
    ensures found { IfOk result (λ own. all_read number (reader.last, read reader.so_far) last.now ≡ Ok (read own)) }
    ensures fault { IfErr result (IsRefusal (all_read number (reader.last, read reader.so_far) last.now)) }
{
    if !last.is_empty() {
        return Err(RecordFault::Line {
            number,
            wrong: Wrong::Unended,
        });
    }
    match reader.last {
        Some(Kind::Tool) => Ok(reader.so_far),
        _ => Err(RecordFault::Line {
            number,
            wrong: Wrong::Missing,
        }),
    }
}

// That a line of this number is not taken.
fn at_line(number: usize, fault: LineFault) -> RecordFault
    ensures { result ≡ at_line number fault }
{
    match fault {
        LineFault::OutOfMemory => RecordFault::OutOfMemory,
        LineFault::Wrong { wrong } => RecordFault::Line { number, wrong },
    }
}

/// The record of tracks that a text is.
///
/// # Errors
///
/// Something is wrong with a line, or memory ran out.
pub fn read_record(alloc: Global, text: &[u8]) -> Result<Record, RecordFault>
    ensures found { IfOk result (λ own. record_of text.now ≡ Ok (read own)) }
    ensures fault { IfErr result (IsRefusal (record_of text.now)) }
{
    let mut reader = Reader {
        last: None,
        so_far: nothing(alloc),
    };
    let mut rest = text;
    let mut number = 1;
    while let Some((line, behind)) = cut(rest, b'\n') {
        if let Err(fault) = read_line(alloc, &mut reader, line) {
            return Err(at_line(number, fault));
        }
        rest = behind;
        number += 1;
    }
    finished(reader, number, rest)
}
