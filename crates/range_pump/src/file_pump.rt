// The thread that reads a file.

ghost use Rattle.std.specs.Prelude.{◌≡◌, ◌≢◌, ◌⊎◌, ◌+◌, ◌<◌, ◌≤◌, [], false, length, Err, Some, Option, IfErr, IfSome, IfOk, MatchBool, OnOk};
ghost use Rattle.range_plane.specs.Fix.{fix_limit};
ghost use Rattle.range_options.specs.Limits.{block_limit};
ghost use Rattle.range_fixes.specs.declared.reader.Stage.TheVariants.{Failed};
ghost use Rattle.range_fixes.specs.Progress.{Reads};
ghost use Rattle.range_fixes.specs.Reading.{Reading, reading_from};
ghost use Rattle.range_line.specs.Messages.{all_fixes};
ghost use Rattle.range_pump.specs.Blocks.{after_block, IsFed};
ghost use Rattle.range_pump.specs.Pump.{IsPumped};

use crate::block::read_block;
use crate::gate::Gate;
use range_fixes::{FixReader, Name, ReadFault};
use range_line::Feeder;
use range_plane::{Fix, Scale};
use std::alloc::{Allocator, Global};
use std::io::Read;
use std::sync::Wait;

/// What a pump gives back.
#[derive(Drop)]
pub struct Pumped<A: Allocator + Clone = Global> {
    pub feeder: Feeder<A>,
    /// The animal's name, or why the file could not be read to its end or handed on.
    pub read: Result<Name, ReadFault>,
}

// The animal's name, of which the reader keeps the bytes.
fn name_of<S: Read + Drop>(alloc: Global, reader: &FixReader<S>) -> Result<Name, ReadFault>
    requires { 0 < reader.now.count }
    ensures name { IfOk result (λ name. reader.now.animal ≡ Some name) }
    ensures refused { IfErr result (λ fault. fault ≡ ReadFault.OutOfMemory) }
{
    match Vec::from_slice(alloc, reader.name().unwrap()) {
        Ok(bytes) => Ok(Name::new(bytes)),
        Err(_) => Err(ReadFault::OutOfMemory),
    }
}

// Sends the fixes as a block, if there are any. `Gone` where they are handed back.
fn send_block<R: Wait, A: Allocator + Clone, G: Gate>(
    rt: &R,
    feeder: &mut Feeder<A>,
    gate: &G,
    fixes: Vec<Fix>,
) -> Result<(), ReadFault>
    requires live { (feeder.old.closed ≡ false) × (feeder.old.ended ≡ false) }
    requires size { length fixes.items ≤ block_limit }
    requires room { length (all_fixes feeder.old.sent) + length fixes.items ≤ fix_limit }
    ensures line { (feeder.new.line ≡ feeder.old.line) × (feeder.new.file ≡ feeder.old.file)
        × (feeder.new.ended ≡ false) }
    ensures sent { OnOk result (feeder.new ≡ after_block feeder.old fixes.items) }
    ensures gone { IfErr result (λ fault. (fault ≡ ReadFault.Gone) × (feeder.new ≡ feeder.old)
        × (0 < length fixes.items)) }
{
    if fixes.is_empty() {
        return Ok(());
    }
    gate.before_send(feeder.file(), feeder.sent_fixes());
    match feeder.send(rt, fixes) {
        Ok(()) => Ok(()),
        Err(_) => Err(ReadFault::Gone),
    }
}

// Sends the fixes of a reader in blocks, and gives the animal's name.
fn send_fixes<R: Wait, S: Read + Drop, A: Allocator + Clone, G: Gate>(
    rt: &R,
    alloc: Global,
    reader: &mut FixReader<S>,
    feeder: &mut Feeder<A>,
    gate: &G,
    block: u32,
) -> Result<Name, ReadFault>
    requires block { (1 ≤ block) × (block ≤ block_limit) }
    requires feeder { (feeder.old.closed ≡ false) × (feeder.old.ended ≡ false)
        × (feeder.old.sent ≡ []) }
    requires reader { reader.old.count ≡ 0 }
    ensures fed { (source : Option Reading) → IfSome source (Reads reader.old)
        → IsFed source block feeder.old feeder.new result }
    ensures told { IfErr result (λ fault. (reader.new.stage ≡ Failed fault)
        ⊎ (fault ≡ ReadFault.OutOfMemory) ⊎ (fault ≡ ReadFault.Gone)) }
{
    loop {
        let (fixes, more) = read_block(alloc, reader, block);
        send_block(rt, feeder, gate, fixes)?;
        if !more? {
            return name_of(alloc, reader);
        }
    }
}

// Whether a block was handed back.
fn is_gone(read: &Result<Name, ReadFault>) -> bool
    ensures { MatchBool result (read.now ≡ Err ReadFault.Gone) (read.now ≢ Err ReadFault.Gone) }
{
    matches!(read, Err(ReadFault::Gone))
}

/// Reads a source with coordinates in this unit and sends its fixes in blocks of `block` fixes, from 1 to
/// [`BLOCK_LIMIT`](range_options::BLOCK_LIMIT), of which the last may have fewer, and then the mark. Takes
/// memory for the reading, for each block and for the name, and waits while the line is full.
///
/// Where the reader has a fault, or memory runs out for a block or the name, that is what `read` says; the
/// fixes before it are sent all the same, and then the mark. After a block that is handed back, `read` is
/// [`Gone`](ReadFault::Gone) and nothing more is sent. A mark that is handed back leaves `read` as it is.
pub fn pump<R: Wait, S: Read + Drop, A: Allocator + Clone, G: Gate>(
    rt: &R,
    alloc: Global,
    source: S,
    mut feeder: Feeder<A>,
    gate: &G,
    block: u32,
    unit: Scale,
) -> Pumped<A>
    requires block { (1 ≤ block) × (block ≤ block_limit) }
    requires feeder { (feeder.closed ≡ false) × (feeder.ended ≡ false) × (feeder.sent ≡ []) }
    ensures { IsPumped (reading_from S.remaining unit source) block
        feeder result.feeder result.read }
{
    let mut reader = FixReader::new(alloc, source, unit);
    let read = send_fixes(rt, alloc, &mut reader, &mut feeder, gate, block);
    if !is_gone(&read) {
        gate.before_send(feeder.file(), feeder.sent_fixes());
        feeder.close(rt);
    }
    Pumped { feeder, read }
}
