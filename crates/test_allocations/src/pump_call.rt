// A pump on a line of one file.

ghost use Rattle.std.specs.Prelude.{◌≡◌, [], false, IfOk};

use crate::files::{FILE_A, end_of};
use range_line::{Feeder, Taker, open_line};
use range_plane::{OutOfMemory, Scale};
use range_pump::{FreeGate, pump};
use std::alloc::Global;
use std::io;
use std::rt::Runtime;
use std::sync::Wait;

// The line holds the mark and all blocks of the file, so that the pump never waits.
const DEPTH: usize = 4;

const BLOCK: u32 = 2;

/// Pumps a file, and prints how its reading ended, how many fixes were sent, and whether the mark was.
pub(crate) fn pump_file<R: Runtime + Wait>(rt: &R, alloc: Global) -> io::Result<()> {
    let Ok((feeder, _taker)) = open(alloc) else {
        return println!(rt; "pump memory");
    };
    let pumped = pump(rt, alloc, FILE_A, feeder, &FreeGate, BLOCK, Scale::Metre);
    let (sent, closed) = (pumped.feeder.sent_fixes(), pumped.feeder.closed());
    println!(rt; "pump {} {sent} {closed}", end_of(pumped.read.err()))
}

// A line of one file.
fn open(alloc: Global) -> Result<(Feeder, Taker), OutOfMemory>
    ensures { IfOk result (λ ends. (ends.0.closed ≡ false) × (ends.0.ended ≡ false)
        × (ends.0.sent ≡ [])) }
{
    let (mut feeders, taker) = open_line(alloc, 0, 1, 1, DEPTH)?;
    match feeders.pop() {
        Some(feeder) => Ok((feeder, taker)),
        None => Err(OutOfMemory),
    }
}
