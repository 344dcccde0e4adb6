// Reads and writes that a signal interrupts are tried again.

ghost use Rattle.std.specs.Prelude.{◌<◌, IfErr, IfOk, OnOk, Some, false, length};
ghost use Rattle.std.specs.Io.{ReadsAtMost, WritesAtMost};
ghost use Rattle.std.specs.Io.KnownBytes.{ReadConsumes, WriteAppends};
ghost use Rattle.range_command.specs.Outlet.{IsKnown, IsSteady};

use crate::outlet::Outlet;
use std::io;
use std::io::Read;

// How often in all a read or a write is tried that signals interrupt.
const TRIES: u32 = 16;

/// One read.
pub(crate) fn read_again<S: Read>(source: &mut S, buf: &mut [u8]) -> io::Result<usize>
    ensures bound { ReadsAtMost result buf.new }
    ensures bytes { ReadConsumes (S.remaining source.old) (S.remaining source.new) result buf.new }
{
    for _ in 1..TRIES {
        match source.read(buf) {
            Err(error) if error.kind() == io::ErrorKind::Interrupted => {}
            given => return given,
        }
    }
    source.read(buf)
}

/// One write.
pub(crate) fn put_again<W: Outlet>(outlet: &mut W, text: &[u8]) -> io::Result<usize>
    ensures bound { WritesAtMost result text.now }
    ensures some { IfOk result (λ n. 0 < length text.now → 0 < n) }
    ensures bytes { WriteAppends (W.contents outlet.old) (W.contents outlet.new) result text.now }
    ensures unfinished { IsKnown false (W.is_finished outlet.new) }
    ensures failed { IfErr result (λ error. IsKnown (Some error) (W.last_failure outlet.new)) }
    ensures steady { OnOk result
        (IsSteady (W.last_failure outlet.old) (W.last_failure outlet.new)) }
{
    for _ in 1..TRIES {
        match outlet.put(text) {
            Err(error) if error.kind() == io::ErrorKind::Interrupted => {}
            put => return put,
        }
    }
    outlet.put(text)
}
