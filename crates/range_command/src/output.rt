// Where the program writes.

ghost use Rattle.std.specs.Prelude.{◌≡◌, ◌<◌, IfErr, IfOk, OnErr, OnOk, Some, false, length, true};
ghost use Rattle.std.specs.Io.{WritesAtMost};
ghost use Rattle.std.specs.Io.KnownBytes.{Appends, Keeps, WriteAppends};
ghost use Rattle.range_run.specs.WrittenPrefix.{AppendsPrefix};
ghost use Rattle.range_command.specs.Outlet.{IsIntact, IsKnown, IsSteady};

use crate::outlet::Outlet;
use crate::retry::put_again;
use std::io;
use std::io::{ErrorKind, Write};
use std::marker::Model;

/// A writer over an outlet, which tries again, up to 16 times in all, where a signal interrupts a write.
#[derive(Drop)]
pub struct Output<W> {
    outlet: W,
}

impl<W> Model for Output<W> {
    ghost Value = { W };

    ghost view = { λ o. o.outlet };
}

impl<W> Output<W> {
    pub fn new(outlet: W) -> Output<W>
        ensures { result ≡ outlet }
    {
        Output { outlet }
    }

    /// Where it writes.
    pub fn outlet(&self) -> &W
        ensures { result.now ≡ self.now }
    {
        &self.outlet
    }
}

impl<W: Outlet> Output<W> {
    /// Why the last write, or the last look whether all is out, that failed has failed.
    pub fn failure(&self) -> Option<io::Error>
        ensures { IsKnown result (W.last_failure self.now) }
    {
        self.outlet.failure()
    }

    /// Answers whether all that was written is out: not where a call has failed that no signal interrupted.
    pub(crate) fn finish(&mut self) -> io::Result<()>
        ensures bytes { Keeps (W.contents self.old) (W.contents self.new) }
        ensures finished { OnOk result (IsKnown true (W.is_finished self.new)) }
        ensures failed { IfErr result (λ error. IsKnown (Some error) (W.last_failure self.new)) }
        ensures intact { OnOk result (IsIntact (W.last_failure self.new)) }
        ensures kept { OnOk result (W.last_failure self.new ≡ W.last_failure self.old) }
    {
        match self.outlet.failure() {
            Some(error) if error.kind() != ErrorKind::Interrupted => Err(error),
            _ => self.outlet.finish(),
        }
    }

    /// Writes a text whole, in one write where the outlet takes it.
    pub(crate) fn write_whole(&mut self, text: &[u8]) -> io::Result<()>
        ensures whole { OnOk result (Appends (W.contents self.old) (W.contents self.new) text.now) }
        ensures prefix { OnErr result
            (AppendsPrefix (W.contents self.old) (W.contents self.new) text.now) }
        ensures failed { IfErr result (λ error. IsKnown (Some error) (W.last_failure self.new)) }
        ensures steady { OnOk result (IsSteady (W.last_failure self.old) (W.last_failure self.new)) }
    {
        let mut at = 0;
        while at < text.len() {
            at += self.write(&text[at..])?;
        }
        Ok(())
    }
}

impl<W: Outlet> Write for Output<W> {
    ghost contents = { λ output. W.contents output };

    fn write(&mut self, buf: &[u8]) -> io::Result<usize>
        ensures bound { WritesAtMost result buf.now }
        ensures some { IfOk result (λ n. 0 < length buf.now → 0 < n) }
        ensures bytes { WriteAppends (W.contents self.old) (W.contents self.new) result buf.now }
        ensures unfinished { IsKnown false (W.is_finished self.new) }
        ensures failed { IfErr result (λ error. IsKnown (Some error) (W.last_failure self.new)) }
        ensures steady { OnOk result (IsSteady (W.last_failure self.old) (W.last_failure self.new)) }
    {
        put_again(&mut self.outlet, buf)
    }

    /// Nothing is kept back.
    fn flush(&mut self) -> io::Result<()> {
        Ok(())
    }
}
