// An outlet over a writer, of which all is known.

ghost use Rattle.std.specs.Prelude.{Some};

use range_command::Outlet;
use std::io;
use std::io::{ErrorKind, Write};

/// An outlet over a writer, which keeps why the last call that failed has failed, and whether all is out.
#[derive(Drop)]
pub(crate) struct Memory<W> {
    pub(crate) writer: W,
    pub(crate) is_finished: bool,
    failure: Option<io::Error>,
}

impl<W> Memory<W> {
    pub(crate) fn new(writer: W) -> Memory<W> {
        Memory {
            writer,
            is_finished: false,
            failure: None,
        }
    }
}

impl<W: Write> Outlet for Memory<W> {
    ghost contents = { λ memory. W.contents memory.writer };

    ghost is_finished = { λ memory. Some memory.is_finished };

    ghost last_failure = { λ memory. Some memory.failure };

    fn put(&mut self, text: &[u8]) -> io::Result<usize> {
        self.is_finished = false;
        let put = match self.writer.write(text) {
            Ok(0) if !text.is_empty() => Err(io::Error::from(ErrorKind::WriteZero)),
            put => put,
        };
        if let Err(error) = &put {
            self.failure = Some(*error);
        }
        put
    }

    fn finish(&mut self) -> io::Result<()> {
        let finished = self.writer.flush();
        self.is_finished = finished.is_ok();
        if let Err(error) = &finished {
            self.failure = Some(*error);
        }
        finished
    }

    fn failure(&self) -> Option<io::Error> {
        self.failure
    }
}
