// What a file is read through, and why a read failed.

ghost use Rattle.std.specs.Prelude.{◌≡◌};

use crate::retry::read_again;
use std::io;
use std::io::Read;
use std::sync::atomic::{AtomicI32, Ordering};

/// A source that tries a read again where a signal interrupts it, and that leaves the number that the system
/// gives to the reason of a failed read where it is found after the source has gone to a thread.
#[derive(Drop)]
pub(crate) struct Source<'a, S> {
    source: S,
    failure: &'a AtomicI32,
}

impl<'a, S> Source<'a, S> {
    pub(crate) fn new(source: S, failure: &'a AtomicI32) -> Source<'a, S>
        ensures { result.source ≡ source }
    {
        Source { source, failure }
    }
}

impl<S: Read> Read for Source<'_, S> {
    ghost remaining = { λ source. S.remaining source.source };

    fn read(&mut self, buf: &mut [u8]) -> io::Result<usize> {
        let given = read_again(&mut self.source, buf);
        if let Err(error) = &given {
            let number = error.raw_os_error().unwrap_or(0);
            self.failure.store(number, Ordering::Relaxed);
        }
        given
    }
}
