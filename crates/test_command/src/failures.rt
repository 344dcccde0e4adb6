// Sources and outputs that fail.

use std::io;
use std::io::{Read, Write};
use test_doubles::ScriptedSource;

/// Failures in the middle of calls that succeed.
#[derive(Clone, Copy)]
pub(crate) struct Failures {
    /// How many calls succeed before them.
    pub(crate) before: usize,
    /// How many calls fail, one after the other.
    pub(crate) count: usize,
    /// The number that the system gives to their reason.
    pub(crate) number: i32,
}

impl Failures {
    /// After so many calls one fails, for this reason.
    pub(crate) fn one_after(before: usize, number: i32) -> Failures {
        Failures {
            before,
            count: 1,
            number,
        }
    }

    /// No call fails.
    pub(crate) fn none() -> Failures {
        Failures {
            before: 0,
            count: 0,
            number: 0,
        }
    }

    // What this call comes to.
    fn next(&mut self) -> io::Result<()> {
        if self.before > 0 {
            self.before -= 1;
        } else if self.count > 0 {
            self.count -= 1;
            return Err(io::Error::from_raw_os_error(self.number));
        }
        Ok(())
    }
}

/// A source some of whose reads fail.
#[derive(Drop)]
pub(crate) struct Source<'a> {
    pub(crate) pieces: ScriptedSource<'a>,
    pub(crate) failures: Failures,
}

impl Read for Source<'_> {
    fn read(&mut self, buf: &mut [u8]) -> io::Result<usize> {
        self.failures.next()?;
        self.pieces.read(buf)
    }
}

/// Takes so many bytes at most at a write, fails, may fail to flush, and counts flushes.
#[derive(Drop)]
pub(crate) struct Output {
    pub(crate) held: Vec<u8>,
    pub(crate) most: usize,
    pub(crate) failures: Failures,
    pub(crate) can_flush: bool,
    pub(crate) flushes: u32,
}

impl Output {
    /// An output that holds nothing yet and can be flushed.
    pub(crate) fn new(held: Vec<u8>, most: usize, failures: Failures) -> Output {
        Output {
            held,
            most,
            failures,
            can_flush: true,
            flushes: 0,
        }
    }
}

impl Write for Output {
    fn write(&mut self, buf: &[u8]) -> io::Result<usize> {
        self.failures.next()?;
        let n = self.most.min(buf.len());
        self.held.extend_from_slice(&buf[..n])?;
        Ok(n)
    }

    fn flush(&mut self) -> io::Result<()> {
        self.flushes = self.flushes.saturating_add(1);
        if self.can_flush {
            Ok(())
        } else {
            Err(io::Error::from_raw_os_error(28))
        }
    }
}
