// A source that gives its bytes, a few at a read, repeats some of them, and fails.

use std::io;
use std::io::Read;

/// For tests alone: gives the bytes of a text, then those of another so many times, and then the rest, at
/// most so many at a read. After so many reads, or where its bytes end, it fails. It tells no bytes.
#[derive(Drop)]
pub struct ScriptedSource<'a> {
    text: &'a [u8],
    again: &'a [u8],
    times: u64,
    rest: &'a [u8],
    most: usize,
    reads: u64,
    // Whether a read fails where the bytes end.
    is_broken_off: bool,
}

impl<'a> ScriptedSource<'a> {
    /// The bytes of a text, at most so many at a read.
    pub fn new(text: &'a [u8], most: usize) -> ScriptedSource<'a> {
        ScriptedSource::repeated(text, b"", 0, b"", most)
    }

    /// The bytes of a text, of another so many times, and of the rest, at most so many at a read.
    pub fn repeated(
        text: &'a [u8],
        again: &'a [u8],
        times: u64,
        rest: &'a [u8],
        most: usize,
    ) -> ScriptedSource<'a> {
        ScriptedSource {
            text,
            again,
            times,
            rest,
            most,
            reads: u64::MAX,
            is_broken_off: false,
        }
    }

    /// The bytes of a text, at most so many at a read. After so many reads each one fails.
    pub fn failing(text: &'a [u8], most: usize, reads: u64) -> ScriptedSource<'a> {
        ScriptedSource {
            text,
            again: b"",
            times: 0,
            rest: b"",
            most,
            reads,
            is_broken_off: false,
        }
    }

    /// The bytes of a text and of another so many times. Where they end, each read fails.
    pub fn broken_off(text: &'a [u8], again: &'a [u8], times: u64) -> ScriptedSource<'a> {
        ScriptedSource {
            is_broken_off: true,
            ..ScriptedSource::repeated(text, again, times, b"", 8192)
        }
    }

    // Where all of a text was given, goes on with the next.
    fn refill(&mut self) {
        if !self.text.is_empty() {
            return;
        }
        if self.times > 0 {
            self.times -= 1;
            self.text = self.again;
        } else {
            self.text = self.rest;
            self.rest = b"";
        }
    }
}

impl Read for ScriptedSource<'_> {
    fn read(&mut self, buf: &mut [u8]) -> io::Result<usize> {
        if self.reads == 0 {
            return Err(io::Error::from(io::ErrorKind::PermissionDenied));
        }
        self.reads -= 1;
        self.refill();
        if self.is_broken_off && self.text.is_empty() {
            return Err(io::Error::from(io::ErrorKind::PermissionDenied));
        }
        let n = self.most.min(buf.len());
        self.text.read(&mut buf[..n])
    }
}
