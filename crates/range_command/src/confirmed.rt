// Where texts go by the system.

ghost use Rattle.std.specs.Prelude.{◌≡◌, IfErr, None, OnOk, Some};
ghost use Rattle.std.specs.Io.KnownBytes.{Keeps};

use crate::outlet::Outlet;
use std::io::{ErrorKind, Write};
use std::os::fd::AsFd;
use std::rt::Files;
use std::{fs, io};
use std_io::io::last_error;

// The number that Linux gives to a call on a descriptor that is not open.
const BAD_DESCRIPTOR: i32 = 9;

// How often in all a copy of the descriptor is closed, where signals interrupt it.
const TRIES: u32 = 16;

/// An outlet over a descriptor, such as standard output. That it is finished is asked by closing a copy of the
/// descriptor: some file systems tell only then that they had no room. A descriptor that is not open has nothing to
/// tell. A write that takes no byte has failed.
#[derive(Drop)]
pub struct Confirmed<'a, R, W> {
    runtime: &'a R,
    writer: W,
    is_finished: bool,
    failure: Option<io::Error>,
}

impl<'a, R, W> Confirmed<'a, R, W> {
    /// An outlet that has not failed.
    pub fn new(runtime: &'a R, writer: W) -> Confirmed<'a, R, W>
        ensures writer { result.writer ≡ writer }
        ensures failure { result.failure ≡ None }
    {
        Confirmed {
            runtime,
            writer,
            is_finished: false,
            failure: None,
        }
    }

    // Keeps why a call has failed.
    fn note<T>(&mut self, answer: &io::Result<T>)
        ensures writer { self.new.writer ≡ self.old.writer }
        ensures finished { self.new.is_finished ≡ self.old.is_finished }
        ensures failed { IfErr answer.now (λ error. self.new.failure ≡ Some error) }
        ensures kept { OnOk answer.now (self.new.failure ≡ self.old.failure) }
    {
        if let Err(error) = answer {
            self.failure = Some(*error);
        }
    }
}

impl<R: Files, W: Write + AsFd> Outlet for Confirmed<'_, R, W> {
    ghost contents = { λ confirmed. W.contents confirmed.writer };

    ghost is_finished = { λ confirmed. Some confirmed.is_finished };

    ghost last_failure = { λ confirmed. Some confirmed.failure };

    fn put(&mut self, text: &[u8]) -> io::Result<usize> {
        self.is_finished = false;
        let put = match self.writer.write(text) {
            Ok(0) if !text.is_empty() => Err(io::Error::from(ErrorKind::WriteZero)),
            put => put,
        };
        self.note(&put);
        put
    }

    fn finish(&mut self) -> io::Result<()> {
        let finished = ask(self.runtime, &mut self.writer);
        self.is_finished = finished.is_ok();
        self.note(&finished);
        finished
    }

    fn failure(&self) -> Option<io::Error> {
        self.failure
    }
}

// Asks the system, after a flush.
fn ask<R: Files, W: Write + AsFd>(rt: &R, writer: &mut W) -> io::Result<()>
    ensures { Keeps (W.contents writer.old) (W.contents writer.new) }
{
    writer.flush()?;
    confirm(rt, writer)
}

// What the system says where a copy of the descriptor is closed.
fn confirm<R: Files, W: AsFd>(rt: &R, writer: &W) -> io::Result<()> {
    for _ in 1..TRIES {
        match close_copy(rt, writer) {
            Err(error) if error.kind() == ErrorKind::Interrupted => {}
            closed => return closed,
        }
    }
    close_copy(rt, writer)
}

// Closes a copy of the descriptor. What a close answers is lost where a descriptor is dropped, but for the number that
// the system leaves of a call that fails: it is there where another call that fails has left its own before.
fn close_copy<R: Files, W: AsFd>(rt: &R, writer: &W) -> io::Result<()> {
    let copy = match writer.as_fd().try_clone_to_owned() {
        Ok(copy) => copy,
        Err(error) if error.raw_os_error() == Some(BAD_DESCRIPTOR) => return Ok(()),
        Err(error) => return Err(error),
    };
    let Err(before) = fs::metadata(rt, "") else {
        return Ok(());
    };
    drop(copy);
    let after = last_error();
    if after.raw_os_error() == before.raw_os_error() {
        return Ok(());
    }
    Err(after)
}
