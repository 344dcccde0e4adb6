// From the words of the command line to the status with which the program ends.

use crate::clock::clock_of;
use crate::make::make;
use crate::stop::{Stop, refused_words, tell};
use page_words::{PageWords, WordFault, read_words};
use split_clock::Clock;
use std::alloc::{AllocError, Global};
use std::env::Env;
use std::io::{ErrorKind, Write};
use std::rt::Files;
use std::{env, io};

// Writes the help or the version.
fn reply<W: Write>(alloc: Global, text: &str, out: &mut W) -> Result<(), Stop> {
    if out.write_all(text.as_bytes()).is_ok() && out.flush().is_ok() {
        return Ok(());
    }
    let words = String::from_str(alloc, "standard output cannot be written")?;
    Err(Stop::Output(words))
}

// Why the words of the command line are not there.
fn no_words(alloc: Global, error: &io::Error) -> Stop {
    if error.kind() == ErrorKind::OutOfMemory {
        return Stop::OutOfMemory;
    }
    match String::from_str(alloc, "a word of the command line is not UTF-8") {
        Ok(text) => Stop::Words(text),
        Err(AllocError) => Stop::OutOfMemory,
    }
}

// The words of the command line.
fn command_words<R: Env + AllocGlobal>(rt: &R) -> Result<Vec<String>, Stop> {
    match env::args(rt) {
        Ok(words) => Ok(words.collect(rt.alloc())?),
        Err(error) => Err(no_words(rt.alloc(), &error)),
    }
}

// The clock of the dates of a page; that of UTC where none is made.
fn clock_in<R: Files + AllocGlobal>(
    rt: &R,
    read: &Result<PageWords<'_>, WordFault>,
) -> Result<Clock, Stop> {
    match read {
        Ok(words) => clock_of(rt, words.clock),
        Err(_fault) => Ok(Clock::utc()),
    }
}

// Does what the words ask for, with dates by a clock.
fn done<'a, R: Files + AllocGlobal + Clone + Drop, W: Write>(
    rt: &R,
    read: &'a Result<PageWords<'a>, WordFault>,
    clock: &'a Clock,
    out: &mut W,
) -> Result<(), Stop> {
    match read {
        Ok(words) => make(rt, words, clock),
        Err(WordFault::Help(text) | WordFault::Version(text)) => reply(rt.alloc(), text, out),
        Err(fault) => Err(refused_words(rt.alloc(), fault)),
    }
}

// Does what the words of the environment's command line ask for.
fn obey<R: Files + Env + AllocGlobal + Clone + Drop, W: Write>(
    rt: &R,
    out: &mut W,
) -> Result<(), Stop> {
    let words = command_words(rt)?;
    let read = read_words(rt.alloc(), &words);
    let clock = clock_in(rt, &read)?;
    done(rt, &read, &clock, out)
}

/// Does what the words of the command line ask for, and gives the status with which the program ends: 0 where the tables and the page,
/// the help or the version were written, and else that of the refusal, of which one line on `errors` says why.
pub fn answer<R: Files + Env + AllocGlobal + Clone + Drop, W: Write, X: Write>(
    rt: &R,
    out: &mut W,
    errors: &mut X,
) -> u8 {
    match obey(rt, out) {
        Ok(()) => 0,
        Err(stop) => tell(rt.alloc(), &stop, errors),
    }
}
