// From the words of the command line to the status with which the program ends.

use crate::clock::clock_of;
use crate::command_line::command_words;
use crate::machine::{MACHINE, machine_record};
use crate::run::run;
use crate::screen::Screen;
use crate::stop::{Stop, say, tell};
use split_clock::Clock;
use split_refusal::{Kind, Refusal};
use split_words::{WordFault, Words, read_words};
use std::alloc::Global;
use std::env::Env;
use std::io::{IsTerminal, Read, Write};
use std::rt;
use std::rt::Files;

// Says why there is no folder of an export at this path as a record of CSV, and gives the status of the program.
fn tell_record<X: Write>(alloc: Global, stop: &Stop, export: &str, errors: &mut X) -> u8 {
    let record = machine_record(alloc, stop, export);
    let _ = match &record {
        Some(record) => errors.write_all(record),
        None => errors.write_all(b"memory,,,not enough memory\n"),
    };
    stop.refusal.kind.status()
}

// Whether the words ask for a record of CSV, be they right or not.
fn asks_for_record(words: &[String]) -> bool {
    for word in words {
        if word.as_str() == "--" {
            return false;
        }
        if word.as_str() == MACHINE {
            return true;
        }
    }
    false
}

// The one export that words name which were read; nothing where they name several.
fn export_of<'a>(read: &Result<(Words<'a>, Clock), WordFault>) -> &'a str {
    match read {
        Ok((words, _clock)) => words.only_export(),
        Err(_) => "",
    }
}

// The first line of what `clap` says of words, without the word `error` before it.
fn first_line(text: &str) -> &str {
    let text = text.strip_prefix("error: ").unwrap_or(text);
    match text.split_once('\n') {
        Some((first, _)) => first,
        None => text,
    }
}

// Writes the help or the version.
fn reply<W: Write>(alloc: Global, text: &str, out: &mut W) -> Result<(), Refusal> {
    if out.write_all(text.as_bytes()).is_ok() && out.flush().is_ok() {
        return Ok(());
    }
    let words = b"standard output cannot be written";
    Err(Refusal::new(alloc, Kind::Output, None, words))
}

// The refusal of words by `clap`.
fn bad_words(alloc: Global, text: &str) -> Refusal {
    Refusal::new(alloc, Kind::Option, None, first_line(text).as_bytes())
}

// A refusal once more.
fn copy_of(alloc: Global, refusal: &Refusal) -> Refusal {
    Refusal::new(alloc, refusal.kind, refusal.record, &refusal.text)
}

// Does what words ask for that were read, and answers what is said of it.
fn done<R: Files + rt::Clock + AllocGlobal, I: Read, W: Write, X: Write + IsTerminal>(
    rt: &R,
    read: &Result<(Words<'_>, Clock), WordFault>,
    input: &mut I,
    out: &mut W,
    errors: &mut X,
) -> Result<Vec<Vec<u8>>, Stop> {
    let alloc = rt.alloc();
    match read {
        Ok((words, clock)) => {
            let mut screen = Screen::new(rt, errors);
            let done = run(rt, words, clock, input, &mut screen);
            screen.clear();
            done
        }
        Err(WordFault::Help(text) | WordFault::Version(text)) => {
            reply(alloc, text.as_str(), out)?;
            Ok(Vec::new(alloc))
        }
        Err(WordFault::BadWords(text)) => Err(Stop::from(bad_words(alloc, text.as_str()))),
        Err(WordFault::OutOfMemory) => Err(Stop::from(Refusal::out_of_memory(alloc))),
        Err(WordFault::Refused(refusal)) => Err(Stop::from(copy_of(alloc, refusal))),
    }
}

// What the words say, and the clock by which they have times.
fn read_all<'a, R: Files + AllocGlobal>(
    rt: &R,
    words: &'a [String],
) -> Result<(Words<'a>, Clock), WordFault> {
    let mut read = read_words(rt.alloc(), words)?;
    let clock = match clock_of(rt, read.clock_name()) {
        Ok(clock) => clock,
        Err(refusal) => return Err(WordFault::Refused(refusal)),
    };
    read.read_bounds(rt.alloc(), &clock)?;
    Ok((read, clock))
}

// Does what the words ask for, and says what is said of it.
fn obey<R: Files + rt::Clock + AllocGlobal, I: Read, W: Write, X: Write + IsTerminal>(
    rt: &R,
    words: &[String],
    input: &mut I,
    out: &mut W,
    errors: &mut X,
) -> u8 {
    let alloc = rt.alloc();
    let read = read_all(rt, words);
    match done(rt, &read, input, out, errors) {
        Ok(lines) => {
            for line in lines.iter() {
                say(alloc, line, errors);
            }
            0
        }
        Err(stop) if asks_for_record(words) => {
            tell_record(alloc, &stop, export_of(&read), errors)
        }
        Err(stop) => tell(alloc, &stop, errors),
    }
}

/// Does what the words of the environment's command line ask for, where `-` is an export that is read from `input`, and gives the
/// status with which the program ends: 0 where tracks, the help or the version were written, and else that of the refusal, of which
/// one line on `errors` says why, or with `--machine` one record of CSV. Where `errors` is a terminal it shows how far it is once a
/// second has passed.
pub fn answer<R: Files + rt::Clock + AllocGlobal, E: Env, I: Read, W: Write, X: Write + IsTerminal>(
    rt: &R,
    environment: &E,
    input: &mut I,
    out: &mut W,
    errors: &mut X,
) -> u8 {
    let alloc = rt.alloc();
    match command_words(environment, alloc) {
        Ok(words) => obey(rt, words.as_slice(), input, out, errors),
        Err(refusal) => tell(alloc, &Stop::from(refusal), errors),
    }
}
