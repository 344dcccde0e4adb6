// The words that the program knows, and what `clap` finds in those that are given. Its help is written in `help.rt`.

use crate::version::VERSION;
use clap::{Arg, ArgAction, ArgMatches, Command, Error};
use std::alloc::{AllocError, Global};

// An option whose value is any text, which may begin with a hyphen.
fn text_option<'a>(alloc: Global, name: &'a str, value: &'a str) -> Arg<'a> {
    Arg::new(alloc, name)
        .long(name)
        .value_name(value)
        .allow_hyphen_values(true)
}

// An option without a value.
fn flag<'a>(alloc: Global, name: &'a str) -> Arg<'a> {
    Arg::new(alloc, name).long(name).action(ArgAction::SetTrue)
}

// The program with the options of what was typed in.
fn with_words<'a>(alloc: Global, command: Command<'a>) -> Result<Command<'a>, AllocError> {
    command
        .arg(text_option(alloc, "title", "TEXT"))?
        .arg(text_option(alloc, "study", "TEXT"))?
        .arg(text_option(alloc, "species", "TEXT"))?
        .arg(text_option(alloc, "by", "TEXT"))?
        .arg(text_option(alloc, "reference", "TEXT"))?
        .arg(text_option(alloc, "purpose", "TEXT"))?
        .arg(text_option(alloc, "boundary-name", "TEXT"))
}

// The program with its options and the folder.
fn whole_command<'a>(alloc: Global) -> Result<Command<'a>, AllocError> {
    let command = Command::new(alloc, "homerange-page").version(VERSION);
    with_words(alloc, command)?
        .arg(text_option(alloc, "clock", "ZONE"))?
        .arg(text_option(alloc, "system", "TEXT"))?
        .arg(text_option(alloc, "shift", "EAST,NORTH"))?
        .arg(text_option(alloc, "area-difference", "LEAST,MOST"))?
        .arg(text_option(alloc, "made", "DAY"))?
        .arg(text_option(alloc, "program", "TEXT"))?
        .arg(text_option(alloc, "program-sum", "SUM"))?
        .arg(flag(alloc, "alone"))?
        .arg(flag(alloc, "data"))?
        .arg(Arg::new(alloc, "FOLDER").value_name("FOLDER"))
}

// What `clap` finds in the words, of which the first is the program's name.
pub(crate) fn found<'a>(alloc: Global, words: &'a [String]) -> Result<ArgMatches<'a>, Error> {
    let command = whole_command(alloc)?;
    command.try_get_matches_from(words)
}
