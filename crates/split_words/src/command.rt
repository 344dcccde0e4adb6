// The words that the program knows, and what `clap` finds in those that are given. Its help is written in `help.rt`.

use crate::version::VERSION;
use clap::{Arg, ArgAction, ArgMatches, Command, Error};
use std::alloc::{AllocError, Global};

// An option whose value is any text.
fn text_option<'a>(alloc: Global, name: &'a str, value: &'a str) -> Arg<'a> {
    Arg::new(alloc, name).long(name).value_name(value)
}

// An option without a value.
fn flag<'a>(alloc: Global, name: &'a str) -> Arg<'a> {
    Arg::new(alloc, name).long(name).action(ArgAction::SetTrue)
}

// The program with the options of columns.
fn with_columns<'a>(alloc: Global, command: Command<'a>) -> Result<Command<'a>, AllocError> {
    command
        .arg(text_option(alloc, "animal", "COLUMN"))?
        .arg(text_option(alloc, "name", "NAME"))?
        .arg(text_option(alloc, "time", "COLUMN"))?
        .arg(text_option(alloc, "time-format", "FORM"))?
        .arg(text_option(alloc, "tz", "ZONE"))?
        .arg(text_option(alloc, "easting", "COLUMN"))?
        .arg(text_option(alloc, "northing", "COLUMN"))?
        .arg(text_option(alloc, "lon", "COLUMN"))?
        .arg(text_option(alloc, "lat", "COLUMN"))?
        .arg(text_option(alloc, "argos", "COLUMN"))?
        .arg(text_option(alloc, "dop", "COLUMN"))?
        .arg(text_option(alloc, "fix", "COLUMN"))
}

// The program with the options of the text.
fn with_text<'a>(alloc: Global, command: Command<'a>) -> Result<Command<'a>, AllocError> {
    command
        .arg(text_option(alloc, "from", "MAKER"))?
        .arg(text_option(alloc, "encoding", "ENCODING"))?
        .arg(text_option(alloc, "skip-lines", "LINES"))?
        .arg(text_option(alloc, "header", "TITLE"))?
        .arg(text_option(alloc, "na", "WORDS").allow_hyphen_values(true))
}

// The program with the options that choose fixes.
fn with_filters<'a>(alloc: Global, command: Command<'a>) -> Result<Command<'a>, AllocError> {
    command
        .arg(text_option(alloc, "sensor", "SENSORS"))?
        .arg(text_option(alloc, "argos-class", "CLASSES"))?
        .arg(text_option(alloc, "max-dop", "DOP"))?
        .arg(text_option(alloc, "fix-type", "TYPES"))?
        .arg(text_option(alloc, "since", "TIME"))?
        .arg(text_option(alloc, "until", "TIME"))?
        .arg(text_option(alloc, "max-speed", "SPEED"))?
        .arg(text_option(alloc, "every", "LENGTH"))
}

// The exports.
fn exports_argument<'a>(alloc: Global) -> Arg<'a> {
    Arg::new(alloc, "EXPORT")
        .value_name("EXPORT")
        .action(ArgAction::Append)
}

// The program with its options and the exports.
fn whole_command<'a>(alloc: Global) -> Result<Command<'a>, AllocError> {
    let command = Command::new(alloc, "homerange-split")
        .version(VERSION)
        .arg(text_option(alloc, "into", "FOLDER"))?
        .arg(text_option(alloc, "unit", "UNIT"))?
        .arg(text_option(alloc, "zone", "ZONE"))?
        .arg(text_option(alloc, "crs", "SYSTEM"))?;
    let command = with_text(alloc, with_columns(alloc, command)?)?;
    with_filters(alloc, command)?
        .arg(flag(alloc, "mark"))?
        .arg(flag(alloc, "machine"))?
        .arg(flag(alloc, "records"))?
        .arg(flag(alloc, "skip-unnamed"))?
        .arg(exports_argument(alloc))
}

// What `clap` finds in the words, of which the first is the program's name.
pub(crate) fn found<'a>(alloc: Global, words: &'a [String]) -> Result<ArgMatches<'a>, Error> {
    let command = whole_command(alloc)?;
    command.try_get_matches_from(words)
}
