// What the words of the command line say.

ghost use Rattle.std.specs.Prelude.{◌≡◌, ◌≤◌, [], IfErr, IfOk, Some, codes, length, map, string_bytes, unwrap_or};
ghost use Rattle.clap.specs.Words.{first_of, found_of, kind_of, rows_of};
ghost use Rattle.range_options.specs.Limits.{block_limit, depth_limit, file_limit, worker_limit};
ghost use Rattle.range_words.specs.FaultText.{word_text};
ghost use Rattle.range_words.specs.CommandLine.{HasNumber, files_in, option_number, unit_in};
ghost use Rattle.range_words.specs.WordList.{AreFrom, AreWordsOf, IsFilesRefusal, IsRefusal, IsRefusalOf, SpeaksFor};

use crate::command::found;
use crate::defaults::{
    DEFAULT_BLOCK, DEFAULT_DEPTH, DEFAULT_LEVELS, DEFAULT_UNIT, DEFAULT_WORKERS,
};
use crate::help::{make_help, make_version};
use crate::level::{LevelFault, levels};
use clap::error::ErrorKind;
use clap::{ArgMatches, Error};
use range_options::{BLOCK_LIMIT, DEPTH_LIMIT, FILE_LIMIT, Levels, Options, Plan, WORKER_LIMIT};
use range_plane::Scale;
use std::alloc::{AllocError, Global};
use std::fmt;
use thiserror::Error as ErrorText;

/// What the words of the command line say.
#[derive(Drop)]
pub struct Words {
    /// The paths of the files; none stands for standard input.
    pub files: Vec<String>,
    pub options: Options,
}

/// Why the words of the command line are refused.
#[derive(Debug, Drop, ErrorText)]
pub enum WordFault {
    /// An allocation failed.
    OutOfMemory,
    /// Help was asked for. This is its text.
    Help(String),
    /// The version was asked for. This is its text.
    Version(String),
    /// The words are not the program's: an option that it does not have, or has not in this form, a number
    /// outside its range, or another unit than `m` and `dm`. This says so in several lines, as `clap` does.
    BadWords(String),
    /// There are more files than [`FILE_LIMIT`].
    TooManyFiles,
    /// The levels are no list of levels.
    BadLevels(LevelFault),
}

impl fmt::Display for WordFault {
    ghost output = { λ fault. Some (word_text fault) };

    fn fmt<W: fmt::Write>(&self, f: &mut fmt::Formatter<W>) -> fmt::Result {
        match self {
            WordFault::OutOfMemory => write!(f, "out of memory"),
            WordFault::Help(text) | WordFault::Version(text) | WordFault::BadWords(text) => {
                f.write_str(text.as_str())
            }
            WordFault::TooManyFiles => write!(
                f,
                "more than {FILE_LIMIT} files; MORE FILES in the manual page says how to run more"
            ),
            WordFault::BadLevels(fault) => write!(f, "--percent: {fault}"),
        }
    }
}

/// Reads the words of the command line, of which the first is the program's name: options, and at most
/// [`FILE_LIMIT`] files.
pub fn read_words(alloc: Global, words: &[String]) -> Result<Words, WordFault>
    ensures ok { IfOk result (AreWordsOf (map string_bytes words.now)) }
    ensures err { IfErr result (IsRefusalOf (map string_bytes words.now)) }
{
    match found(alloc, words) {
        Ok(matches) => words_in(alloc, &matches),
        Err(error) => Err(refusal(alloc, &error)),
    }
}

// What the matches say.
fn words_in(alloc: Global, matches: &ArgMatches) -> Result<Words, WordFault>
    requires block { HasNumber (codes "block") block_limit matches.now }
    requires depth { HasNumber (codes "depth") depth_limit matches.now }
    requires workers { HasNumber (codes "workers") worker_limit matches.now }
    ensures ok { IfOk result (AreFrom (rows_of (found_of matches.now))) }
    ensures err { IfErr result (IsRefusal [] (rows_of (found_of matches.now))) }
{
    let unit = unit_of(alloc, matches)?;
    let files = files_of(alloc, matches)?;
    let list = text_of(matches, "percent", DEFAULT_LEVELS);
    let percents = match levels(alloc, list.as_bytes()) {
        Ok(percents) => percents,
        Err(LevelFault::OutOfMemory) => return Err(WordFault::OutOfMemory),
        Err(fault) => return Err(WordFault::BadLevels(fault)),
    };
    let levels = Levels::new(percents).unwrap();
    let plan = Plan {
        block: number_of(matches, "block", BLOCK_LIMIT, DEFAULT_BLOCK),
        depth: number_of(matches, "depth", DEPTH_LIMIT, DEFAULT_DEPTH),
        workers: number_of(matches, "workers", WORKER_LIMIT, DEFAULT_WORKERS),
        unit,
    };
    let options = Options { levels, plan };
    Ok(Words { files, options })
}

// What a refusal by `clap` comes to.
fn refusal(alloc: Global, error: &Error) -> WordFault
    ensures { SpeaksFor (kind_of error.now) result }
{
    let told = match error.kind() {
        ErrorKind::OutOfMemory => Err(AllocError),
        ErrorKind::DisplayHelp => make_help(alloc).map(WordFault::Help),
        ErrorKind::DisplayVersion => make_version(alloc).map(WordFault::Version),
        _ => error.to_string(alloc).map(WordFault::BadWords),
    };
    told.unwrap_or(WordFault::OutOfMemory)
}

// The paths of the files.
fn files_of(alloc: Global, matches: &ArgMatches) -> Result<Vec<String>, WordFault>
    ensures files { IfOk result (λ files. map string_bytes files.items
        ≡ files_in (rows_of (found_of matches.now))) }
    ensures few { IfOk result (λ files. length files.items ≤ file_limit) }
    ensures err { IfErr result (IsFilesRefusal (rows_of (found_of matches.now))) }
{
    let Some(paths) = matches.get_strs("FILE") else {
        return Ok(Vec::new(alloc));
    };
    if paths.len() > FILE_LIMIT as usize {
        return Err(WordFault::TooManyFiles);
    }
    match copied(alloc, paths) {
        Ok(files) => Ok(files),
        Err(_) => Err(WordFault::OutOfMemory),
    }
}

// Copies of the texts.
fn copied(alloc: Global, texts: &[&str]) -> Result<Vec<String>, AllocError>
    ensures { IfOk result (λ copies. map string_bytes copies.items
        ≡ map (λ text. text.now) texts.now) }
{
    let mut copies = Vec::new(alloc);
    for text in texts {
        copies.push(String::from_str(alloc, text)?)?;
    }
    Ok(copies)
}

// The text of an option, or what stands for it.
fn text_of<'a>(matches: &ArgMatches<'a>, name: &str, default: &'a str) -> &'a str
    ensures { result.now ≡ unwrap_or
        (first_of name.now (rows_of (found_of matches.now))) default.now }
{
    matches.get_str(name).unwrap_or(default)
}

// The unit.
fn unit_of(alloc: Global, matches: &ArgMatches) -> Result<Scale, WordFault>
    ensures unit { IfOk result (λ unit. unit_in (rows_of (found_of matches.now)) ≡ Some unit) }
    ensures err { IfErr result (IsRefusal [] (rows_of (found_of matches.now))) }
{
    let text = text_of(matches, "unit", DEFAULT_UNIT);
    if text == "m" {
        return Ok(Scale::Metre);
    }
    if text == "dm" {
        return Ok(Scale::Decimetre);
    }
    match format!(in alloc;
        "error: invalid value '{text}' for '--unit <UNIT>': {text} is neither m nor dm\n\nFor more information, try '--help'.\n"
    ) {
        Ok(text) => Err(WordFault::BadWords(text)),
        Err(_) => Err(WordFault::OutOfMemory),
    }
}

// The number of an option, or what stands for it.
fn number_of(matches: &ArgMatches, name: &str, limit: u32, default: u32) -> u32
    requires passed { HasNumber name.now limit matches.now }
    requires default { (1 ≤ default) × (default ≤ limit) }
    ensures value { result ≡ option_number name.now default (rows_of (found_of matches.now)) }
    ensures limits { (1 ≤ result) × (result ≤ limit) }
{
    matches.get_one::<u32>(name).unwrap_or(default)
}
