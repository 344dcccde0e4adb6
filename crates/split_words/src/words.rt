// What the words of the command line say.

use crate::choices::{Choices, choices_of, read_bounds};
use crate::columns::{NamedColumns, columns_of};
use crate::command::found;
use crate::fault::{WordFault, fault_of, refused};
use crate::given::options_given;
use crate::preset::texts_of;
use crate::text::{TextWords, header_in, text_words};
use crate::times::{forms_in, zone_name_in};
use crate::values::{folder_of, missing_words, name_of, system_in, unit_of, zone_in};
use clap::ArgMatches;
use range_plane::Scale;
use split_clock::Clock;
use split_reading::Zone;
use split_record::OptionGiven;
use split_refusal::Kind;
use split_times::Forms;
use std::alloc::Global;

/// What the words of the command line say.
#[derive(Drop)]
pub struct Words<'a> {
    /// The paths of the exports, one at least, and none twice.
    pub exports: Vec<&'a str>,
    /// The path of the folder to make.
    pub into: &'a str,
    pub unit: Scale,
    /// The zone of all coordinates.
    pub zone: Option<Zone>,
    /// Their reference system, as it was named.
    pub system: Option<&'a str>,
    /// How the text of the export is read.
    pub text: TextWords,
    /// The start of the line of titles.
    pub header: Option<&'a str>,
    pub columns: NamedColumns<'a>,
    /// The forms of times; without them they are ISO texts or seconds.
    pub forms: Option<Forms<'a>>,
    /// The same as they were named; empty where none was.
    pub form_words: &'a str,
    /// The name of the time zone by whose clock times are read that name none.
    pub zone_name: Option<&'a str>,
    /// The name of the one animal.
    pub name: Option<&'a str>,
    /// Words that are missing wherever they stand (`--na`).
    pub missing: Vec<&'a [u8]>,
    /// Whether the user named such words, and not a preset alone.
    pub names_missing: bool,
    /// Which fixes are taken.
    pub choices: Choices<'a>,
    /// Whether fixes that are not used are written too, with a mark (`--mark`).
    pub keeps_marks: bool,
    /// Whether records that name no animal are left out (`--skip-unnamed`).
    pub skips_unnamed: bool,
    /// Whether what became of each record is written too (`--records`).
    pub lists_records: bool,
    /// Each option that was given, but the unit and the folder, in the order of their names.
    pub given: Vec<OptionGiven<'a>>,
}

// Refuses a path that stands twice.
fn refuse_twice(alloc: Global, before: &[&str], path: &str) -> Result<(), WordFault> {
    if !before.iter().any(|other| *other == path) {
        return Ok(());
    }
    match format!(in alloc; "{path} is named twice: name each export once") {
        Ok(words) => Err(refused(alloc, Kind::Option, &words)),
        Err(_) => Err(WordFault::OutOfMemory),
    }
}

// The exports.
fn exports_of<'a>(alloc: Global, matches: &ArgMatches<'a>) -> Result<Vec<&'a str>, WordFault> {
    let Some(paths) = matches.get_strs("EXPORT") else {
        let words = "no export is named: name its file, as by homerange-split export.csv";
        return Err(refused(alloc, Kind::Option, words));
    };
    let mut exports: Vec<&str> = Vec::new(alloc);
    for path in paths {
        refuse_twice(alloc, &exports, path)?;
        exports.push(path)?;
    }
    Ok(exports)
}

// What the matches say.
fn words_in<'a>(alloc: Global, matches: &ArgMatches<'a>) -> Result<Words<'a>, WordFault> {
    let exports = exports_of(alloc, matches)?;
    let unit = unit_of(alloc, matches.get_str("unit"))?;
    let into = folder_of(alloc, matches.get_str("into"))?;
    let texts = texts_of(alloc, matches)?;
    Ok(Words {
        exports,
        unit,
        into,
        name: name_of(alloc, matches.get_str("name"))?,
        zone: zone_in(alloc, matches.get_str("zone"))?,
        system: system_in(alloc, matches.get_str("crs"))?,
        text: text_words(alloc, matches)?,
        header: header_in(alloc, texts.header)?,
        columns: columns_of(alloc, matches, &texts)?,
        forms: forms_in(alloc, texts.time_format, matches.get_str("tz"))?,
        form_words: texts.time_format.unwrap_or(""),
        zone_name: zone_name_in(alloc, matches.get_str("tz"))?,
        missing: missing_words(alloc, texts.na)?,
        names_missing: matches.get_str("na").is_some(),
        choices: choices_of(alloc, matches)?,
        keeps_marks: matches.get_flag("mark"),
        skips_unnamed: matches.get_flag("skip-unnamed"),
        lists_records: matches.get_flag("records"),
        given: options_given(alloc, matches)?,
    })
}

impl<'a> Words<'a> {
    /// The path of the first export.
    pub fn first_export(&self) -> &'a str {
        match self.exports.first() {
            Some(path) => path,
            None => "",
        }
    }

    /// The path of the export, where there is one alone; else nothing.
    pub fn only_export(&self) -> &'a str {
        match self.exports.as_slice() {
            [path] => path,
            _ => "",
        }
    }

    /// The name of the time zone by whose clock times are read that name none.
    pub fn clock_name(&self) -> &'a str {
        self.zone_name.unwrap_or("UTC")
    }

    /// Reads the first and the last second that are wanted (`--since`, `--until`), by the clock of the time zone.
    ///
    /// # Errors
    ///
    /// One is no time of the clock, or the last is before 1970; or memory ran out.
    pub fn read_bounds(&mut self, alloc: Global, clock: &Clock) -> Result<(), WordFault> {
        let zone_name = self.clock_name();
        read_bounds(alloc, &mut self.choices, clock, zone_name)
    }
}

/// Reads the words of the command line, of which the first is the program's name: options, and the exports.
///
/// # Errors
///
/// Help or the version was asked for; the words are not the program's; an option cannot be right; or memory ran out.
pub fn read_words<'a>(alloc: Global, words: &'a [String]) -> Result<Words<'a>, WordFault> {
    match found(alloc, words) {
        Ok(matches) => words_in(alloc, &matches),
        Err(error) => Err(fault_of(alloc, &error)),
    }
}
