// What the words of the command line say.

use crate::command::found;
use crate::fault::{WordFault, fault_of};
use crate::values::{clock_in, day_in, differences_in, shift_in, sum_in};
use clap::ArgMatches;
use page_ground::Differences;
use std::alloc::Global;

/// What the words of the command line say. A text that was given is not empty.
#[derive(Drop)]
pub struct PageWords<'a> {
    /// The path of the folder.
    pub folder: &'a str,
    pub title: Option<&'a str>,
    pub study: Option<&'a str>,
    pub species: Option<&'a str>,
    /// Who made the page.
    pub by: Option<&'a str>,
    /// The number or the name of the case that the page belongs to.
    pub reference: Option<&'a str>,
    /// What the page is for.
    pub purpose: Option<&'a str>,
    /// What the boundary is called.
    pub boundary: Option<&'a str>,
    /// The name of the zone of dates, which is one that a zone may have.
    pub clock: &'a str,
    /// The reference system of coordinates.
    pub system: Option<&'a str>,
    /// How many metres were added to eastings and northings.
    pub shift: (i32, i32),
    /// By how much areas on the grid differ from those on the ellipsoid.
    pub differences: Option<Differences>,
    /// The day of making: a year, a month and a day of it.
    pub made: Option<(u64, u64, u64)>,
    /// What the program that made the report says of its version.
    pub program: &'a str,
    /// Its SHA-256 checksum, in 64 digits.
    pub program_sum: Option<&'a str>,
    /// Whether the page is handed in without its folder.
    pub is_alone: bool,
    /// Whether the export of the record is a table of data in memory, which nobody has.
    pub is_data: bool,
}

// A text that is not empty, if it was given.
fn text_in<'a>(matches: &ArgMatches<'a>, name: &str) -> Option<&'a str> {
    matches.get_str(name).filter(|text| !text.is_empty())
}

// The path of the folder.
fn folder_in<'a>(alloc: Global, matches: &ArgMatches<'a>) -> Result<&'a str, WordFault> {
    match text_in(matches, "FOLDER") {
        Some(folder) => Ok(folder),
        None => {
            let words = "no folder is named: name it, as by homerange-page ranges";
            Err(WordFault::BadValue(String::from_str(alloc, words)?))
        }
    }
}

// What the matches say.
fn words_in<'a>(alloc: Global, matches: &ArgMatches<'a>) -> Result<PageWords<'a>, WordFault> {
    Ok(PageWords {
        folder: folder_in(alloc, matches)?,
        title: text_in(matches, "title"),
        study: text_in(matches, "study"),
        species: text_in(matches, "species"),
        by: text_in(matches, "by"),
        reference: text_in(matches, "reference"),
        purpose: text_in(matches, "purpose"),
        boundary: text_in(matches, "boundary-name"),
        clock: clock_in(alloc, matches.get_str("clock"))?,
        system: text_in(matches, "system"),
        shift: shift_in(alloc, matches.get_str("shift"))?,
        differences: differences_in(alloc, matches.get_str("area-difference"))?,
        made: day_in(alloc, matches.get_str("made"))?,
        program: text_in(matches, "program").unwrap_or("homerange"),
        program_sum: sum_in(alloc, matches.get_str("program-sum"))?,
        is_alone: matches.get_flag("alone"),
        is_data: matches.get_flag("data"),
    })
}

/// Reads the words of the command line, of which the first is the program's name.
///
/// # Errors
///
/// Help or the version was asked for, or the words are not as they have to be, or memory ran out.
pub fn read_words<'a>(alloc: Global, words: &'a [String]) -> Result<PageWords<'a>, WordFault> {
    match found(alloc, words) {
        Ok(matches) => words_in(alloc, &matches),
        Err(error) => Err(fault_of(alloc, &error)),
    }
}
