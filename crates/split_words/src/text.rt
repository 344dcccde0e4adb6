// How the text of an export is read.

use crate::fault::{WordFault, refused};
use crate::values::{push_listed, refused_value};
use clap::ArgMatches;
use split_encoding::{Encoding, encoding_of};
use split_refusal::Kind;
use split_titles::GPX;
use std::alloc::{AllocError, Global};

/// How the text of an export is read.
#[derive(Clone, Copy, PartialEq, Eq, Debug)]
pub struct TextWords {
    pub encoding: Encoding,
    /// Whether it is GPX.
    pub is_gpx: bool,
    /// How many lines stand before that of titles.
    pub skipped: usize,
}

// That there is no such encoding, and which there are.
fn encoding_text(alloc: Global, name: &str) -> Result<String, AllocError> {
    let mut text = format!(in alloc; "encoding: {name} is none of ")?;
    for (at, encoding) in Encoding::ALL.iter().enumerate() {
        push_listed(&mut text, at, encoding.name())?;
    }
    Ok(text)
}

// The encoding.
fn encoding_in(alloc: Global, value: Option<&str>) -> Result<Encoding, WordFault> {
    let Some(name) = value else {
        return Ok(Encoding::Utf8);
    };
    match encoding_of(name.as_bytes()) {
        Some(encoding) => Ok(encoding),
        None => {
            let words = encoding_text(alloc, name)?;
            Err(refused(alloc, Kind::Option, words.as_str()))
        }
    }
}

// Options of texts with a line of titles.
const OF_TITLES: [&str; 3] = ["encoding", "header", "skip-lines"];

// Options of columns that track points of GPX do not have.
const OF_COLUMNS: [&str; 7] = [
    "argos",
    "argos-class",
    "dop",
    "fix",
    "fix-type",
    "max-dop",
    "sensor",
];

// Refuses options of columns that GPX does not have.
fn refuse_columns_of_gpx(alloc: Global, matches: &ArgMatches<'_>) -> Result<(), WordFault> {
    for option in OF_COLUMNS {
        if matches.get_str(option).is_some() {
            let words = format!(in alloc;
                "--{option} is for a column, which track points of GPX do not have: leave it out beside --from gpx"
            )?;
            return Err(refused(alloc, Kind::Option, words.as_str()));
        }
    }
    Ok(())
}

// Refuses options that GPX does not have: it says its encoding itself.
fn refuse_beside_gpx(alloc: Global, matches: &ArgMatches<'_>) -> Result<(), WordFault> {
    for option in OF_TITLES {
        if matches.get_str(option).is_some() {
            let words = format!(in alloc;
                "--{option} is for texts with a line of titles, and not for GPX: leave it out beside --from gpx"
            )?;
            return Err(refused(alloc, Kind::Option, words.as_str()));
        }
    }
    Ok(())
}

// Whether the text is GPX.
fn is_gpx(alloc: Global, matches: &ArgMatches<'_>) -> Result<bool, WordFault> {
    let is_gpx = matches.get_str("from") == Some(GPX);
    if is_gpx {
        refuse_beside_gpx(alloc, matches)?;
        refuse_columns_of_gpx(alloc, matches)?;
    }
    Ok(is_gpx)
}

// The greatest number of lines that may be skipped.
const MOST_SKIPPED: usize = (1 << 40) - 1;

// How many lines stand before that of titles.
fn skipped_of(alloc: Global, value: Option<&str>) -> Result<usize, WordFault> {
    let Some(text) = value else {
        return Ok(0);
    };
    match text.parse::<usize>() {
        Ok(count) if count <= MOST_SKIPPED && text.bytes().all(|byte| byte.is_ascii_digit()) => Ok(
            count,
        ),
        _ => Err(refused_value(alloc, "skip-lines", text, "a number from 0")),
    }
}

// The start of the line of titles, if it was named.
pub(crate) fn header_in<'a>(
    alloc: Global,
    value: Option<&'a str>,
) -> Result<Option<&'a str>, WordFault> {
    if value == Some("") {
        let words =
            "--header: the start of the line of titles is wanted, such as 'Acquisition Time'";
        return Err(refused(alloc, Kind::Option, words));
    }
    Ok(value)
}

// How the text of an export is read.
pub(crate) fn text_words(alloc: Global, matches: &ArgMatches<'_>) -> Result<TextWords, WordFault> {
    Ok(TextWords {
        encoding: encoding_in(alloc, matches.get_str("encoding"))?,
        is_gpx: is_gpx(alloc, matches)?,
        skipped: skipped_of(alloc, matches.get_str("skip-lines"))?,
    })
}
