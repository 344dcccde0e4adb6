// The columns that options name.

use crate::fault::WordFault;
use crate::preset::Texts;
use crate::values::list_of;
use clap::ArgMatches;
use std::alloc::Global;

/// The titles of columns that options name.
#[derive(Drop)]
pub struct NamedColumns<'a> {
    /// Those of the animal, of which the first that has a text counts; none where it was not named.
    pub animal: Vec<&'a [u8]>,
    /// Those of the time, which are joined by blanks; none where it was not named.
    pub time: Vec<&'a [u8]>,
    pub easting: Option<&'a [u8]>,
    pub northing: Option<&'a [u8]>,
    pub lon: Option<&'a [u8]>,
    pub lat: Option<&'a [u8]>,
    pub argos: Option<&'a [u8]>,
    pub dop: Option<&'a [u8]>,
    pub fix: Option<&'a [u8]>,
}

// The title of a column, as bytes.
fn title_of<'a>(value: Option<&'a str>) -> Option<&'a [u8]> {
    value.map(str::as_bytes)
}

// The title of a column that one option alone reads: that of a preset only where this option is there, and else the one that
// was given, which the table then has to have all the same.
fn title_for<'a>(
    matches: &ArgMatches<'a>,
    option: &str,
    value: Option<&'a str>,
    given: Option<&'a str>,
) -> Option<&'a [u8]> {
    if matches.get_str(option).is_some() {
        title_of(value)
    } else {
        title_of(given)
    }
}

// The columns that options name, with such values of those that presets have.
pub(crate) fn columns_of<'a>(
    alloc: Global,
    matches: &ArgMatches<'a>,
    texts: &Texts<'a>,
) -> Result<NamedColumns<'a>, WordFault> {
    Ok(NamedColumns {
        animal: list_of(alloc, texts.animal)?,
        time: list_of(alloc, texts.time)?,
        easting: title_of(matches.get_str("easting")),
        northing: title_of(matches.get_str("northing")),
        lon: title_of(texts.lon),
        lat: title_of(texts.lat),
        argos: title_of(texts.argos),
        dop: title_for(matches, "max-dop", texts.dop, matches.get_str("dop")),
        fix: title_for(matches, "fix-type", texts.fix, matches.get_str("fix")),
    })
}
