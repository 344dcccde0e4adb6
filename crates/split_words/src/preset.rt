// The options of a maker's preset.

ghost use Rattle.std.specs.Prelude.{◌≡◌};
ghost use Rattle.split_words.specs.Preset.{value_or, with_preset};

use crate::fault::{WordFault, refused};
use crate::values::push_listed;
use clap::ArgMatches;
use split_refusal::Kind;
use split_titles::{PRESETS, Preset, preset_of};
use std::alloc::{AllocError, Global};

// The values of the options that presets have too.
#[derive(Clone, Copy)]
pub(crate) struct Texts<'a> {
    pub(crate) header: Option<&'a str>,
    pub(crate) animal: Option<&'a str>,
    pub(crate) time: Option<&'a str>,
    pub(crate) time_format: Option<&'a str>,
    pub(crate) lon: Option<&'a str>,
    pub(crate) lat: Option<&'a str>,
    pub(crate) dop: Option<&'a str>,
    pub(crate) fix: Option<&'a str>,
    pub(crate) argos: Option<&'a str>,
    pub(crate) na: Option<&'a str>,
}

// The values that were given.
fn given_texts<'a>(matches: &ArgMatches<'a>) -> Texts<'a> {
    Texts {
        header: matches.get_str("header"),
        animal: matches.get_str("animal"),
        time: matches.get_str("time"),
        time_format: matches.get_str("time-format"),
        lon: matches.get_str("lon"),
        lat: matches.get_str("lat"),
        dop: matches.get_str("dop"),
        fix: matches.get_str("fix"),
        argos: matches.get_str("argos"),
        na: matches.get_str("na"),
    }
}

// A value that was given, or else that of a preset, which is taken or not.
fn value_or<'a>(
    given: Option<&'a str>,
    is_taken: bool,
    of_preset: Option<&'a str>,
) -> Option<&'a str>
    ensures { result ≡ value_or given.entry is_taken of_preset.entry }
{
    if is_taken { given.or(of_preset) } else { given }
}

// The values that were given, and of the others those of a preset: its coordinates not beside a given easting, and its
// forms of times not beside a given time.
fn with_preset<'a>(given: Texts<'a>, has_easting: bool, preset: Preset) -> Texts<'a>
    ensures { result ≡ with_preset given.entry has_easting preset }
{
    Texts {
        header: given.header.or(preset.header),
        animal: given.animal.or(preset.animal),
        time: given.time.or(Some(preset.time)),
        time_format: value_or(given.time_format, given.time.is_none(), preset.time_format),
        lon: value_or(given.lon, !has_easting, Some(preset.lon)),
        lat: value_or(given.lat, !has_easting, Some(preset.lat)),
        dop: given.dop.or(preset.dop),
        fix: given.fix.or(preset.fix),
        argos: given.argos.or(preset.argos),
        na: given.na.or(preset.na),
    }
}

// That there is no such maker, and which there are.
fn maker_text(alloc: Global, maker: &str) -> Result<String, AllocError> {
    let mut text = format!(in alloc; "from: {maker} is none of ")?;
    for (at, preset) in PRESETS.iter().enumerate() {
        push_listed(&mut text, at, preset.maker)?;
    }
    Ok(text)
}

// The values that were given, and where a maker was named, of the others those of its preset.
pub(crate) fn texts_of<'a>(
    alloc: Global,
    matches: &ArgMatches<'a>,
) -> Result<Texts<'a>, WordFault> {
    let given = given_texts(matches);
    let Some(maker) = matches.get_str("from") else {
        return Ok(given);
    };
    match preset_of(maker) {
        Some(preset) => Ok(with_preset(given, matches.get_str("easting").is_some(), preset)),
        None => {
            let words = maker_text(alloc, maker)?;
            Err(refused(alloc, Kind::Option, words.as_str()))
        }
    }
}
