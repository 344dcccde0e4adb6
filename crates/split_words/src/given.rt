// The options that were given, as the record of tracks has them.

use clap::ArgMatches;
use split_record::OptionGiven;
use std::alloc::{AllocFailed, Global};

// The options but the folder and the unit, in the order of their names.
const NAMES: [&str; 29] = [
    "animal",
    "argos",
    "argos-class",
    "crs",
    "dop",
    "easting",
    "encoding",
    "every",
    "fix",
    "fix-type",
    "from",
    "header",
    "lat",
    "lon",
    "mark",
    "max-dop",
    "max-speed",
    "na",
    "name",
    "northing",
    "sensor",
    "since",
    "skip-lines",
    "skip-unnamed",
    "time",
    "time-format",
    "tz",
    "until",
    "zone",
];

// Whether an option has no value.
fn is_flag(name: &str) -> bool {
    name == "mark" || name == "skip-unnamed"
}

// Appends an option that has a value, if it was given.
fn push_value<'a>(
    given: &mut Vec<OptionGiven<'a>>,
    name: &'a str,
    value: Option<&'a str>,
) -> Result<(), AllocFailed<OptionGiven<'a>>> {
    match value {
        Some(value) => given.push(OptionGiven {
            name: name.as_bytes(),
            value: Some(value.as_bytes()),
        }),
        None => Ok(()),
    }
}

// Appends an option without a value, if it was given.
fn push_flag<'a>(
    given: &mut Vec<OptionGiven<'a>>,
    name: &'a str,
    is_given: bool,
) -> Result<(), AllocFailed<OptionGiven<'a>>> {
    if is_given {
        given.push(OptionGiven {
            name: name.as_bytes(),
            value: None,
        })
    } else {
        Ok(())
    }
}

// The number of lines that are skipped, without zeros before it; none where it is 0.
fn line_count(text: &str) -> Option<&str> {
    let digits = text.trim_start_matches('0');
    if digits.is_empty() {
        None
    } else {
        Some(digits)
    }
}

// The value of an option, as the record has it.
fn value_of<'a>(name: &str, value: Option<&'a str>) -> Option<&'a str> {
    match value {
        Some(text) if name == "skip-lines" => line_count(text),
        _ => value,
    }
}

// The options that were given, but the folder and the unit, in the order of their names.
pub(crate) fn options_given<'a>(
    alloc: Global,
    matches: &ArgMatches<'a>,
) -> Result<Vec<OptionGiven<'a>>, AllocFailed<OptionGiven<'a>>> {
    let mut given = Vec::new(alloc);
    for name in NAMES {
        if is_flag(name) {
            push_flag(&mut given, name, matches.get_flag(name))?;
        } else {
            push_value(&mut given, name, value_of(name, matches.get_str(name)))?;
        }
    }
    Ok(given)
}
