// What the values of options say.

use crate::fault::{WordFault, refused};
use range_plane::Scale;
use split_reading::{System, Zone, code_of, system_with, zone_of};
use split_refusal::{Kind, refused_zone};
use split_titles::trimmed;
use std::alloc::{AllocError, Global};

// What stands for a folder that is not named.
const DEFAULT_FOLDER: &str = "tracks";

// The unit.
pub(crate) fn unit_of(alloc: Global, value: Option<&str>) -> Result<Scale, WordFault> {
    match value {
        None | Some("m") => Ok(Scale::Metre),
        Some("dm") => Ok(Scale::Decimetre),
        Some(text) => {
            let words = format!(in alloc; "--unit: {text} is neither m nor dm")?;
            Err(refused(alloc, Kind::Option, words.as_str()))
        }
    }
}

// The folder to make.
pub(crate) fn folder_of<'a>(alloc: Global, value: Option<&'a str>) -> Result<&'a str, WordFault> {
    let folder = value.unwrap_or(DEFAULT_FOLDER);
    if folder.is_empty() {
        return Err(refused(alloc, Kind::Option, "into: the folder has no name"));
    }
    Ok(folder)
}

// The name of the one animal, if it was given.
pub(crate) fn name_of<'a>(
    alloc: Global,
    value: Option<&'a str>,
) -> Result<Option<&'a str>, WordFault> {
    if value == Some("") {
        let words = "--name: a name without control characters is wanted";
        return Err(refused(alloc, Kind::Option, words));
    }
    Ok(value)
}

// The zone, if it was given. Blanks may stand beside it.
pub(crate) fn zone_in(alloc: Global, value: Option<&str>) -> Result<Option<Zone>, WordFault> {
    let Some(text) = value else {
        return Ok(None);
    };
    match zone_of(text.trim_matches(' ').as_bytes()) {
        Some(zone) => Ok(Some(zone)),
        None => Err(WordFault::Refused(refused_zone(alloc, text.as_bytes()))),
    }
}

// Why a reference system is none of coordinates in metres with true areas, if it is known to be none.
fn fault_of_system(text: &str) -> Option<&'static str> {
    match system_with(code_of(text.as_bytes())?) {
        System::Degrees => Some(
            "has longitude and latitude: --crs is the system of coordinates in metres; longitude and latitude are named by --lon and --lat",
        ),
        System::Mercator => Some(
            "is a projection of Mercator, whose areas are wrong: project coordinates into their zone of UTM first",
        ),
        _ => None,
    }
}

// The reference system, if it was given.
pub(crate) fn system_in<'a>(
    alloc: Global,
    value: Option<&'a str>,
) -> Result<Option<&'a str>, WordFault> {
    let Some(text) = value else {
        return Ok(None);
    };
    match fault_of_system(text) {
        Some(fault) => {
            let words = format!(in alloc; "--crs: {text} {fault}")?;
            Err(refused(alloc, Kind::Option, words.as_str()))
        }
        None => Ok(Some(text)),
    }
}

// The words of a list, between which commas stand, without blanks beside them.
pub(crate) fn list_of<'a>(
    alloc: Global,
    value: Option<&'a str>,
) -> Result<Vec<&'a [u8]>, WordFault> {
    let mut words: Vec<&[u8]> = Vec::new(alloc);
    if let Some(text) = value {
        for word in text.split(',') {
            words.push(trimmed(word.as_bytes()))?;
        }
    }
    Ok(words)
}

// What the value of a list has to be.
const WORDS: &str = "a word, or several with commas between";

// The words of the list of an option, none of which is empty.
pub(crate) fn full_list_of<'a>(
    alloc: Global,
    option: &str,
    value: Option<&'a str>,
) -> Result<Vec<&'a [u8]>, WordFault> {
    let words = list_of(alloc, value)?;
    if words.iter().any(|word| word.is_empty()) {
        return Err(refused_value(alloc, option, value.unwrap_or(""), WORDS));
    }
    Ok(words)
}

// The words for what is missing, one at least. An empty one says nothing more: what is empty is missing.
pub(crate) fn missing_words<'a>(
    alloc: Global,
    value: Option<&'a str>,
) -> Result<Vec<&'a [u8]>, WordFault> {
    match value {
        Some(text) if text.trim().is_empty() => Err(refused_value(alloc, "na", text, WORDS)),
        _ => list_of(alloc, value),
    }
}

// Appends a name to a list of so many.
pub(crate) fn push_listed(text: &mut String, count: usize, name: &str) -> Result<(), AllocError> {
    if count > 0 {
        text.push_str(", ")?;
    }
    text.push_str(name)
}

// The refusal of the value of an option, which has to be something else.
pub(crate) fn refused_value(alloc: Global, option: &str, value: &str, wanted: &str) -> WordFault {
    match format!(in alloc; "{option} is '{value}' and not {wanted}") {
        Ok(words) => refused(alloc, Kind::Option, words.as_str()),
        Err(_) => WordFault::OutOfMemory,
    }
}
