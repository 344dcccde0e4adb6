// Which fixes options choose.

use crate::bounds::bound_of;
use crate::fault::{WordFault, refused};
use crate::values::{full_list_of, refused_value};
use clap::ArgMatches;
use split_clock::Clock;
use split_filters::{Filters, class_name, sensor_name};
use split_numbers::trillionths;
use split_pace::{Speed, length_of, speed_of};
use split_refusal::Kind;
use std::alloc::Global;

/// Which fixes options choose.
#[derive(Drop)]
pub struct Choices<'a> {
    /// The sensors; `none` is one, which is empty here.
    pub sensors: Vec<&'a [u8]>,
    /// The Argos classes; `none` is one, which is empty here.
    pub classes: Vec<&'a [u8]>,
    /// The classes, as they were named.
    pub class_words: &'a str,
    /// The types of fixes.
    pub types: Vec<&'a [u8]>,
    /// The types, as they were named.
    pub type_words: &'a str,
    /// The greatest dilution of precision, in trillionths.
    pub most_dop: Option<i64>,
    /// The first second, which is there once the clock is known, and how it was named.
    pub since: Option<u64>,
    pub since_words: Option<&'a str>,
    /// The last second, which is there once the clock is known, and how it was named.
    pub until: Option<u64>,
    pub until_words: Option<&'a str>,
    pub speed: Option<Speed>,
    /// The length of the pieces of time of which first fixes are taken, in seconds.
    pub every: Option<u64>,
}

impl<'a> Choices<'a> {
    /// The filters that look at one fix alone.
    pub fn filters(&self) -> Filters<'_> {
        Filters {
            sensors: &self.sensors,
            classes: &self.classes,
            most_dop: self.most_dop,
            types: &self.types,
            since: self.since,
            until: self.until,
        }
    }

    /// Whether only fixes with a class of Argos are taken.
    pub fn takes_classes(&self) -> bool {
        !self.classes.is_empty() && self.classes.iter().all(|class| !class.is_empty())
    }

    /// The name of an option that needs a time; empty where none was given.
    pub fn needs_time(&self) -> &'static str {
        if self.since_words.is_some() {
            "--since"
        } else if self.until_words.is_some() {
            "--until"
        } else if self.speed.is_some() {
            "--max-speed"
        } else if self.every.is_some() {
            "--every"
        } else {
            ""
        }
    }
}

// A list of words of which `none` is empty.
fn list_with_none<'a>(
    alloc: Global,
    option: &str,
    value: Option<&'a str>,
) -> Result<Vec<&'a [u8]>, WordFault> {
    let mut words = full_list_of(alloc, option, value)?;
    for word in words.iter_mut() {
        if *word == b"none".as_slice() {
            *word = b"";
        }
    }
    Ok(words)
}

// Sensors, by their names.
fn sensors_of<'a>(alloc: Global, value: Option<&'a str>) -> Result<Vec<&'a [u8]>, WordFault> {
    let mut sensors = list_with_none(alloc, "sensor", value)?;
    for sensor in sensors.iter_mut() {
        *sensor = sensor_name(*sensor);
    }
    Ok(sensors)
}

// Classes of Argos, by their names.
fn classes_of<'a>(alloc: Global, value: Option<&'a str>) -> Result<Vec<&'a [u8]>, WordFault> {
    let mut classes = list_with_none(alloc, "argos-class", value)?;
    for class in classes.iter_mut() {
        *class = class_name(*class);
    }
    Ok(classes)
}

// The greatest dilution of precision.
fn dop_of(alloc: Global, value: Option<&str>) -> Result<Option<i64>, WordFault> {
    let Some(text) = value else {
        return Ok(None);
    };
    match trillionths(text.as_bytes(), false) {
        Some(most) if 0 <= most => Ok(Some(most)),
        _ => Err(refused_value(alloc, "max-dop", text, "a number from 0")),
    }
}

// The greatest speed.
fn most_speed(alloc: Global, value: Option<&str>) -> Result<Option<Speed>, WordFault> {
    let Some(text) = value else {
        return Ok(None);
    };
    let wanted = "a number of metres a second from 0 to 1,000,000 with at most six decimals";
    match speed_of(text.as_bytes()) {
        Ok(speed) => Ok(Some(speed)),
        Err(_) => Err(refused_value(alloc, "max-speed", text, wanted)),
    }
}

// The length of pieces of time.
fn piece_length(alloc: Global, value: Option<&str>) -> Result<Option<u64>, WordFault> {
    let Some(text) = value else {
        return Ok(None);
    };
    let wanted = "a whole number of seconds, such as 2h, 30min or 90s";
    match length_of(text.as_bytes()) {
        Ok(length) => Ok(Some(length)),
        Err(_) => Err(refused_value(alloc, "every", text, wanted)),
    }
}

// The bound of a text, if there is one.
fn bound_if(
    alloc: Global,
    text: Option<&str>,
    clock: &Clock,
    is_end: bool,
    zone_name: &str,
) -> Result<Option<u64>, WordFault> {
    match text {
        Some(text) => Ok(Some(bound_of(alloc, text, clock, is_end, zone_name)?)),
        None => Ok(None),
    }
}

// Refuses a first second that is later than the last.
fn refuse_reversed(alloc: Global, choices: &Choices<'_>) -> Result<(), WordFault> {
    match (choices.since, choices.until) {
        (Some(since), Some(until)) if until < since => {
            let first = choices.since_words.unwrap_or("");
            let last = choices.until_words.unwrap_or("");
            let words = format!(in alloc;
                "since is '{first}', which is later than until, '{last}': no fix is of both"
            )?;
            Err(refused(alloc, Kind::Option, words.as_str()))
        }
        _ => Ok(()),
    }
}

// Reads the first and the last second that are named, by the clock of this zone.
pub(crate) fn read_bounds(
    alloc: Global,
    choices: &mut Choices<'_>,
    clock: &Clock,
    zone_name: &str,
) -> Result<(), WordFault> {
    choices.since = bound_if(alloc, choices.since_words, clock, false, zone_name)?;
    choices.until = bound_if(alloc, choices.until_words, clock, true, zone_name)?;
    refuse_reversed(alloc, choices)
}

// Which fixes options choose.
pub(crate) fn choices_of<'a>(
    alloc: Global,
    matches: &ArgMatches<'a>,
) -> Result<Choices<'a>, WordFault> {
    Ok(Choices {
        sensors: sensors_of(alloc, matches.get_str("sensor"))?,
        classes: classes_of(alloc, matches.get_str("argos-class"))?,
        class_words: matches.get_str("argos-class").unwrap_or(""),
        types: full_list_of(alloc, "fix-type", matches.get_str("fix-type"))?,
        type_words: matches.get_str("fix-type").unwrap_or(""),
        most_dop: dop_of(alloc, matches.get_str("max-dop"))?,
        since: None,
        since_words: matches.get_str("since"),
        until: None,
        until_words: matches.get_str("until"),
        speed: most_speed(alloc, matches.get_str("max-speed"))?,
        every: piece_length(alloc, matches.get_str("every"))?,
    })
}
