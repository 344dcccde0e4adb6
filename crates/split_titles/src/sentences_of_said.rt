// The sentences in which a table is refused for what a title says of units, sides, axes and clocks.

use crate::axes::other_axis_said;
use crate::clocks::{ClockSaid, clock_said, is_loose, is_of_offset, is_zone, whole_hours};
use crate::named::Role;
use crate::sentences::{push, push_column, title_at};
use crate::sides::side_said;
use crate::units::{known_unit, unit_said};
use std::alloc::{AllocError, Allocator};

// Appends that a column says a word.
fn push_says<A: Allocator>(
    text: &mut Vec<u8, A>,
    titles: &[&[u8]],
    at: usize,
    word: &[u8],
) -> Result<(), AllocError> {
    push_column(text, titles, at)?;
    push(text, " says ")?;
    text.extend_from_slice(word)
}

// Appends that a word is not known as the unit of coordinates.
fn push_unknown_unit<A: Allocator>(
    text: &mut Vec<u8, A>,
    is_metres: bool,
) -> Result<(), AllocError> {
    if is_metres {
        push(
            text,
            ", which is not known as metres: if its numbers are in metres, rename the column, and else write metres",
        )
    } else {
        push(
            text,
            ", which is not known as degrees: if its numbers are in degrees with decimals, rename the column, and else write these",
        )
    }
}

// Appends that a column of coordinates says another unit.
pub(crate) fn push_unit<A: Allocator>(
    text: &mut Vec<u8, A>,
    titles: &[&[u8]],
    at: usize,
    is_metres: bool,
) -> Result<(), AllocError> {
    let title = title_at(titles, at);
    push_says(text, titles, at, unit_said(title, is_metres).unwrap_or(b""))?;
    if known_unit(title, is_metres).is_none() {
        push_unknown_unit(text, is_metres)
    } else if is_metres {
        push(
            text,
            ", and coordinates are in metres: write metres, and rename the column",
        )
    } else {
        push(
            text,
            ", and longitude and latitude are in degrees: write degrees with decimals, and rename the column",
        )
    }
}

// What coordinates of a role are called, and to which side they are counted.
fn counted(role: Role) -> (&'static str, &'static str) {
    match role {
        Role::Longitude => ("longitudes", "east"),
        Role::Latitude => ("latitudes", "north"),
        Role::Northing => ("northings", "north"),
        _ => ("eastings", "east"),
    }
}

// Appends that a column of coordinates says another side.
pub(crate) fn push_side<A: Allocator>(
    text: &mut Vec<u8, A>,
    titles: &[&[u8]],
    at: usize,
    other: usize,
    role: Role,
) -> Result<(), AllocError> {
    let word = side_said(title_at(titles, at), title_at(titles, other), role).unwrap_or(b"");
    let (coordinates, side) = counted(role);
    push_says(text, titles, at, word)?;
    push(text, ", and ")?;
    push(text, coordinates)?;
    push(text, " are counted to the ")?;
    push(text, side)?;
    push(
        text,
        ": turn the signs of its numbers, unless they are counted so already, and rename the column",
    )
}

// Appends that a column of coordinates says the other one of the two.
pub(crate) fn push_axis<A: Allocator>(
    text: &mut Vec<u8, A>,
    titles: &[&[u8]],
    at: usize,
    role: Role,
) -> Result<(), AllocError> {
    let word = other_axis_said(title_at(titles, at), role).unwrap_or(b"");
    push_says(text, titles, at, word)?;
    push(text, ", and is named as ")?;
    push(text, role.words())?;
    push(
        text,
        ": name the two columns the other way round, or rename this one",
    )
}

// Appends that its zone is to be named: the one that a word names, or that of its offset of whole hours, or else one as an example,
// but none for another offset.
fn push_zone<A: Allocator>(
    text: &mut Vec<u8, A>,
    whose: &str,
    word: &[u8],
) -> Result<(), AllocError> {
    let hours = whole_hours(word);
    if hours.is_none() && is_of_offset(word) {
        return push(text, ": name a zone of that offset, by --tz");
    }
    push(text, ": name ")?;
    push(text, whose)?;
    push(text, " zone, as by --tz ")?;
    match hours {
        _ if is_zone(word) => text.extend_from_slice(word),
        Some((is_ahead, hours)) => {
            push(text, if is_ahead { "Etc/GMT-" } else { "Etc/GMT+" })?;
            text.extend_from_slice(hours)
        }
        None => push(text, "Europe/Ljubljana"),
    }
}

// Appends that a column of the time says a clock other than that of UTC.
pub(crate) fn push_local<A: Allocator>(
    text: &mut Vec<u8, A>,
    titles: &[&[u8]],
    at: usize,
) -> Result<(), AllocError> {
    let word = match clock_said(title_at(titles, at)) {
        ClockSaid::Local(word) => word,
        _ => b"",
    };
    push_says(text, titles, at, word)?;
    push(text, ", and without --tz times are those of UTC")?;
    push_zone(text, "their", word)?;
    if is_loose(title_at(titles, at)) {
        push(text, ", or rename the column")?;
    }
    Ok(())
}

// Appends that a column of the time says another clock than that of a zone.
pub(crate) fn push_other_clock<A: Allocator>(
    text: &mut Vec<u8, A>,
    titles: &[&[u8]],
    at: usize,
    zone: &[u8],
) -> Result<(), AllocError> {
    let word = match clock_said(title_at(titles, at)) {
        ClockSaid::Local(word) => word,
        _ => b"",
    };
    push_says(text, titles, at, word)?;
    push(text, ", and --tz is ")?;
    text.extend_from_slice(zone)?;
    push_zone(text, "its own", word)?;
    push(text, ", or rename the column")
}

// Appends that a column of the time says the clock of UTC, beside another zone.
pub(crate) fn push_utc<A: Allocator>(
    text: &mut Vec<u8, A>,
    titles: &[&[u8]],
    at: usize,
    zone: &[u8],
) -> Result<(), AllocError> {
    let word = match clock_said(title_at(titles, at)) {
        ClockSaid::Utc(word) => word,
        _ => b"",
    };
    push_says(text, titles, at, word)?;
    push(text, ", and --tz is ")?;
    text.extend_from_slice(zone)?;
    push(text, ": leave --tz out, or rename the column")
}
