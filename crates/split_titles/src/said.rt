// What the titles of columns that are read say of units, sides, axes and clocks is what they are read in, or refused.

use crate::axes::other_axis_said;
use crate::clocks::{ClockSaid, clock_said, is_of_utc, is_other_clock};
use crate::columns::{Columns, Pair};
use crate::fault::TitleFault;
use crate::named::{Named, Role};
use crate::sentences::title_at;
use crate::sides::side_said;
use crate::units::unit_said;
use std::alloc::Allocator;

// Refuses a column of coordinates whose title says another side, beside the other one of the two.
fn refuse_side<'a>(
    titles: &[&[u8]],
    at: usize,
    other: usize,
    role: Role,
) -> Result<(), TitleFault<'a>> {
    match side_said(title_at(titles, at), title_at(titles, other), role) {
        Some(_) => Err(TitleFault::OtherSide { at, other, role }),
        None => Ok(()),
    }
}

// Refuses two columns of coordinates of which one says another side.
fn refuse_sides<'a>(
    titles: &[&[u8]],
    pair: Option<Pair>,
    first: Role,
    second: Role,
) -> Result<(), TitleFault<'a>> {
    let Some(pair) = pair else {
        return Ok(());
    };
    refuse_side(titles, pair.first, pair.second, first)?;
    refuse_side(titles, pair.second, pair.first, second)
}

// Refuses two columns of coordinates of which one says the other.
fn refuse_axes<'a>(
    titles: &[&[u8]],
    pair: Option<Pair>,
    first: Role,
    second: Role,
) -> Result<(), TitleFault<'a>> {
    let Some(pair) = pair else {
        return Ok(());
    };
    if other_axis_said(title_at(titles, pair.first), first).is_some() {
        return Err(TitleFault::OtherAxis {
            at: pair.first,
            role: first,
        });
    }
    if other_axis_said(title_at(titles, pair.second), second).is_some() {
        return Err(TitleFault::OtherAxis {
            at: pair.second,
            role: second,
        });
    }
    Ok(())
}

// Refuses a column of coordinates whose title says another unit.
fn refuse_unit<'a>(titles: &[&[u8]], at: usize, is_metres: bool) -> Result<(), TitleFault<'a>> {
    match unit_said(title_at(titles, at), is_metres) {
        Some(_) => Err(TitleFault::OtherUnit { at, is_metres }),
        None => Ok(()),
    }
}

// Refuses two columns of coordinates of which one says another unit.
fn refuse_units<'a>(
    titles: &[&[u8]],
    pair: Option<Pair>,
    is_metres: bool,
) -> Result<(), TitleFault<'a>> {
    let Some(pair) = pair else {
        return Ok(());
    };
    refuse_unit(titles, pair.first, is_metres)?;
    refuse_unit(titles, pair.second, is_metres)
}

/// What a text says of the clock of times, against the zone by which they are read.
#[derive(Clone, Copy, PartialEq, Eq, Debug)]
pub enum ClockDoubt {
    /// Another clock than that of UTC, where no zone was named.
    Local,
    /// Another clock than that of the zone that was named.
    Other,
    /// The clock of UTC, where another zone was named.
    Utc,
}

/// What a title, or another text beside times, says of their clock against the zone that was named, or that of UTC where none was.
pub fn clock_doubt(text: &[u8], zone: Option<&[u8]>) -> Option<ClockDoubt> {
    match (clock_said(text), zone) {
        (ClockSaid::Local(_), None) => Some(ClockDoubt::Local),
        (ClockSaid::Local(word), Some(zone)) if is_other_clock(word, zone) => {
            Some(ClockDoubt::Other)
        }
        (ClockSaid::Utc(_), Some(zone)) if !is_of_utc(zone) => Some(ClockDoubt::Utc),
        _ => None,
    }
}

// Refuses a column of the time whose title says another clock than the one by which it is read.
fn refuse_clock<'a>(
    titles: &[&[u8]],
    at: usize,
    zone: Option<&'a [u8]>,
) -> Result<(), TitleFault<'a>> {
    match (clock_doubt(title_at(titles, at), zone), zone) {
        (Some(ClockDoubt::Local), _) => Err(TitleFault::LocalTime { at }),
        (Some(ClockDoubt::Other), Some(zone)) => Err(TitleFault::OtherClock { at, zone }),
        (Some(ClockDoubt::Utc), Some(zone)) => Err(TitleFault::UtcTime { at, zone }),
        _ => Ok(()),
    }
}

// Refuses columns of the time of which one says another clock.
fn refuse_clocks<'a>(
    titles: &[&[u8]],
    time: &[usize],
    zone: Option<&'a [u8]>,
) -> Result<(), TitleFault<'a>> {
    for at in time {
        refuse_clock(titles, *at, zone)?;
    }
    Ok(())
}

// Refuses the first column that is read in another unit, to another side, along another axis, or by another clock, than its title says.
pub(crate) fn refuse_said<'a, A: Allocator>(
    titles: &[&[u8]],
    named: &Named<'a>,
    columns: &Columns<A>,
) -> Result<(), TitleFault<'a>> {
    refuse_sides(titles, columns.metres, Role::Easting, Role::Northing)?;
    refuse_sides(titles, columns.degrees, Role::Longitude, Role::Latitude)?;
    refuse_units(titles, columns.metres, true)?;
    refuse_units(titles, columns.degrees, false)?;
    refuse_axes(titles, columns.metres, Role::Easting, Role::Northing)?;
    refuse_axes(titles, columns.degrees, Role::Longitude, Role::Latitude)?;
    refuse_clocks(titles, &columns.time, named.zone)
}
