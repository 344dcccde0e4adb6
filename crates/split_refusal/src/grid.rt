// Refusals of fixes that are off the grid.

ghost use Rattle.std.specs.Prelude.{Some};
ghost use Rattle.split_refusal.specs.Refused.{Names};

use crate::kind::Kind;
use crate::push::{push, push_number};
use crate::refusal::{Refusal, Sentence, refusal_of};
use range_plane::{OutOfMemory, Scale};
use std::alloc::{AllocError, Global};

// Appends a coordinate in metres with two decimals.
fn push_metres(text: &mut Vec<u8>, units: i64, unit: Scale) -> Result<(), AllocError> {
    if units < 0 {
        push(text, "-")?;
    }
    let size = units.unsigned_abs();
    match unit {
        Scale::Metre => {
            push_number(text, size)?;
            push(text, ".00")
        }
        Scale::Decimetre => {
            push_number(text, size / 10)?;
            push(text, ".")?;
            push_number(text, size % 10)?;
            push(text, "0")
        }
    }
}

// The greatest coordinate of the grid in metres.
fn limit_in_metres(unit: Scale) -> u64 {
    match unit {
        Scale::Metre => unit.limit().unsigned_abs(),
        Scale::Decimetre => unit.limit().unsigned_abs() / 10,
    }
}

// What is to be done about it.
const REMEDY: &str = ": if the fix is right, make a table of each place, and else leave it out";

// That a place is off the grid.
fn sentence(
    alloc: Global,
    easting: i64,
    northing: i64,
    unit: Scale,
) -> Result<Sentence, OutOfMemory> {
    let mut text = Vec::new(alloc);
    push_metres(&mut text, easting, unit)?;
    push(&mut text, " east and ")?;
    push_metres(&mut text, northing, unit)?;
    push(&mut text, " north is off the grid, which goes from 0 to ")?;
    push_number(&mut text, limit_in_metres(unit))?;
    push(&mut text, " metres")?;
    push(&mut text, REMEDY)?;
    Ok(Sentence {
        kind: Kind::Grid,
        text,
    })
}

/// The refusal of a record whose used fix has no place in the zone into which it is projected.
pub fn refused_no_place(alloc: Global, record: u32) -> Refusal
    ensures { Names (Some «record») result }
{
    let words =
        b"its longitude and latitude have no place in the zone: if the fix is right, make a table of each place, and else leave it out";
    Refusal::new(alloc, Kind::Grid, Some(record), words)
}

/// The refusal of a record whose used fix is off the grid. It is in whole units, not shifted.
pub fn refused_off_grid(
    alloc: Global,
    record: u32,
    easting: i64,
    northing: i64,
    unit: Scale,
) -> Refusal
    ensures { Names (Some «record») result }
{
    refusal_of(
        alloc,
        Some(record),
        sentence(alloc, easting, northing, unit),
    )
}
