// Animals that lie far from all others.

use crate::far::push_distance;
use crate::said::Said;
use crate::sheet::units_of_metre;
use crate::tracks::Herd;
use crate::words::{push, push_number};
use range_plane::{OutOfMemory, Scale};
use split_doubts::{Axis, ends, extent_of_track};
use std::alloc::{AllocError, Global};

// How many metres lie between animals that are asked about.
const FAR: u64 = 300_000;

// How many animals are named.
const NAMED: usize = 3;

// From where to where the used fixes of an animal go along an axis.
#[derive(Clone, Copy, PartialEq, Eq, PartialOrd, Ord)]
struct Reach {
    least: i64,
    most: i64,
    animal: u32,
}

// A gap along an axis: how many units it has, and how many animals lie before it.
#[derive(Clone, Copy)]
struct Gap {
    units: u64,
    before: usize,
}

// The reaches of animals along an axis, in their order.
fn reaches_of(alloc: Global, herd: &Herd<'_>, axis: Axis) -> Result<Vec<Reach>, OutOfMemory> {
    let mut reaches = Vec::new(alloc);
    for animal in herd.order {
        if let Some(extent) = extent_of_track(herd.track(*animal)) {
            let (least, most) = ends(axis, &extent);
            reaches.push(Reach {
                least,
                most,
                animal: *animal,
            })?;
        }
    }
    reaches.sort()?;
    Ok(reaches)
}

// The widest gap between reaches in their order.
fn widest_gap(reaches: &[Reach]) -> Gap {
    let mut widest = Gap {
        units: 0,
        before: 0,
    };
    let mut most: Option<i64> = None;
    for (before, reach) in reaches.iter().enumerate() {
        let end = most.unwrap_or(reach.least);
        if end < reach.least && widest.units < reach.least.abs_diff(end) {
            let units = reach.least.abs_diff(end);
            widest = Gap { units, before };
        }
        most = Some(end.max(reach.most));
    }
    widest
}

// The fewer of the animals before a gap and behind it.
fn fewer(reaches: &[Reach], before: usize) -> &[Reach] {
    match reaches.split_at_checked(before) {
        Some((first, last)) if first.len() < last.len() => first,
        Some((_first, last)) => last,
        None => &[],
    }
}

// That animals lie so far from the others.
fn apart_text(
    alloc: Global,
    herd: &Herd<'_>,
    some: &[Reach],
    metres: u64,
) -> Result<Vec<u8>, AllocError> {
    let mut text = Vec::new(alloc);
    for (at, reach) in some.iter().take(NAMED).enumerate() {
        if at > 0 {
            push(&mut text, ", ")?;
        }
        text.extend_from_slice(herd.name(reach.animal))?;
    }
    let more = some.len().saturating_sub(NAMED);
    if more > 0 {
        push(&mut text, " and ")?;
        push_number(&mut text, more)?;
        push(&mut text, " more")?;
    }
    push(&mut text, if some.len() == 1 { " lies " } else { " lie " })?;
    push_distance(&mut text, metres)?;
    push(
        &mut text,
        " from the other animals: are all in one unit and system?",
    )?;
    Ok(text)
}

// The reaches of animals along the axis along which they lie farther apart, and the widest gap between them.
fn farther_apart(alloc: Global, herd: &Herd<'_>) -> Result<(Vec<Reach>, Gap), OutOfMemory> {
    let by_easting = reaches_of(alloc, herd, Axis::Easting)?;
    let by_northing = reaches_of(alloc, herd, Axis::Northing)?;
    let east = widest_gap(&by_easting);
    let north = widest_gap(&by_northing);
    if east.units < north.units {
        Ok((by_northing, north))
    } else {
        Ok((by_easting, east))
    }
}

// Asks about animals that lie far from all others.
pub(crate) fn ask_apart(
    alloc: Global,
    said: &mut Said,
    herd: &Herd<'_>,
    unit: Scale,
) -> Result<(), OutOfMemory> {
    let (reaches, gap) = farther_apart(alloc, herd)?;
    let metres = gap
        .units
        .checked_div(u64::from(units_of_metre(unit)))
        .unwrap_or(0);
    if metres < FAR {
        return Ok(());
    }
    let some = fewer(&reaches, gap.before);
    said.say(alloc, &apart_text(alloc, herd, some, metres)?)
}
