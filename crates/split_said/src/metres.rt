// Coordinates that can hardly be metres.

use crate::figures::{push_grouped, push_metres};
use crate::said::Said;
use crate::sheet::units_of_metre;
use crate::stop::{Stop, refused};
use crate::tracks::Herd;
use crate::words::{push, push_decimal};
use range_plane::{OutOfMemory, Scale};
use split_doubts::{
    Axis, LEAST_FIXES, ends, extent_of_track, extent_of_tracks, great_axis, is_small_box, span,
};
use split_fates::Extent;
use split_refusal::Kind;
use split_tracks::Entry;
use std::alloc::{AllocError, Global};

// How many fixes of a track are used.
fn used_of_track(track: &[Entry]) -> usize {
    track.iter().filter(|entry| entry.is_used).count()
}

// How many fixes of all animals are used.
fn used_count(herd: &Herd<'_>) -> usize {
    let mut count = 0usize;
    for animal in herd.order {
        count = count.saturating_add(used_of_track(herd.track(*animal)));
    }
    count
}

// What the coordinates of an axis are called.
fn called(axis: Axis) -> &'static str {
    match axis {
        Axis::Easting => "eastings",
        Axis::Northing => "northings",
    }
}

// That coordinates of an axis are too great.
fn great_text(
    alloc: Global,
    axis: Axis,
    extent: &Extent,
    unit: Scale,
) -> Result<Vec<u8>, AllocError> {
    let (least, most) = ends(axis, extent);
    let mut text = Vec::new(alloc);
    push(&mut text, called(axis))?;
    push(&mut text, " go from ")?;
    push_metres(&mut text, least, unit)?;
    push(&mut text, " to ")?;
    push_metres(&mut text, most, unit)?;
    push(&mut text, ", more than 100,000 km: are they in metres?")?;
    Ok(text)
}

// How many units boxes are wide at most.
#[derive(Clone, Copy)]
struct Spans {
    easting: u64,
    northing: u64,
}

// How wide a box is.
fn spans_of(extent: &Extent) -> Spans {
    Spans {
        easting: span(Axis::Easting, extent),
        northing: span(Axis::Northing, extent),
    }
}

// How wide boxes are at most, with one more.
fn widest(spans: Option<Spans>, more: Spans) -> Spans {
    match spans {
        Some(own) => Spans {
            easting: own.easting.max(more.easting),
            northing: own.northing.max(more.northing),
        },
        None => more,
    }
}

// How wide the boxes of animals are at most, of those that have 10 used fixes or more; none where no animal has, or where one of
// these boxes is not small.
fn widest_small(herd: &Herd<'_>, unit: Scale) -> Option<Spans> {
    let mut spans: Option<Spans> = None;
    for animal in herd.order {
        let track = herd.track(*animal);
        let fixes = used_of_track(track);
        if fixes < LEAST_FIXES {
            continue;
        }
        let extent = extent_of_track(track)?;
        if !is_small_box(fixes, &extent, unit) {
            return None;
        }
        spans = Some(widest(spans, spans_of(&extent)));
    }
    spans
}

// Appends that fixes lie within a box that is so wide.
fn push_within(text: &mut Vec<u8>, spans: Spans, unit: Scale) -> Result<(), AllocError> {
    let units = u64::from(units_of_metre(unit));
    push(text, " lie within ")?;
    push_decimal(text, spans.easting, units)?;
    push(text, " by ")?;
    push_decimal(text, spans.northing, units)?;
    push(text, " m: are they in metres?")
}

// That all of so many fixes lie within a small box.
fn small_text(
    alloc: Global,
    fixes: usize,
    spans: Spans,
    unit: Scale,
) -> Result<Vec<u8>, AllocError> {
    let mut text = Vec::new(alloc);
    push(&mut text, "all ")?;
    push_grouped(&mut text, fixes as u64)?;
    push(&mut text, " fixes")?;
    push_within(&mut text, spans, unit)?;
    Ok(text)
}

// That those of each animal do, of those that have fixes enough to tell.
fn each_small_text(alloc: Global, spans: Spans, unit: Scale) -> Result<Vec<u8>, AllocError> {
    let mut text = Vec::new(alloc);
    push(&mut text, "the fixes of each animal that has ")?;
    push_grouped(&mut text, LEAST_FIXES as u64)?;
    push(&mut text, " or more")?;
    push_within(&mut text, spans, unit)?;
    Ok(text)
}

// Asks about fixes that all lie within a small box, or else about a herd each of whose animals does.
fn ask_small(
    alloc: Global,
    said: &mut Said,
    herd: &Herd<'_>,
    extent: &Extent,
    unit: Scale,
) -> Result<(), OutOfMemory> {
    let fixes = used_count(herd);
    if is_small_box(fixes, extent, unit) {
        return said.say(alloc, &small_text(alloc, fixes, spans_of(extent), unit)?);
    }
    match widest_small(herd, unit) {
        Some(spans) => said.say(alloc, &each_small_text(alloc, spans, unit)?),
        None => Ok(()),
    }
}

// Refuses coordinates that are too great for metres, and asks about fixes that lie within small boxes.
pub(crate) fn check_metres(
    alloc: Global,
    said: &mut Said,
    herd: &Herd<'_>,
    unit: Scale,
) -> Result<(), Stop> {
    let Some(extent) = extent_of_tracks(herd.tracks) else {
        return Ok(());
    };
    if let Some(axis) = great_axis(&extent, unit) {
        let text = great_text(alloc, axis, &extent, unit);
        return Err(refused(alloc, Kind::Grid, None, text));
    }
    ask_small(alloc, said, herd, &extent, unit)?;
    Ok(())
}
