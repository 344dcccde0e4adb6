// The columns that were taken, and where and when fixes are used.

use crate::figures::push_thousandths;
use crate::place::push_place;
use crate::said::Said;
use crate::sheet::{Sheet, title_at, units_of_metre};
use crate::span::push_span;
use crate::tracks::Herd;
use crate::words::{push, push_number};
use indexmap::IndexSet;
use range_plane::{OutOfMemory, Scale};
use split_doubts::{Axis, extent_of_tracks, span};
use split_fates::Extent;
use split_reading::Zone;
use split_titles::Pair;
use std::alloc::{AllocError, Global};
use std::num::nearest_u64_to_f64;

// How many kilometres the extent of fixes is wide along an axis; 0 where there are none.
fn kilometres(extent: &Option<Extent>, axis: Axis, unit: Scale) -> f64 {
    let width = match extent {
        Some(extent) => span(axis, extent),
        None => 0,
    };
    nearest_u64_to_f64(width) / f64::from(units_of_metre(unit)) / 1000.0
}

// The titles of a pair of columns behind others.
fn add_pair<'a>(
    titles: &mut IndexSet<&'a [u8]>,
    sheet: &Sheet<'a>,
    pair: Option<Pair>,
) -> Result<(), OutOfMemory> {
    if let Some(pair) = pair {
        let _first = titles.insert(title_at(sheet, pair.first))?;
        let _second = titles.insert(title_at(sheet, pair.second))?;
    }
    Ok(())
}

// The titles of columns behind others.
fn add_columns<'a>(
    titles: &mut IndexSet<&'a [u8]>,
    sheet: &Sheet<'a>,
    columns: &[usize],
) -> Result<(), OutOfMemory> {
    for column in columns {
        let _is_new = titles.insert(title_at(sheet, *column))?;
    }
    Ok(())
}

// The titles of the columns of animals, times and places, each once.
fn titles_taken<'a>(alloc: Global, sheet: &Sheet<'a>) -> Result<IndexSet<&'a [u8]>, OutOfMemory> {
    let mut titles = IndexSet::new(alloc);
    add_columns(&mut titles, sheet, &sheet.columns.animal)?;
    add_columns(&mut titles, sheet, &sheet.columns.time)?;
    add_pair(&mut titles, sheet, sheet.columns.metres)?;
    add_pair(&mut titles, sheet, sheet.columns.degrees)?;
    Ok(titles)
}

// Appends titles, between which commas stand.
fn push_titles(text: &mut Vec<u8>, titles: &IndexSet<&[u8]>) -> Result<(), AllocError> {
    for (at, title) in titles.iter().enumerate() {
        if at > 0 {
            push(text, ", ")?;
        }
        text.extend_from_slice(title)?;
    }
    Ok(())
}

// Appends how wide the extent of the fixes that are used is.
fn push_box(
    alloc: Global,
    text: &mut Vec<u8>,
    herd: &Herd<'_>,
    unit: Scale,
) -> Result<(), AllocError> {
    let extent = extent_of_tracks(herd.tracks);
    push(text, "box ")?;
    push_thousandths(alloc, text, kilometres(&extent, Axis::Easting, unit))?;
    push(text, " by ")?;
    push_thousandths(alloc, text, kilometres(&extent, Axis::Northing, unit))?;
    push(text, " km")
}

// Says which columns were taken, the number of animals, and the extent of the fixes that are used, where they lie, if the zone
// is known, and from when to when they are.
pub(crate) fn tell_columns(
    alloc: Global,
    said: &mut Said,
    sheet: &Sheet<'_>,
    zone: Option<Zone>,
    herd: &Herd<'_>,
) -> Result<(), OutOfMemory> {
    let mut text = Vec::new(alloc);
    push(&mut text, "columns: ")?;
    push_titles(&mut text, &titles_taken(alloc, sheet)?)?;
    push(&mut text, "; ")?;
    push_number(&mut text, herd.order.len())?;
    push(&mut text, " animals, ")?;
    push_box(alloc, &mut text, herd, sheet.unit)?;
    if let Some(zone) = zone {
        push_place(alloc, &mut text, herd, sheet.unit, zone)?;
    }
    push_span(alloc, &mut text, sheet, herd)?;
    said.say(alloc, &text)
}
