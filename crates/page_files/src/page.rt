// The page of a folder.

use crate::beside::are_of_zone;
use crate::drawn::AllDrawn;
use crate::fault::{PageFault, refused};
use crate::given::{Given, Words};
use crate::known::Known;
use crate::told::{lefts_of_all, totals_of, unused_of};
use page_ground::{Differences, differences_of, push_system};
use page_html::{Page, push_page};
use page_map::{Ground, Plane, Shape};
use page_record::{Record, system_of};
use page_sections::Shown;
use split_record::sum_of;
use std::alloc::{AllocError, Global};

// The reference system of coordinates, as it is written.
fn system_text(
    alloc: Global,
    words: &Words,
    record: Option<&Record>,
) -> Result<Vec<u8>, AllocError> {
    let mut text = Vec::new(alloc);
    match (words.system, record) {
        (Some(system), _) => text.extend_from_slice(system)?,
        (None, Some(record)) => push_system(&mut text, record.zone, system_of(record))?,
        (None, None) => push_system(&mut text, None, None)?,
    }
    Ok(text)
}

// How many metres were added to a coordinate, which a record of tracks keeps small.
fn metres(alloc: Global, added: i64) -> Result<i32, PageFault> {
    match i32::try_from(added) {
        Ok(metres) => Ok(metres),
        Err(_greater) => Err(refused(format!(in alloc;
            "tracks/split.txt: a shift of {added} metres is too great"
        ))),
    }
}

// Where whole units of a report lie.
fn plane_of(
    alloc: Global,
    shown: &Shown,
    words: &Words,
    record: Option<&Record>,
) -> Result<Plane, PageFault> {
    let (east, north) = match record {
        Some(record) => (
            metres(alloc, record.shift.0)?,
            metres(alloc, record.shift.1)?,
        ),
        None => words.shift,
    };
    Ok(Plane {
        unit: shown.report.unit,
        east,
        north,
    })
}

// By how much areas on the grid differ from those on the ellipsoid.
fn differences(
    alloc: Global,
    words: &Words,
    record: Option<&Record>,
    plane: Plane,
    shapes: &[Shape],
) -> Result<Option<Differences>, AllocError> {
    if words.differences.is_some() {
        return Ok(words.differences);
    }
    if are_of_zone(alloc, words, record)? {
        return Ok(differences_of(plane, shapes));
    }
    Ok(None)
}

// The page of what is shown.
pub(crate) fn page_of(
    alloc: Global,
    shown: &Shown,
    given: &Given,
    words: &Words,
    record: Option<&Record>,
    known: &Known,
    drawn: &AllDrawn,
    boundary: Option<&[Vec<Ground>]>,
) -> Result<Vec<u8>, PageFault> {
    let plane = plane_of(alloc, shown, words, record)?;
    let system = system_text(alloc, words, record)?;
    let unused = unused_of(alloc, shown.report, known)?;
    let left = lefts_of_all(alloc, shown.report, known)?;
    let sum = sum_of(given.report);
    let page = Page {
        shown: *shown,
        record,
        totals: totals_of(known, &left),
        unused: &unused,
        shapes: &drawn.shapes,
        levels: &drawn.levels,
        has_fixes: drawn.has_fixes,
        plane,
        boundary,
        system: &system,
        differences: differences(alloc, words, record, plane, &drawn.shapes)?,
        report_sum: if words.is_alone { None } else { Some(&sum) },
        words: words.page,
        made: words.made,
    };
    let mut text = Vec::new(alloc);
    push_page(alloc, &mut text, &page)?;
    Ok(text)
}
