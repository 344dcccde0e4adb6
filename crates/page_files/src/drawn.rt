// What is drawn of each animal.

use crate::fault::{PageFault, track_fault};
use crate::given::Track;
use crate::tracks::tracks_of;
use page_levels::levels_of;
use page_map::Shape;
use page_report::{ReadAnimal, Report};
use page_sections::falling_levels;
use range_plane::Point;
use std::alloc::{AllocError, Global};

// The level of the polygon of all fixes.
const ALL: u8 = 100;

// What is drawn of all animals: shapes, for these levels from the highest on, and whether fixes are among them.
#[derive(Drop)]
pub(crate) struct AllDrawn {
    pub shapes: Vec<Shape>,
    pub levels: Vec<u8>,
    pub has_fixes: bool,
}

// The number of the animal at a place, counted from 1.
fn number_at(place: usize) -> u32 {
    match u32::try_from(place) {
        Ok(place) => place.saturating_add(1),
        Err(_greater) => u32::MAX,
    }
}

// The corners of the polygon of all fixes of an animal.
fn points_of(alloc: Global, animal: &ReadAnimal) -> Result<Vec<Point>, AllocError> {
    let mut points = Vec::new(alloc);
    for corner in &animal.corners {
        if let Some(point) = Point::new(corner.easting, corner.northing) {
            points.push(point)?;
        }
    }
    Ok(points)
}

// What is drawn of each animal of a report alone: the polygon of all its fixes.
fn shapes_of_report(alloc: Global, report: &Report) -> Result<Vec<Shape>, AllocError> {
    let mut shapes = Vec::new(alloc);
    for (place, animal) in report.animals.iter().enumerate() {
        let mut polygons = Vec::new(alloc);
        polygons.push(points_of(alloc, animal)?)?;
        shapes.push(Shape {
            number: number_at(place),
            polygons,
            fixes: Vec::new(alloc),
        })?;
    }
    Ok(shapes)
}

// What is drawn of each animal of a report, of its track, for these levels from the highest on.
fn shapes_of(
    alloc: Global,
    report: &Report,
    tracks: &[&Track],
    levels: &[u8],
) -> Result<Vec<Shape>, PageFault> {
    let mut shapes = Vec::new(alloc);
    for (place, (animal, track)) in report.animals.iter().zip(tracks).enumerate() {
        let drawn = match levels_of(alloc, &track.bytes, report.unit, animal, levels) {
            Ok(drawn) => drawn,
            Err(fault) => return Err(track_fault(alloc, &track.file, fault)),
        };
        shapes.push(Shape {
            number: number_at(place),
            polygons: drawn.polygons,
            fixes: drawn.fixes,
        })?;
    }
    Ok(shapes)
}

// What is drawn of all animals of a report: of their tracks, if there are some.
pub(crate) fn drawn_of(
    alloc: Global,
    report: &Report,
    tracks: Option<&[Track]>,
) -> Result<AllDrawn, PageFault> {
    let Some(tracks) = tracks else {
        return Ok(AllDrawn {
            shapes: shapes_of_report(alloc, report)?,
            levels: vec![in alloc; ALL; 1]?,
            has_fixes: false,
        });
    };
    let levels = falling_levels(alloc, report)?;
    let tracks = tracks_of(alloc, report, tracks)?;
    Ok(AllDrawn {
        shapes: shapes_of(alloc, report, &tracks, &levels)?,
        levels,
        has_fixes: true,
    })
}
