// Whether the lines of a report go with each other, as those of a report of homerange do. A report of which the tracks are there
// is held to these besides.

use crate::fault::{PageFault, refused};
use page_report::{Overlap, ReadAnimal, Report};
use range_estimator::Row;
use range_lanes::Extent;
use range_plane::{FIX_LIMIT, Point, Polygon, SECOND_LIMIT, Scale, are_corners};
use range_stats::PercentRow;
use range_texts::Name;
use std::alloc::{AllocError, Global};

// Whether a coordinate is one that a fix may have.
fn is_coordinate(unit: Scale, coordinate: i64) -> bool {
    (0..=unit.limit()).contains(&coordinate)
}

// The corners of an animal that lie where fixes may be.
fn points_of(alloc: Global, unit: Scale, animal: &ReadAnimal) -> Result<Vec<Point>, AllocError> {
    let mut points = Vec::new(alloc);
    for corner in &animal.corners {
        let is_within = is_coordinate(unit, corner.easting) && is_coordinate(unit, corner.northing);
        if let (true, Some(point)) = (is_within, Point::new(corner.easting, corner.northing)) {
            points.push(point)?;
        }
    }
    Ok(points)
}

// Whether a box is that of some points.
fn is_box(extent: Extent, points: &[Point]) -> bool {
    let eastings = (
        points.iter().map(|point| point.e).min(),
        points.iter().map(|point| point.e).max(),
    );
    let northings = (
        points.iter().map(|point| point.n).min(),
        points.iter().map(|point| point.n).max(),
    );
    eastings == (Some(extent.min_e), Some(extent.max_e))
        && northings == (Some(extent.min_n), Some(extent.max_n))
}

// Whether points are the corners of the polygon of a row.
fn are_of_row(points: Vec<Point>, row: Row) -> bool {
    if !are_corners(&points) {
        return false;
    }
    let corners = points.len();
    Polygon::of_corners(points).area2() == row.area2 && corners == row.corners as usize
}

// Whether a row may stand behind another.
fn may_follow(before: &Row, row: &Row) -> bool {
    before.second <= row.second && before.area2 <= row.area2
}

// Whether rows are of seconds and areas that do not fall.
fn do_rise(rows: &[Row]) -> bool {
    rows.iter()
        .zip(rows.iter().skip(1))
        .all(|(before, row)| may_follow(before, row))
}

// How many of so many fixes a level keeps.
fn kept_at(level: u8, fixes: u64) -> u64 {
    u64::from(level).saturating_mul(fixes).saturating_add(99) / 100
}

// Whether a polygon of a level is one of an animal with so many fixes, of which the last row is this one.
fn is_percent(percent: &PercentRow, fixes: u64, last: Row) -> bool {
    let kept = u64::from(percent.kept);
    let is_all = (percent.corners, percent.area2) == (last.corners, last.area2);
    (1..=100).contains(&percent.level)
        && kept == kept_at(percent.level, fixes)
        && (1..=percent.kept).contains(&percent.corners)
        && percent.area2 <= last.area2
        && (kept < fixes || is_all)
}

// Whether two animals have the same levels.
fn are_alike(one: &[PercentRow], other: &[PercentRow]) -> bool {
    one.len() == other.len()
        && one
            .iter()
            .zip(other)
            .all(|(own, level)| own.level == level.level)
}

// What is wrong with the polygons of an animal, of which the last row is this one.
fn wrong_polygon(
    alloc: Global,
    unit: Scale,
    animal: &ReadAnimal,
    last: Row,
) -> Result<Option<&'static str>, AllocError> {
    let points = points_of(alloc, unit, animal)?;
    if points.len() != animal.corners.len() {
        return Ok(Some("a corner lies where no fix may be"));
    }
    if !is_box(animal.extent, &points) {
        return Ok(Some("the corners are not of the box"));
    }
    if !are_of_row(points, last) {
        return Ok(Some("the corners are not of the last row"));
    }
    let fixes = animal.rows.len() as u64;
    let is_wrong = animal
        .percents
        .iter()
        .any(|percent| !is_percent(percent, fixes, last));
    Ok(is_wrong.then_some("a percent polygon is none of these fixes"))
}

// What is wrong with what a report says of an animal.
fn wrong(
    alloc: Global,
    unit: Scale,
    animal: &ReadAnimal,
) -> Result<Option<&'static str>, AllocError> {
    let Some(last) = animal.rows.last() else {
        return Ok(Some("it has no fix"));
    };
    if animal.rows.len() > FIX_LIMIT as usize || last.second > SECOND_LIMIT {
        return Ok(Some("it has more fixes, or greater seconds, than homerange takes"));
    }
    if !do_rise(&animal.rows) {
        return Ok(Some("seconds or areas fall"));
    }
    wrong_polygon(alloc, unit, animal, *last)
}

// Whether an animal at a place has the name of one before it.
fn is_again(report: &Report, place: usize, animal: &ReadAnimal) -> bool {
    report
        .animals
        .iter()
        .take(place)
        .any(|other| other.name.as_slice() == animal.name.as_slice())
}

// The refusal of what a report says of an animal.
fn refusal(alloc: Global, animal: &ReadAnimal, words: &str) -> PageFault {
    let name = Name {
        bytes: &animal.name,
    };
    refused(format!(in alloc; "report.txt: animal {name}: {words}"))
}

// Refuses what a report says of the animal at a place, if it does not go together, or not with the levels of the first.
fn check_animal(
    alloc: Global,
    report: &Report,
    place: usize,
    animal: &ReadAnimal,
    levels: &[PercentRow],
) -> Result<(), PageFault> {
    if let Some(words) = wrong(alloc, report.unit, animal)? {
        return Err(refusal(alloc, animal, words));
    }
    if !are_alike(levels, &animal.percents) {
        return Err(refusal(alloc, animal, "it has other levels than the first"));
    }
    if is_again(report, place, animal) {
        return Err(refusal(alloc, animal, "it is there twice"));
    }
    Ok(())
}

// Whether an overlap is of as many fixes as its animal has.
fn is_overlap(report: &Report, overlap: &Overlap) -> bool {
    match report.animals.get(overlap.animal) {
        Some(animal) => {
            animal.rows.len() == overlap.fixes as usize && overlap.count <= overlap.fixes
        }
        None => false,
    }
}

/// Refuses a report whose lines do not go with each other.
pub(crate) fn check_sound(alloc: Global, report: &Report) -> Result<(), PageFault> {
    let Some(first) = report.animals.first() else {
        return Err(refused(String::from_str(alloc, "report.txt has no animal")));
    };
    for (place, animal) in report.animals.iter().enumerate() {
        check_animal(alloc, report, place, animal, &first.percents)?;
    }
    match report.overlaps.iter().find(|own| !is_overlap(report, own)) {
        None => Ok(()),
        Some(overlap) => match report.animals.get(overlap.animal) {
            Some(animal) => Err(refusal(alloc, animal, "an overlap is not of its fixes")),
            None => Ok(()),
        },
    }
}
