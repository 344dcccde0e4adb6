// A track and its points, as they stand in the text.

use crate::cells::{push_text, push_value_cell};
use crate::signs::is_blank;
use std::alloc::{AllocError, Global};

/// The titles of the table, whose records have an animal or none.
pub(crate) const TITLES: &[u8] = b"\"animal\",\"time\",\"lon\",\"lat\"\n";

pub(crate) const TITLES_OF_ONE: &[u8] = b"\"time\",\"lon\",\"lat\"\n";

/// The table of a text.
#[derive(Drop, PartialEq, Eq, Debug)]
pub struct GpxTable {
    /// Its text, in CSV.
    pub text: Vec<u8>,
    /// How many points are not read: waypoints, those of routes, and those of tracks that stand in no segment.
    pub other_points: usize,
}

/// A point, with what it has.
#[derive(Clone, Copy)]
pub(crate) struct Point<'a> {
    pub(crate) time: Option<&'a [u8]>,
    pub(crate) longitude: Option<&'a [u8]>,
    pub(crate) latitude: Option<&'a [u8]>,
}

/// A track, with its name if it has one.
#[derive(Drop)]
pub(crate) struct Track<'a> {
    pub(crate) name: Option<&'a [u8]>,
    pub(crate) points: Vec<Point<'a>>,
}

// Writes the cells of a point.
fn push_point(alloc: Global, table: &mut Vec<u8>, point: &Point<'_>) -> Result<(), AllocError> {
    push_line_cell(table, &line_of(alloc, point.time)?)?;
    table.push(b',')?;
    push_value_cell(table, point.longitude.unwrap_or_default())?;
    table.push(b',')?;
    push_value_cell(table, point.latitude.unwrap_or_default())?;
    table.push(b'\n')?;
    Ok(())
}

// A text in one line: without blanks at its ends, and with one in place of those among which a line ends.
fn in_one_line(alloc: Global, text: &[u8]) -> Result<Vec<u8>, AllocError> {
    let mut line = Vec::new(alloc);
    let mut blanks = Vec::new(alloc);
    for byte in text {
        if is_blank(*byte) {
            blanks.push(*byte)?;
            continue;
        }
        if !line.is_empty() {
            line.extend_from_slice(if ends_line(&blanks) { b" " } else { &blanks })?;
        }
        blanks.clear();
        line.push(*byte)?;
    }
    Ok(line)
}

// Whether a line ends among blanks.
fn ends_line(blanks: &[u8]) -> bool {
    blanks.iter().any(|byte| *byte == b'\n' || *byte == b'\r')
}

// The text of an element in one line; empty where there is none.
fn line_of(alloc: Global, element: Option<&[u8]>) -> Result<Vec<u8>, AllocError> {
    let mut text = Vec::new(alloc);
    push_text(&mut text, element.unwrap_or_default())?;
    in_one_line(alloc, &text)
}

// Writes the line of an element as a cell.
fn push_line_cell(table: &mut Vec<u8>, line: &[u8]) -> Result<(), AllocError> {
    table.push(b'"')?;
    table.extend_from_slice(line)?;
    table.push(b'"')?;
    Ok(())
}

// Writes records whose animal has this cell; of tracks without a name there is none.
fn push_points(
    alloc: Global,
    table: &mut Vec<u8>,
    animal: Option<&[u8]>,
    points: &[Point<'_>],
) -> Result<(), AllocError> {
    for point in points {
        if let Some(animal) = animal {
            table.extend_from_slice(animal)?;
            table.push(b',')?;
        }
        push_point(alloc, table, point)?;
    }
    Ok(())
}

impl<'a> Track<'a> {
    /// A track of which nothing is known yet.
    pub(crate) fn new(alloc: Global) -> Track<'a> {
        Track {
            name: None,
            points: Vec::new(alloc),
        }
    }

    /// The cell of the animal, which is the track's name in one line; none where it has no name.
    pub(crate) fn animal_cell(&self, alloc: Global) -> Result<Option<Vec<u8>>, AllocError> {
        let name = line_of(alloc, self.name)?;
        if name.is_empty() {
            return Ok(None);
        }
        let mut cell = Vec::new(alloc);
        push_line_cell(&mut cell, &name)?;
        Ok(Some(cell))
    }

    /// Writes the records of the points, whose animal has this cell, if it has one, and forgets the track.
    pub(crate) fn write(
        &mut self,
        alloc: Global,
        table: &mut Vec<u8>,
        animal: Option<&[u8]>,
    ) -> Result<(), AllocError> {
        push_points(alloc, table, animal, self.points.as_slice())?;
        self.name = None;
        self.points.clear();
        Ok(())
    }
}
