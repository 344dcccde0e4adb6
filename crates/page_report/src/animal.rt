// What a report says of one animal.

ghost use Rattle.std.specs.Prelude.{◌≡◌, IfErr, IfOk, Ok, map};
ghost use Rattle.page_report.specs.Lines.{box_of, head_of};
ghost use Rattle.page_report.specs.Reading.{IsRefusal, animal_of, animals_of, one, parts, polygons_of, said};

use crate::corner::Corner;
use crate::lines::{box_of, head_of};
use crate::reading::{
    ReadFault, corners_of, line_of, next_of_kind, percents_of, push, refused, rows_of,
};
use range_estimator::Row;
use range_lanes::Extent;
use range_stats::PercentRow;
use std::alloc::Global;

/// What a report says of one animal.
#[derive(Drop)]
pub struct ReadAnimal {
    pub name: Vec<u8>,
    /// The box of its fixes.
    pub extent: Extent,
    /// A row for each fix.
    pub rows: Vec<Row>,
    /// The corners of its polygon.
    pub corners: Vec<Corner>,
    pub percents: Vec<PercentRow>,
}

// The first line of an animal.
fn one_head(text: &[u8]) -> Result<(&[u8], u32, &[u8]), ReadFault>
    ensures found { IfOk result (λ own. one head_of (parts text.now) ≡ Ok ((own.0.now, own.1), parts own.2.now)) }
    ensures fault { IfErr result (IsRefusal (one head_of (parts text.now))) }
{
    let (line, behind) = line_of(text)?;
    match head_of(line) {
        Some((name, fixes)) => Ok((name, fixes, behind)),
        None => Err(refused(text)),
    }
}

// The line of the box of an animal.
fn one_box<'a>(text: &'a [u8], name: &[u8]) -> Result<(Extent, &'a [u8]), ReadFault>
    ensures found { IfOk result (λ own. one (box_of name.now) (parts text.now) ≡ Ok (own.0, parts own.1.now)) }
    ensures fault { IfErr result (IsRefusal (one (box_of name.now) (parts text.now))) }
{
    let (line, behind) = line_of(text)?;
    match box_of(line, name) {
        Some(extent) => Ok((extent, behind)),
        None => Err(refused(text)),
    }
}

// The corners and percent polygons of an animal of which the rest is read, and what stands behind.
fn polygons_of<'a>(
    alloc: Global,
    text: &'a [u8],
    name: Vec<u8>,
    extent: Extent,
    rows: Vec<Row>,
) -> Result<(ReadAnimal, &'a [u8]), ReadFault>
    ensures found { IfOk result (λ own. polygons_of name.items extent rows.items (parts text.now) ≡ Ok (said own.0, parts own.1.now)) }
    ensures fault { IfErr result (IsRefusal (polygons_of name.items extent rows.items (parts text.now))) }
{
    let (corners, rest) = corners_of(alloc, text, &name)?;
    let (percents, rest) = percents_of(alloc, rest, &name)?;
    let animal = ReadAnimal {
        name,
        extent,
        rows,
        corners,
        percents,
    };
    Ok((animal, rest))
}

// The animal whose lines stand next, and what stands behind them.
fn animal_of(alloc: Global, text: &[u8]) -> Result<(ReadAnimal, &[u8]), ReadFault>
    ensures found { IfOk result (λ own. animal_of (parts text.now) ≡ Ok (said own.0, parts own.1.now)) }
    ensures fault { IfErr result (IsRefusal (animal_of (parts text.now))) }
{
    let (name, fixes, rest) = one_head(text)?;
    let (extent, rest) = one_box(rest, name)?;
    let (rows, rest) = rows_of(alloc, rest, name)?;
    if rows.len() != fixes as usize {
        return Err(refused(rest));
    }
    match Vec::from_slice(alloc, name) {
        Ok(name) => polygons_of(alloc, rest, name, extent, rows),
        Err(_no_memory) => Err(ReadFault::OutOfMemory),
    }
}

// The animals of a text, and what stands behind them.
pub(crate) fn animals_of(alloc: Global, text: &[u8]) -> Result<(Vec<ReadAnimal>, &[u8]), ReadFault>
    ensures found { IfOk result (λ own. animals_of text.now ≡ Ok (map said own.0.items, parts own.1.now)) }
    ensures fault { IfErr result (IsRefusal (animals_of text.now)) }
{
    let mut animals = Vec::new(alloc);
    let mut rest = text;
    for _animal in 0..text.len() {
        if next_of_kind(rest, b"animal,").is_none() {
            break;
        }
        let (animal, behind) = animal_of(alloc, rest)?;
        push(&mut animals, animal)?;
        rest = behind;
    }
    Ok((animals, rest))
}
