// The overlaps of a report.

ghost use Rattle.std.specs.Prelude.{◌≡◌, IfErr, IfOk, Ok, length, map};
ghost use Rattle.page_report.specs.Reading.{IsRefusal, name_at, one, overlap_in, overlaps_from, parts, ranges_from};

use crate::animal::ReadAnimal;
use crate::lines::overlap_of;
use crate::reading::{ReadFault, append, line_of, push, refused};
use std::alloc::Global;

/// How many fixes of one animal lie in the range of another. Animals are numbered from 0.
#[derive(Clone, Copy, PartialEq, Eq, Debug)]
pub struct Overlap {
    /// Whose fixes are counted.
    pub animal: usize,
    /// Whose range it is.
    pub range: usize,
    pub count: u32,
    /// How many fixes there are.
    pub fixes: u32,
}

// The name of an animal.
fn name_at(animals: &[ReadAnimal], place: usize) -> &[u8]
    ensures { result.now ≡ name_at (map (λ animal. animal.name.items) animals.now) place }
{
    match animals.get(place) {
        Some(animal) => &animal.name,
        None => b"",
    }
}

// The overlap of an animal with the range of another.
fn one_overlap<'a>(
    text: &'a [u8],
    animals: &[ReadAnimal],
    animal: usize,
    range: usize,
) -> Result<(Overlap, &'a [u8]), ReadFault>
    ensures found { IfOk result (λ own. one (overlap_in (map (λ animal. animal.name.items) animals.now) animal range) (parts text.now) ≡ Ok (own.0, parts own.1.now)) }
    ensures fault { IfErr result (IsRefusal (one (overlap_in (map (λ animal. animal.name.items) animals.now) animal range) (parts text.now))) }
{
    let (line, behind) = line_of(text)?;
    match overlap_of(line, name_at(animals, animal), name_at(animals, range)) {
        Some((count, fixes)) => {
            let overlap = Overlap {
                animal,
                range,
                count,
                fixes,
            };
            Ok((overlap, behind))
        }
        None => Err(refused(text)),
    }
}

// The overlaps of an animal with the ranges of the others, and what stands behind them.
fn ranges_of<'a>(
    alloc: Global,
    text: &'a [u8],
    animals: &[ReadAnimal],
    animal: usize,
) -> Result<(Vec<Overlap>, &'a [u8]), ReadFault>
    ensures found { IfOk result (λ own. ranges_from (map (λ animal. animal.name.items) animals.now) animal 0 (length animals.now) (parts text.now) ≡ Ok (own.0.items, parts own.1.now)) }
    ensures fault { IfErr result (IsRefusal (ranges_from (map (λ animal. animal.name.items) animals.now) animal 0 (length animals.now) (parts text.now))) }
{
    let mut overlaps = Vec::new(alloc);
    let mut rest = text;
    for range in 0..animals.len() {
        if range != animal {
            let (overlap, behind) = one_overlap(rest, animals, animal, range)?;
            push(&mut overlaps, overlap)?;
            rest = behind;
        }
    }
    Ok((overlaps, rest))
}

// The overlaps of all animals, and what stands behind them.
pub(crate) fn overlaps_of<'a>(
    alloc: Global,
    text: &'a [u8],
    animals: &[ReadAnimal],
) -> Result<(Vec<Overlap>, &'a [u8]), ReadFault>
    ensures found { IfOk result (λ own. overlaps_from (map (λ animal. animal.name.items) animals.now) (length animals.now) 0 (length animals.now) (parts text.now) ≡ Ok (own.0.items, parts own.1.now)) }
    ensures fault { IfErr result (IsRefusal (overlaps_from (map (λ animal. animal.name.items) animals.now) (length animals.now) 0 (length animals.now) (parts text.now))) }
{
    let mut overlaps = Vec::new(alloc);
    let mut rest = text;
    for animal in 0..animals.len() {
        let (own, behind) = ranges_of(alloc, rest, animals, animal)?;
        append(&mut overlaps, &own)?;
        rest = behind;
    }
    Ok((overlaps, rest))
}
