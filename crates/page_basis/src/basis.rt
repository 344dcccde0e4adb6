// What the area of an animal rests on.

use crate::influence::{OneFix, one_fix};
use page_growth::{LevelGrowth, growth_at};
use page_report::ReadAnimal;
use page_sampling::{Sampling, sampling_of};
use range_plane::{OutOfMemory, Point};
use std::alloc::Global;

// The level of the polygon of all fixes.
const ALL: u8 = 100;

/// What the area of an animal rests on. What goes by places is `None` where these are not known.
#[derive(Clone, Copy, PartialEq, Eq, Debug)]
pub struct Basis {
    pub sampling: Sampling,
    /// How the area at the level that is quoted grew, where that is not the one of all fixes.
    pub quoted: Option<LevelGrowth>,
    /// How the area of all fixes grew.
    pub all: Option<LevelGrowth>,
    pub one_fix: Option<OneFix>,
}

// How the area at the level that is quoted grew.
fn quoted_growth(
    alloc: Global,
    animal: &ReadAnimal,
    level: u8,
    fixes: Option<&[Point]>,
) -> Result<Option<LevelGrowth>, OutOfMemory> {
    match fixes {
        Some(fixes) if level < ALL => growth_at(alloc, level, &animal.rows, fixes),
        _ => Ok(None),
    }
}

/// What the area of an animal rests on, of which this level is quoted, and whose fixes may be known.
///
/// # Errors
///
/// Memory ran out.
pub fn basis_of(
    alloc: Global,
    animal: &ReadAnimal,
    level: u8,
    fixes: Option<&[Point]>,
) -> Result<Basis, OutOfMemory> {
    let one_fix = match fixes {
        Some(fixes) => one_fix(alloc, animal, fixes)?,
        None => None,
    };
    Ok(Basis {
        sampling: sampling_of(alloc, &animal.rows, fixes)?,
        quoted: quoted_growth(alloc, animal, level, fixes)?,
        all: growth_at(alloc, ALL, &animal.rows, fixes.unwrap_or(&[]))?,
        one_fix,
    })
}
