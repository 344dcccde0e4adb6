// The analysis of animals: their tables, and how their ranges overlap.

ghost use Rattle.std.specs.Prelude.{◌≡◌, ◌<◌, ◌≤◌, All, IfOk, length, map, vec_len};
ghost use Rattle.std.specs.List.{AllZip};
ghost use Rattle.range_options.specs.Limits.{file_limit};
ghost use Rattle.range_analysis.specs.Animals.{IsOverlap, pairs};
ghost use Rattle.range_analysis.specs.Tracks.{IsAnimalOn, IsMeasuredOf, points_on};

use crate::animal::{Animals, Overlaps};
use crate::measured::Measured;
use crate::measurement::measure;
use crate::overlap_rows::count_overlaps;
use crate::track::Track;
use range_options::Levels;
use range_plane::{OutOfMemory, Scale};
use rayon::prelude::*;
use std::alloc::Global;
use std::thread::Threads;

/// The analysis of animals: the animals, in the order of their tracks, and for each two of them how far the
/// fixes of one lie in the range of the other.
#[derive(Drop)]
pub struct Analysis {
    pub animals: Animals,
    /// A row for each ordered pair of different animals, in the order of the animals, the one whose fixes
    /// are counted before the one whose range it is.
    pub overlaps: Overlaps,
    /// The unit of all coordinates; areas are in its squares.
    pub unit: Scale,
    pub ghost numbered: { All (λ row. (row.animal < length animals)
        × (row.range < length animals)) overlaps },
}

// What is known of each animal, in their order. Several are measured at once.
fn measure_all<R: Threads + Sync>(
    rt: &R,
    alloc: Global,
    tracks: Vec<Track>,
    levels: &Levels,
) -> Result<Vec<Measured>, OutOfMemory>
    ensures { IfOk result
        (λ measured. AllZip (IsMeasuredOf levels.now) tracks.items measured.items) }
{
    tracks
        .into_par_iter()
        .with_min_len(1)
        .map(
            |track: Track| -> Result<Measured, OutOfMemory>
                ensures { IfOk result (IsMeasuredOf levels.entry.now track) }
            { measure(alloc, track, levels) },
        )
        .collect::<Result<Vec<Measured>, OutOfMemory>>(rt, alloc)?
}

// The animals, without their points.
fn into_animals(alloc: Global, measured: Vec<Measured>) -> Result<Animals, OutOfMemory>
    ensures { IfOk result (λ animals. animals ≡ map (λ m. m.animal) measured.items) }
{
    let mut animals = Vec::with_capacity(alloc, measured.len())?;
    for one in measured {
        animals.push(one.animal)?;
    }
    Ok(Animals::new(animals))
}

/// The analysis of 0 to [`FILE_LIMIT`](range_options::FILE_LIMIT) animals, with coordinates in this unit: the
/// tables of each, with a percent polygon at each of the levels, and their overlaps.
///
/// # Errors
///
/// `OutOfMemory` where an allocation failed.
pub fn analysis_of<R: Threads + Sync>(
    rt: &R,
    alloc: Global,
    tracks: Vec<Track>,
    levels: &Levels,
    unit: Scale,
) -> Result<Analysis, OutOfMemory>
    requires files { vec_len tracks ≤ file_limit }
    ensures animals { IfOk result (λ a. AllZip (IsAnimalOn levels.now) tracks.items a.animals) }
    ensures overlaps { IfOk result
        (λ a. AllZip (IsOverlap (points_on tracks.items))
        (pairs (length tracks.items)) a.overlaps) }
    ensures unit { IfOk result (λ a. a.unit ≡ unit) }
{
    let measured = measure_all(rt, alloc, tracks, levels)?;
    let overlaps = count_overlaps(rt, alloc, &measured)?;
    let animals = into_animals(alloc, measured)?;
    Ok(Analysis {
        animals,
        overlaps,
        unit,
    })
}
