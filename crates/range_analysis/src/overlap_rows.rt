// How many fixes of each animal lie in the range of each other one.

ghost use Rattle.std.specs.Prelude.{◌≡◌, ◌++◌, ◌<◌, ◌≤◌, All, IfOk, OnOk, length, map};
ghost use Rattle.range_options.specs.Limits.{file_limit};
ghost use Rattle.range_stats.specs.Overlap.{overlap};
ghost use Rattle.range_analysis.specs.Overlaps.{IsKnown, are_apart_by_easting, are_apart_by_northing, points_of_each, row_of};
ghost use Rattle.range_analysis.specs.Animals.{other_animals, pairs};

use crate::animal::{OverlapRow, Overlaps};
use crate::measured::Measured;
use range_lanes::Extent;
use range_plane::OutOfMemory;
use range_stats::overlap;
use rayon::prelude::*;
use std::alloc::Global;
use std::thread::Threads;

// Whether one box ends before the other begins, from west to east.
fn are_apart_by_easting(a: Extent, b: Extent) -> bool
    ensures { result ≡ are_apart_by_easting a b }
{
    a.max_e < b.min_e || b.max_e < a.min_e
}

// Whether one box ends before the other begins, from south to north.
fn are_apart_by_northing(a: Extent, b: Extent) -> bool
    ensures { result ≡ are_apart_by_northing a b }
{
    a.max_n < b.min_n || b.max_n < a.min_n
}

// How many fixes of the animal lie in the range of the other: none where their boxes are apart.
fn count_in(animal: &Measured, range: &Measured) -> u64
    requires animal { IsKnown animal.now }
    requires range { IsKnown range.now }
    ensures { result ≡ overlap animal.now.fixes.points range.now.fixes.points }
{
    let (a, b) = (animal.animal.extent, range.animal.extent);
    if are_apart_by_easting(a, b) || are_apart_by_northing(a, b) {
        0
    } else {
        overlap(&animal.fixes, &range.animal.polygon)
    }
}

// Appends the pairs of one animal with each other.
fn push_pairs(
    pairs: &mut Vec<(usize, usize)>,
    count: usize,
    animal: usize,
) -> Result<(), OutOfMemory>
    ensures { OnOk result (pairs.new.items ≡ pairs.old.items
        ++ map (λ range. (animal, range)) (other_animals count animal)) }
{
    for range in 0..count {
        if range != animal {
            pairs.push((animal, range))?;
        }
    }
    Ok(())
}

// The ordered pairs of different animals, by their indexes.
fn ordered_pairs(alloc: Global, count: usize) -> Result<Vec<(usize, usize)>, OutOfMemory>
    ensures { IfOk result (λ all. all.items ≡ pairs count) }
{
    let mut all = Vec::new(alloc);
    for animal in 0..count {
        push_pairs(&mut all, count, animal)?;
    }
    Ok(all)
}

// The row of two animals.
fn row(measured: &[Measured], pair: (usize, usize)) -> OverlapRow
    requires files { length measured.now ≤ file_limit }
    requires known { All IsKnown measured.now }
    requires pair { (pair.0 < length measured.now) × (pair.1 < length measured.now) }
    ensures { result ≡ row_of (points_of_each measured.now) pair }
{
    let (animal, range) = pair;
    let counted = &measured[animal];
    OverlapRow {
        animal: animal as u32,
        range: range as u32,
        count: count_in(counted, &measured[range]),
        fixes: counted.fixes.len() as u32,
    }
}

// The rows of each ordered pair of different animals. Several are counted at once.
pub(crate) fn count_overlaps<R: Threads + Sync>(
    rt: &R,
    alloc: Global,
    measured: &[Measured],
) -> Result<Overlaps, OutOfMemory>
    requires files { length measured.now ≤ file_limit }
    requires known { All IsKnown measured.now }
    ensures { IfOk result (λ rows. rows
        ≡ map (row_of (points_of_each measured.now)) (pairs (length measured.now))) }
{
    let pairs = ordered_pairs(alloc, measured.len())?;
    let rows = pairs
        .par_iter()
        .with_min_len(1)
        .map(
            |pair: &(usize, usize)| -> OverlapRow
                requires files { length measured.now ≤ file_limit }
                requires known { All IsKnown measured.now }
                requires pair { (pair.now.0 < length measured.now)
                    × (pair.now.1 < length measured.now) }
                ensures { result ≡ row_of (points_of_each measured.entry.now) pair.now }
            { row(measured, *pair) },
        )
        .collect::<Vec<_>>(rt, alloc)?;
    Ok(Overlaps::new(rows))
}
