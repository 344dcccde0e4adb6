// What files that were followed come to.

ghost use Rattle.std.specs.Prelude.{◌≡◌, ◌≤◌, false, true, Err, IfErr, IfOk, MatchResult, None, Some, vec_len};
ghost use Rattle.range_options.specs.Limits.{file_limit};
ghost use Rattle.range_analysis.specs.Analysis.{HasNoAnalysis, IsAnalysis};
ghost use Rattle.range_analysis.specs.Entries.{of_fault, entries_of, entry_of, first_fault, of_animal, loss_of, names_of};
ghost use Rattle.range_analysis.specs.Names.{IsFirstRepeat};
ghost use Rattle.range_analysis.specs.Tracks.{entries_in};

use crate::analyse_fault::AnalyseFault;
use crate::analysis::{Analysis, analysis_of};
use crate::losses::loss_of;
use crate::names::first_repeat;
use crate::track::Track;
use range_collect::Followed;
use range_fixes::ReadFault;
use range_options::Levels;
use range_plane::Scale;
use std::alloc::Global;
use std::thread::Threads;

// The track of a file that was handed on whole, or the fault of its reader.
fn track(followed: Followed) -> Result<Track, ReadFault>
    requires whole { (followed.marked ≡ true) × (followed.estimator.stopped ≡ false) }
    ensures { MatchResult result
        (λ track. entry_of followed.read followed.estimator.fixes
        ≡ of_animal track.name track.estimator.fixes)
        (λ fault. entry_of followed.read followed.estimator.fixes ≡ of_fault fault) }
{
    let Followed {
        read,
        estimator,
        ..
    } = followed;
    let name = read?;
    Ok(Track { name, estimator })
}

// The tracks of files that were handed on whole, or the fault of the first that has one.
fn tracks_of(alloc: Global, followed: Vec<Followed>) -> Result<Vec<Track>, AnalyseFault>
    requires files { vec_len followed ≤ file_limit }
    requires whole { loss_of followed.items ≡ None }
    ensures tracks { IfOk result (λ tracks. entries_in tracks.items ≡ entries_of followed.items) }
    ensures faultless { IfOk result (λ _. first_fault (entries_of followed.items) ≡ None) }
    ensures fault { IfErr result (HasNoAnalysis (entries_of followed.items)) }
{
    let mut tracks = Vec::with_capacity(alloc, followed.len())?;
    for followed in followed {
        match track(followed) {
            Ok(track) => tracks.push_reserved(track),
            Err(fault) => {
                let file = tracks.len() as u32;
                return Err(AnalyseFault::File { file, fault });
            }
        }
    }
    Ok(tracks)
}

// The fault of files of which those at these indexes have one animal.
fn same_animal(mut tracks: Vec<Track>, first: usize, second: usize) -> AnalyseFault
    requires files { vec_len tracks ≤ file_limit }
    requires faultless { first_fault (entries_in tracks.items) ≡ None }
    requires repeat { IsFirstRepeat (names_of (entries_in tracks.items)) (Some (first, second)) }
    ensures { HasNoAnalysis (entries_in tracks.items) result }
{
    let animal = tracks.swap_remove(second).name;
    AnalyseFault::SameAnimal {
        first: first as u32,
        second: second as u32,
        animal,
    }
}

/// The analysis of 1 to [`FILE_LIMIT`](range_options::FILE_LIMIT) files that were followed, with a percent
/// polygon of each animal at each of the levels. The unit is that of the files' coordinates.
///
/// # Errors
///
/// The first of these: memory ran out for a file; the first file whose mark was not taken; the first
/// that could not be read to its end; the first animal that stands in an earlier file. Running out of memory for
/// the analysis itself may come before the last three.
pub fn judge<R: Threads + Sync>(
    rt: &R,
    alloc: Global,
    followed: Vec<Followed>,
    levels: &Levels,
    unit: Scale,
) -> Result<Analysis, AnalyseFault>
    requires files { (1 ≤ vec_len followed) × (vec_len followed ≤ file_limit) }
    ensures lost { (fault : AnalyseFault) → loss_of followed.items ≡ Some fault
        → result ≡ Err fault }
    ensures judged { loss_of followed.items ≡ None → MatchResult result
        (IsAnalysis (entries_of followed.items) levels.now unit)
        (HasNoAnalysis (entries_of followed.items)) }
{
    if let Some(fault) = loss_of(&followed) {
        return Err(fault);
    }
    let tracks = tracks_of(alloc, followed)?;
    if let Some((first, second)) = first_repeat(alloc, &tracks)? {
        return Err(same_animal(tracks, first, second));
    }
    Ok(analysis_of(rt, alloc, tracks, levels, unit)?)
}
