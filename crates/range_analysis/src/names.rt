// Animals that have the same name.

ghost use Rattle.std.specs.Prelude.{IfOk};
ghost use Rattle.range_analysis.specs.Entries.{names_of};
ghost use Rattle.range_analysis.specs.Names.{IsFirstRepeat};
ghost use Rattle.range_analysis.specs.Tracks.{entries_in};

use crate::track::Track;
use indexmap::IndexSet;
use range_plane::OutOfMemory;
use std::alloc::Global;

// The first animal whose name stands earlier too: the index where it stands first, and its own.
pub(crate) fn first_repeat(
    alloc: Global,
    tracks: &[Track],
) -> Result<Option<(usize, usize)>, OutOfMemory>
    ensures { IfOk result (IsFirstRepeat (names_of (entries_in tracks.now))) }
{
    let mut seen = IndexSet::new(alloc);
    for (second, track) in tracks.iter().enumerate() {
        let (first, is_new) = seen.insert_full(track.name.as_slice())?;
        if !is_new {
            return Ok(Some((first, second)));
        }
    }
    Ok(None)
}
