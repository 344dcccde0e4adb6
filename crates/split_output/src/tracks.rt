// The files of tracks.

ghost use Rattle.std.specs.Prelude.{◌≡◌, IfOk, map};
ghost use Rattle.split_export.specs.Files.{filed};
ghost use Rattle.split_output.specs.Files.{files_of_tracks};

use range_plane::OutOfMemory;
use split_chain::Split;
use split_export::TrackFile;
use std::alloc::Global;

/// The files of tracks, in the order of their animals.
///
/// # Errors
///
/// Memory ran out.
pub(crate) fn tracks_of<'a>(
    alloc: Global,
    split: &'a Split,
) -> Result<Vec<&'a TrackFile>, OutOfMemory>
    ensures { IfOk result (λ tracks. map (λ track. filed track.now) tracks.items ≡ files_of_tracks split.now) }
{
    let mut tracks: Vec<&TrackFile> = Vec::new(alloc);
    for animal in split.order.iter() {
        if let Some(file) = split.files.get(*animal as usize) {
            tracks.push(file)?;
        }
    }
    Ok(tracks)
}
