// The files of tracks.

ghost use Rattle.std.specs.Prelude.{◌≡◌, ◌++◌, ◌∷◌, [], IfOk, OnOk, length, map};
ghost use Rattle.std.specs.List.{count_by};
ghost use Rattle.split_export.specs.Export.{bytes_of};
ghost use Rattle.split_export.specs.Files.{entries_of_all, file_of, files_of, filed};

use range_plane::OutOfMemory;
use split_fates::{Choice, MarkedFault, marked_fixes};
use split_files::track_text;
use split_tracks::Entry;
use std::alloc::Global;

/// The file of a track.
#[derive(Drop)]
pub struct TrackFile {
    /// Its name, which is that of the animal in it, without what stands behind it for its kind.
    pub name: Vec<u8>,
    pub text: Vec<u8>,
    pub records: usize,
    /// How many of the records are used.
    pub used: usize,
}

// How many entries are used.
fn count_used(track: &[Entry]) -> usize
    ensures { result ≡ count_by (λ entry. entry.is_used) track.now }
{
    track.iter().filter(|entry| entry.is_used).count()
}

// The file of a track, with the name of its animal.
fn file_of(
    alloc: Global,
    choice: &Choice,
    name: &[u8],
    track: &[Entry],
) -> Result<TrackFile, MarkedFault>
    ensures { IfOk result (λ file. filed file ≡ file_of choice.now name.now track.now) }
{
    let fixes = match marked_fixes(alloc, track, choice.shift) {
        Ok(fixes) => fixes,
        Err(fault) => return Err(fault),
    };
    let text = track_text(alloc, choice.keeps_marks, name, &fixes)?;
    let own_name = copy_of(alloc, name)?;
    Ok(TrackFile {
        name: own_name,
        text,
        records: track.len(),
        used: count_used(track),
    })
}

// A name once more.
fn copy_of(alloc: Global, name: &[u8]) -> Result<Vec<u8>, OutOfMemory>
    ensures { IfOk result (λ copy. copy.items ≡ name.now) }
{
    Ok(Vec::from_slice(alloc, name)?)
}

// Puts a file behind others.
fn push_file(files: &mut Vec<TrackFile>, file: TrackFile) -> Result<(), OutOfMemory>
    ensures { OnOk result (files.new.items ≡ files.old.items ++ file ∷ []) }
{
    files.push(file)?;
    Ok(())
}

/// The files of the tracks of animals with these names, in their order.
///
/// # Errors
///
/// An entry is off the plane, or memory ran out.
pub fn make_files(
    alloc: Global,
    choice: &Choice,
    names: &[Vec<u8>],
    tracks: &[Vec<Entry>],
) -> Result<Vec<TrackFile>, MarkedFault>
    requires { length names.now ≡ length tracks.now }
    ensures { IfOk result (λ files. map filed files.items
        ≡ files_of choice.now (bytes_of names.now) (entries_of_all tracks.now)) }
{
    let mut files = Vec::new(alloc);
    for place in 0..names.len() {
        let file = match file_of(alloc, choice, &names[place], &tracks[place]) {
            Ok(file) => file,
            Err(fault) => return Err(fault),
        };
        push_file(&mut files, file)?;
    }
    Ok(files)
}
