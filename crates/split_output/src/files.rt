// The files of the folder of a split.

ghost use Rattle.std.specs.Prelude.{◌≡◌, ◌++◌, ◌∷◌, [], IfErr, IfOk, OnOk, codes, map, string_bytes};
ghost use Rattle.split_export.specs.Files.{filed};
ghost use Rattle.split_folder.specs.Fault.{files_in};
ghost use Rattle.split_output.specs.Files.{file_of_records, files_of_split, files_of_tracks, name_of_track};
ghost use Rattle.split_output.specs.Write.{IsOfName, IsOfNames};

use crate::fault::OutputFault;
use crate::tracks::tracks_of;
use range_plane::OutOfMemory;
use split_chain::Split;
use split_export::TrackFile;
use split_folder::NewFile;
use std::alloc::Global;

/// The name of the file that has the record of tracks.
pub const RECORD_NAME: &str = "split.txt";

/// The name of the file that says what became of each record.
pub const RECORDS_NAME: &str = "records.txt";

// The name of a track as that of its file.
fn with_kind(alloc: Global, name: &str) -> Result<String, OutOfMemory>
    ensures { IfOk result (λ own. string_bytes own ≡ name.now ++ codes ".csv") }
{
    let mut own = String::from_str(alloc, name)?;
    own.push_str(".csv")?;
    Ok(own)
}

// The name of the file of a track.
fn name_of(alloc: Global, track: &TrackFile) -> Result<String, OutputFault>
    ensures name { IfOk result (λ name. string_bytes name ≡ name_of_track (filed track.now)) }
    ensures fault { IfErr result (IsOfName track.now.name.items) }
{
    match str::from_utf8(&track.name) {
        Ok(name) => Ok(with_kind(alloc, name)?),
        Err(_) => Err(OutputFault::NoText),
    }
}

// Puts a name behind others.
fn push_name(names: &mut Vec<String>, name: String) -> Result<(), OutOfMemory>
    ensures { OnOk result (names.new.items ≡ names.old.items ++ name ∷ []) }
{
    names.push(name)?;
    Ok(())
}

/// The names of the files of tracks, in their order.
///
/// # Errors
///
/// A name is no text in UTF-8, or memory ran out.
pub fn names_of_split(alloc: Global, split: &Split) -> Result<Vec<String>, OutputFault>
    ensures names { IfOk result (λ names. map string_bytes names.items ≡ map name_of_track (files_of_tracks split.now)) }
    ensures fault { IfErr result (IsOfNames split.now) }
{
    let tracks = tracks_of(alloc, split)?;
    let mut names = Vec::new(alloc);
    for track in tracks.iter() {
        match name_of(alloc, track) {
            Ok(name) => push_name(&mut names, name)?,
            Err(fault) => return Err(fault),
        }
    }
    Ok(names)
}

// Appends the file that says what became of each record, if the split lists them.
fn push_records<'a>(files: &mut Vec<NewFile<'a>>, split: &'a Split) -> Result<(), OutOfMemory>
    ensures { OnOk result (files_in files.new.items ≡ files_in files.old.items ++ file_of_records split.now) }
{
    if let Some(records) = &split.records {
        files.push(NewFile {
            name: RECORDS_NAME,
            text: records,
        })?;
    }
    Ok(())
}

/// The files of the folder of a split whose tracks have files of these names, and whose record has this text.
///
/// # Errors
///
/// Memory ran out.
pub(crate) fn files_of_split<'a>(
    alloc: Global,
    split: &'a Split,
    names: &'a [String],
    text: &'a [u8],
) -> Result<Vec<NewFile<'a>>, OutOfMemory>
    requires { map string_bytes names.now ≡ map name_of_track (files_of_tracks split.now) }
    ensures { IfOk result (λ files. files_in files.items ≡ files_of_split split.now text.now) }
{
    let tracks = tracks_of(alloc, split)?;
    let mut files = Vec::new(alloc);
    for (place, track) in tracks.iter().enumerate() {
        files.push(NewFile {
            name: names[place].as_str(),
            text: &track.text,
        })?;
    }
    push_records(&mut files, split)?;
    files.push(NewFile {
        name: RECORD_NAME,
        text,
    })?;
    Ok(files)
}
