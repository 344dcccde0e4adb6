// The files of a folder, read. Links, folders and devices in their places are refused, since a folder of a stranger may lead
// anywhere by them.

use crate::stop::{Stop, unread};
use page_files::Track;
use std::alloc::Global;
use std::fs::DirEntry;
use std::io::ErrorKind;
use std::rt::Files;
use std::{fs, io};

// The end of the names of files of tracks.
const TRACK: &str = ".csv";

/// The bytes of the files of a folder.
#[derive(Drop)]
pub(crate) struct FolderFiles {
    pub report: Vec<u8>,
    pub record: Option<Vec<u8>>,
    pub boundary: Option<Vec<u8>>,
    /// None where there are no tracks.
    pub tracks: Option<Vec<Track>>,
}

// That a path is no plain file.
fn no_file(alloc: Global, path: &str) -> Stop {
    match format!(in alloc; "{path}: it is no plain file: put the file itself there") {
        Ok(text) => Stop::Folder(text),
        Err(_no_memory) => Stop::OutOfMemory,
    }
}

// The bytes of a file, if anything is there.
fn bytes_if_there<R: Files + AllocGlobal>(rt: &R, path: &str) -> Result<Option<Vec<u8>>, Stop> {
    let alloc = rt.alloc();
    match fs::symlink_metadata(rt, path) {
        Ok(found) if found.is_file() => {}
        Ok(_other) => return Err(no_file(alloc, path)),
        Err(error) if error.kind() == ErrorKind::NotFound => return Ok(None),
        Err(error) => return Err(unread(alloc, path, &error)),
    }
    match fs::read(rt, path) {
        Ok(bytes) => Ok(Some(bytes)),
        Err(error) => Err(unread(alloc, path, &error)),
    }
}

// That a path is no folder.
fn no_folder(alloc: Global, path: &str) -> Stop {
    match format!(in alloc; "{path}: it is no folder: put the folder itself there") {
        Ok(text) => Stop::Folder(text),
        Err(_no_memory) => Stop::OutOfMemory,
    }
}

// That a file is not there.
fn missing(alloc: Global, path: &str) -> Stop {
    match format!(in alloc;
        "{path} is not there: a folder has the report of homerange as report.txt and its tracks in tracks"
    ) {
        Ok(text) => Stop::Folder(text),
        Err(_no_memory) => Stop::OutOfMemory,
    }
}

// The bytes of a file that has to be there.
fn bytes_of<R: Files + AllocGlobal>(rt: &R, path: &str) -> Result<Vec<u8>, Stop> {
    match bytes_if_there(rt, path)? {
        Some(bytes) => Ok(bytes),
        None => Err(missing(rt.alloc(), path)),
    }
}

// The name of an entry of a folder.
fn name_of<R: Files + AllocGlobal + Drop>(
    rt: &R,
    entry: io::Result<DirEntry<R>>,
) -> io::Result<String> {
    let entry = entry?;
    Ok(String::from_str(rt.alloc(), entry.file_name())?)
}

// The names of the files in a folder.
fn names_in<R: Files + AllocGlobal + Clone + Drop>(rt: &R, path: &str) -> io::Result<Vec<String>> {
    let mut names = Vec::new(rt.alloc());
    let entries = fs::read_dir(rt, path)?;
    for entry in entries {
        let name = name_of(rt, entry)?;
        names.push(name)?;
    }
    Ok(names)
}

// The track in a file of this name.
fn track_in<R: Files + AllocGlobal>(rt: &R, path: &str, name: &str) -> Result<Track, Stop> {
    let path = format!(in rt.alloc(); "{path}/{name}")?;
    Ok(Track {
        file: String::from_str(rt.alloc(), name)?,
        bytes: bytes_of(rt, &path)?,
    })
}

// The tracks in the files of these names that are files of tracks.
fn tracks_of<R: Files + AllocGlobal>(
    rt: &R,
    path: &str,
    names: &[String],
) -> Result<Vec<Track>, Stop> {
    let mut tracks = Vec::new(rt.alloc());
    for name in names {
        if name.ends_with(TRACK) {
            tracks.push(track_in(rt, path, name)?)?;
        }
    }
    Ok(tracks)
}

// Tracks, if there are some.
fn some(tracks: Vec<Track>) -> Option<Vec<Track>> {
    if tracks.is_empty() {
        None
    } else {
        Some(tracks)
    }
}

// Whether a folder is at a path, and no link to one.
fn is_folder<R: Files + AllocGlobal>(rt: &R, path: &str) -> Result<bool, Stop> {
    match fs::symlink_metadata(rt, path) {
        Ok(found) if found.is_dir() => Ok(true),
        Ok(_other) => Err(no_folder(rt.alloc(), path)),
        Err(error) if error.kind() == ErrorKind::NotFound => Ok(false),
        Err(error) => Err(unread(rt.alloc(), path, &error)),
    }
}

// The tracks of a folder, if it is there and has some.
fn tracks_in<R: Files + AllocGlobal + Clone + Drop>(
    rt: &R,
    path: &str,
) -> Result<Option<Vec<Track>>, Stop> {
    if !is_folder(rt, path)? {
        return Ok(None);
    }
    match names_in(rt, path) {
        Ok(names) => Ok(some(tracks_of(rt, path, &names)?)),
        Err(error) => Err(unread(rt.alloc(), path, &error)),
    }
}

/// Reads the files of a folder.
///
/// # Errors
///
/// One is not there or cannot be read, or memory ran out.
pub(crate) fn read_folder<R: Files + AllocGlobal + Clone + Drop>(
    rt: &R,
    folder: &str,
) -> Result<FolderFiles, Stop> {
    let alloc = rt.alloc();
    let report = format!(in alloc; "{folder}/report.txt")?;
    let record = format!(in alloc; "{folder}/tracks/split.txt")?;
    let boundary = format!(in alloc; "{folder}/boundary.csv")?;
    let tracks = format!(in alloc; "{folder}/tracks")?;
    let tracks = tracks_in(rt, &tracks)?;
    Ok(FolderFiles {
        report: bytes_of(rt, &report)?,
        record: bytes_if_there(rt, &record)?,
        boundary: bytes_if_there(rt, &boundary)?,
        tracks,
    })
}
