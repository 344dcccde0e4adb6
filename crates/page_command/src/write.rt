// The tables and the page, written into the folder. Each is written beside its place under another name and renamed last, so that
// none is there in part, and what a link in its place leads to stays as it is.

use crate::stop::{Stop, unwritten};
use page_files::Files as Made;
use std::alloc::Global;
use std::fs::{File, OpenFile};
use std::io::Write;
use std::rt::Files;
use std::{fs, io};

// A file that is to be written.
#[derive(Clone, Copy)]
struct NewFile<'a> {
    name: &'a str,
    text: &'a [u8],
}

// The path of a file in a folder that is in the making.
fn part_path(alloc: Global, folder: &str, name: &str) -> io::Result<String> {
    Ok(format!(in alloc; "{folder}/.{name}.part")?)
}

// Writes a file beside its place. What a run that was cut off left there goes.
fn write_part<R: Files + AllocGlobal>(rt: &R, folder: &str, new: NewFile<'_>) -> io::Result<()> {
    let path = part_path(rt.alloc(), folder, new.name)?;
    let _ = fs::remove_file(rt, path.as_str());
    let mut file = File::create_new(rt, path.as_str())?;
    file.write_all(new.text)?;
    file.sync_all()
}

// Puts a file in its place.
fn put_part<R: Files + AllocGlobal>(rt: &R, folder: &str, name: &str) -> io::Result<()> {
    let place = format!(in rt.alloc(); "{folder}/{name}")?;
    let part = part_path(rt.alloc(), folder, name)?;
    fs::rename(rt, part.as_str(), place.as_str())
}

// Removes what was written beside its place, as far as that can be done.
fn remove_part<R: Files + AllocGlobal>(rt: &R, folder: &str, name: &str) {
    if let Ok(path) = part_path(rt.alloc(), folder, name) {
        let _ = fs::remove_file(rt, path.as_str());
    }
}

// Writes all files beside their places.
fn write_parts<R: Files + AllocGlobal>(
    rt: &R,
    folder: &str,
    files: &[NewFile<'_>],
) -> Result<(), Stop> {
    for file in files {
        if let Err(error) = write_part(rt, folder, *file) {
            return Err(unwritten_in(rt, folder, file.name, &error));
        }
    }
    Ok(())
}

// Puts all files in their places.
fn put_parts<R: Files + AllocGlobal>(
    rt: &R,
    folder: &str,
    files: &[NewFile<'_>],
) -> Result<(), Stop> {
    for file in files {
        if let Err(error) = put_part(rt, folder, file.name) {
            return Err(unwritten_in(rt, folder, file.name, &error));
        }
    }
    Ok(())
}

// Removes what was written beside the places of files.
fn remove_parts<R: Files + AllocGlobal>(rt: &R, folder: &str, files: &[NewFile<'_>]) {
    for file in files {
        remove_part(rt, folder, file.name);
    }
}

// That a file of a folder cannot be written.
fn unwritten_in<R: Files + AllocGlobal>(
    rt: &R,
    folder: &str,
    name: &str,
    error: &io::Error,
) -> Stop {
    match format!(in rt.alloc(); "{folder}/{name}") {
        Ok(path) => unwritten(rt.alloc(), &path, error),
        Err(_no_memory) => Stop::OutOfMemory,
    }
}

/// Writes the tables and the page into a folder.
///
/// # Errors
///
/// A file cannot be written, or memory ran out. Then nothing that was in the making is left, and each file in its place is whole: the
/// old one or the new one.
pub(crate) fn write_files<R: Files + AllocGlobal>(
    rt: &R,
    folder: &str,
    made: &Made,
) -> Result<(), Stop> {
    let files = [
        NewFile {
            name: "summary.csv",
            text: &made.summary,
        },
        NewFile {
            name: "animals.csv",
            text: &made.animals,
        },
        NewFile {
            name: "overlaps.csv",
            text: &made.overlaps,
        },
        NewFile {
            name: "report.html",
            text: &made.page,
        },
    ];
    let written = write_parts(rt, folder, &files).and_then(|()| put_parts(rt, folder, &files));
    if written.is_err() {
        remove_parts(rt, folder, &files);
    }
    written
}
