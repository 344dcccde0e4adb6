// A folder that the system makes.
//
// It is made beside its place, under a name of its own, and renamed last: where the machine is switched off or the
// program is killed meanwhile, nothing has the name of the folder, and `.NAME.part-1` is left, which no run takes for
// tracks. Each file is brought to the disk before it counts as added, since else a folder could be in its place whose
// files are still empty; that also tells failures that the system keeps back until a file is closed.
//
// A folder that appears in its place meanwhile is seen by a look before the rename. Between the look and the rename the
// system itself refuses to replace a file, a link, or a folder that holds anything; only an empty folder that another
// made in that moment would be replaced. The library has no call that renames to a new name alone.

use crate::folder::Folder;
use crate::names::is_plain;
use std::fs::{File, OpenFile};
use std::io::{ErrorKind, Write};
use std::rt::Files;
use std::{fs, io};

// The number that Linux gives to what is there already.
const IS_THERE: i32 = 17;

// The number that Linux gives to a parent that is no folder.
const NOT_A_DIRECTORY: i32 = 20;

// The number that Linux gives to a path that cannot be that of a new folder.
const BAD_PATH: i32 = 22;

// How many names are tried for the folder in the making.
const NAMES: u32 = 100;

/// The folder of a path, made by the system. No contract knows what it holds.
#[derive(Drop)]
pub struct SystemFolder<'a, R> {
    runtime: &'a R,
    path: &'a str,
    // The path of the folder in the making.
    part: Option<String>,
    // The paths of the parents that were made, in this order.
    parents: Vec<String>,
}

impl<'a, R: Files + AllocGlobal> SystemFolder<'a, R> {
    /// A folder of which nothing was made yet. Slashes at the end of its path do not count.
    pub fn new(runtime: &'a R, path: &'a str) -> SystemFolder<'a, R> {
        SystemFolder {
            runtime,
            path: without_end(path),
            part: None,
            parents: Vec::new(runtime.alloc()),
        }
    }

    /// Whether anything is in its place: a link counts, also one that leads nowhere.
    ///
    /// # Errors
    ///
    /// Why the system cannot tell, such as a parent that is a file.
    pub fn is_there(&self) -> io::Result<bool> {
        match fs::symlink_metadata(self.runtime, self.path) {
            Ok(_) => Ok(true),
            Err(error) if error.kind() == ErrorKind::NotFound => Ok(false),
            Err(error) => Err(error),
        }
    }

    /// The path of what is left of the folder: the folder in the making, or else the last parent that was made; none where nothing
    /// is left. A folder that was put in its place is not left.
    pub fn into_left(self) -> Option<String> {
        let SystemFolder {
            part,
            mut parents,
            ..
        } = self;
        match part {
            Some(part) => Some(part),
            None => parents.pop(),
        }
    }

    // An error where anything is in its place.
    fn expect_place(&self) -> io::Result<()> {
        if self.is_there()? {
            return Err(io::Error::from_raw_os_error(IS_THERE));
        }
        Ok(())
    }

    // Makes each parent that is missing.
    fn make_parents(&mut self) -> io::Result<()> {
        for end in 1..self.path.len() {
            if let Some((parent, rest)) = self.path.split_at_checked(end) {
                if rest.starts_with('/') {
                    self.make_parent(parent)?;
                }
            }
        }
        Ok(())
    }

    // Makes a parent if it is missing, and keeps that it was made.
    fn make_parent(&mut self, parent: &str) -> io::Result<()> {
        if is_folder(self.runtime, parent) {
            return Ok(());
        }
        let own = String::from_str(self.runtime.alloc(), parent)?;
        self.parents.push(own)?;
        match fs::create_dir(self.runtime, parent) {
            Ok(()) => Ok(()),
            Err(error) => {
                self.parents.pop();
                expect_folder(self.runtime, parent, error)
            }
        }
    }

    // Makes the folder beside its place, under the first name that is free.
    fn make_part(&mut self) -> io::Result<()> {
        for number in 1..=NAMES {
            let part = self.part_path(number)?;
            match fs::create_dir(self.runtime, part.as_str()) {
                Ok(()) => {
                    self.part = Some(part);
                    return Ok(());
                }
                Err(error) if error.kind() == ErrorKind::AlreadyExists => {}
                Err(error) => return Err(error),
            }
        }
        Err(io::Error::from(ErrorKind::ResourceBusy))
    }

    // The path of the folder in the making, of this number.
    fn part_path(&self, number: u32) -> io::Result<String> {
        let alloc = self.runtime.alloc();
        let path = match self.path.rsplit_once('/') {
            Some((parent, name)) => format!(in alloc; "{parent}/.{name}.part-{number}")?,
            None => format!(in alloc; ".{}.part-{number}", self.path)?,
        };
        Ok(path)
    }

    // The path of the folder in the making.
    fn part(&self) -> io::Result<&str> {
        match &self.part {
            Some(part) => Ok(part.as_str()),
            None => Err(io::Error::from(ErrorKind::NotFound)),
        }
    }

    // Removes the parents that were made, the last first, unless others have put something there.
    fn remove_parents(&mut self) -> io::Result<()> {
        for _ in 0..self.parents.len() {
            if let Some(parent) = self.parents.last() {
                remove_empty(self.runtime, parent.as_str())?;
            }
            self.parents.pop();
        }
        Ok(())
    }
}

impl<R: Files + AllocGlobal> Folder for SystemFolder<'_, R> {
    fn make(&mut self) -> io::Result<()> {
        self.expect_place()?;
        if !is_plain(name_of(self.path)) {
            return Err(io::Error::from_raw_os_error(BAD_PATH));
        }
        self.make_parents()?;
        self.make_part()
    }

    fn add(&mut self, name: &str, text: &[u8]) -> io::Result<()> {
        let alloc = self.runtime.alloc();
        let path = format!(in alloc; "{}/{name}", self.part()?)?;
        let mut file = File::create_new(self.runtime, path.as_str())?;
        file.write_all(text)?;
        file.sync_all()
    }

    fn finish(&mut self) -> io::Result<()> {
        sync_folder(self.runtime, self.part()?);
        self.expect_place()?;
        fs::rename(self.runtime, self.part()?, self.path)?;
        self.part = None;
        self.parents.clear();
        Ok(())
    }

    fn remove(&mut self) -> io::Result<()> {
        if let Some(part) = &self.part {
            fs::remove_dir_all(self.runtime, part.as_str())?;
        }
        self.part = None;
        self.remove_parents()
    }
}

// A path without slashes at its end, but for that of the root.
fn without_end(path: &str) -> &str {
    let trimmed = path.trim_end_matches('/');
    if trimmed.is_empty() { path } else { trimmed }
}

// The name at the end of a path.
fn name_of(path: &str) -> &str {
    match path.rsplit_once('/') {
        Some((_, name)) => name,
        None => path,
    }
}

fn is_folder<R: Files>(rt: &R, path: &str) -> bool {
    match fs::metadata(rt, path) {
        Ok(metadata) => metadata.is_dir(),
        Err(_) => false,
    }
}

// A parent that could not be made for this reason may be there by now, made by another. What is no folder is told as
// such, and not as if the folder were there.
fn expect_folder<R: Files>(rt: &R, parent: &str, error: io::Error) -> io::Result<()> {
    if is_folder(rt, parent) {
        return Ok(());
    }
    if error.kind() == ErrorKind::AlreadyExists {
        return Err(io::Error::from_raw_os_error(NOT_A_DIRECTORY));
    }
    Err(error)
}

// Removes a folder that holds nothing.
fn remove_empty<R: Files>(rt: &R, path: &str) -> io::Result<()> {
    match fs::remove_dir(rt, path) {
        Err(error) if is_kept(error.kind()) => Ok(()),
        removed => removed,
    }
}

// Whether a folder is not there any more, or holds something.
fn is_kept(kind: ErrorKind) -> bool {
    kind == ErrorKind::NotFound || kind == ErrorKind::DirectoryNotEmpty
}

// Brings the names of files to the disk, where the file system can do that for a folder: some have no such call.
fn sync_folder<R: Files>(rt: &R, path: &str) {
    if let Ok(folder) = File::open(rt, path) {
        folder.sync_all().ok();
    }
}
