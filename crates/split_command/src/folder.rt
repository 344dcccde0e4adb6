// The folder of tracks.

use crate::stop::Stop;
use split_chain::Split;
use split_folder::{FolderFault, Step, SystemFolder};
use split_output::{Origin, OutputFault, RECORD_NAME, names_of_split, write_split};
use split_refusal::{Kind, Refusal};
use std::alloc::{AllocError, Global};
use std::fs::File;
use std::io;
use std::io::ErrorKind;
use std::rt::Files;

// The system's reason for an error, without its number.
fn reason_of(alloc: Global, error: &io::Error) -> Result<String, AllocError> {
    let text = format!(in alloc; "{error}")?;
    if let Some((reason, _)) = text.as_str().split_once(" (os error ") {
        return String::from_str(alloc, reason);
    }
    Ok(text)
}

/// The refusal that a path cannot be used, for the system's reason. Where memory ran out it is that.
pub(crate) fn refused_path(alloc: Global, kind: Kind, path: &str, error: &io::Error) -> Refusal {
    if error.kind() == ErrorKind::OutOfMemory {
        return Refusal::out_of_memory(alloc);
    }
    let Ok(reason) = reason_of(alloc, error) else {
        return Refusal::out_of_memory(alloc);
    };
    match format!(in alloc; "{path}: {reason}") {
        Ok(text) => Refusal::new(alloc, kind, None, text.as_bytes()),
        Err(_) => Refusal::out_of_memory(alloc),
    }
}

// The refusal of a folder that is there.
fn is_there(alloc: Global, path: &str) -> Refusal {
    match format!(in alloc; "{path} is there already: remove it, or name another by --into") {
        Ok(text) => Refusal::new(alloc, Kind::Text, None, text.as_bytes()),
        Err(_) => Refusal::out_of_memory(alloc),
    }
}

/// Refuses a folder that is there, or of which the system cannot tell.
///
/// # Errors
///
/// Why it is refused.
pub(crate) fn refuse_there<R: Files + AllocGlobal>(rt: &R, path: &str) -> Result<(), Refusal> {
    let alloc = rt.alloc();
    let folder = SystemFolder::new(rt, path);
    match folder.is_there() {
        Ok(true) => Err(is_there(alloc, path)),
        Ok(false) => Ok(()),
        Err(error) => Err(refused_path(alloc, Kind::Output, path, &error)),
    }
}

// Whether an error says that the folder is there.
fn says_there(step: Step, kind: ErrorKind) -> bool {
    match step {
        Step::Make => kind == ErrorKind::AlreadyExists,
        Step::Add(_) => false,
        Step::Finish => {
            kind == ErrorKind::AlreadyExists
                || kind == ErrorKind::DirectoryNotEmpty
                || kind == ErrorKind::NotADirectory
        }
    }
}

// The path of a file in a folder: that of a track, or behind them that of the record.
fn path_in(alloc: Global, path: &str, split: &Split, file: usize) -> Result<String, OutputFault> {
    let names = names_of_split(alloc, split)?;
    let name = match names.get(file) {
        Some(name) => name.as_str(),
        None => RECORD_NAME,
    };
    match format!(in alloc; "{path}/{name}") {
        Ok(own) => Ok(own),
        Err(AllocError) => Err(OutputFault::OutOfMemory),
    }
}

// The refusal of a step that failed.
fn failed_step(alloc: Global, path: &str, split: &Split, step: Step, error: &io::Error) -> Refusal {
    if says_there(step, error.kind()) {
        return is_there(alloc, path);
    }
    let Step::Add(file) = step else {
        return refused_path(alloc, Kind::Output, path, error);
    };
    match path_in(alloc, path, split, file) {
        Ok(own) => refused_path(alloc, Kind::Output, own.as_str(), error),
        Err(_) => Refusal::out_of_memory(alloc),
    }
}

// The refusal of a name of a file, which the names of animals never come to.
fn bad_name(alloc: Global, path: &str) -> Refusal {
    match format!(in alloc; "{path}: a name of a file cannot be right") {
        Ok(text) => Refusal::new(alloc, Kind::Name, None, text.as_bytes()),
        Err(_) => Refusal::out_of_memory(alloc),
    }
}

// Why the folder of a split is not written.
fn refused_output(alloc: Global, path: &str, split: &Split, fault: &OutputFault) -> Refusal {
    match fault {
        OutputFault::OutOfMemory => Refusal::out_of_memory(alloc),
        OutputFault::Folder(FolderFault::Failed { step, error, .. }) => {
            failed_step(alloc, path, split, *step, error)
        }
        _ => bad_name(alloc, path),
    }
}

// Whether something is left of a folder.
fn is_left(fault: &OutputFault) -> bool {
    match fault {
        OutputFault::Folder(FolderFault::Failed { left, .. }) => left.is_some(),
        _ => false,
    }
}

/// Writes the folder of tracks at a path, which were made of this.
///
/// # Errors
///
/// Why it is not written. Then nothing is left of it, or it says what is.
pub(crate) fn write_tracks<R: Files + AllocGlobal>(
    rt: &R,
    path: &str,
    origin: &Origin<'_>,
    split: &Split,
) -> Result<(), Stop> {
    let alloc = rt.alloc();
    let mut folder = SystemFolder::new(rt, path);
    match write_split(alloc, &mut folder, origin, split) {
        Ok(()) => Ok(()),
        Err(fault) => Err(Stop {
            refusal: refused_output(alloc, path, split, &fault),
            left: if is_left(&fault) {
                folder.into_left()
            } else {
                None
            },
        }),
    }
}
