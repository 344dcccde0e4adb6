// Why nothing is written, and how it is told.

use page_files::PageFault;
use page_words::WordFault;
use range_texts::OneLine;
use std::alloc::{AllocError, AllocFailed, Global};
use std::io;
use std::io::{ErrorKind, Write};

// What is said where there is no memory.
const NO_MEMORY: &[u8] = b"homerange-page: not enough memory\n";

/// Why nothing is written.
#[derive(Drop)]
pub(crate) enum Stop {
    OutOfMemory,
    /// The words of the command line are refused, for this reason.
    Words(String),
    /// A file of the folder cannot be read, or is not right, for this reason.
    Folder(String),
    /// A file cannot be written, for this reason.
    Output(String),
}

impl From<AllocError> for Stop {
    fn from(_refused: AllocError) -> Stop {
        Stop::OutOfMemory
    }
}

impl<T: Drop> From<AllocFailed<T>> for Stop {
    fn from(_refused: AllocFailed<T>) -> Stop {
        Stop::OutOfMemory
    }
}

impl From<PageFault> for Stop {
    fn from(fault: PageFault) -> Stop {
        match fault {
            PageFault::OutOfMemory => Stop::OutOfMemory,
            PageFault::Refused(text) => Stop::Folder(text),
        }
    }
}

// The first line of what `clap` says of words, without the word `error` before it.
fn first_line(text: &str) -> &str {
    let text = text.strip_prefix("error: ").unwrap_or(text);
    match text.split_once('\n') {
        Some((first, _)) => first,
        None => text,
    }
}

/// Why words are refused that ask neither for help nor for the version.
pub(crate) fn refused_words(alloc: Global, fault: &WordFault) -> Stop {
    let text = match fault {
        WordFault::BadWords(text) => first_line(text),
        WordFault::BadValue(text) | WordFault::Help(text) | WordFault::Version(text) => text,
        WordFault::OutOfMemory => return Stop::OutOfMemory,
    };
    match String::from_str(alloc, text) {
        Ok(text) => Stop::Words(text),
        Err(AllocError) => Stop::OutOfMemory,
    }
}

// The system's reason for an error at a path, without its number.
fn reason_of(alloc: Global, path: &str, error: &io::Error) -> Result<String, AllocError> {
    let text = format!(in alloc; "{path}: {error}")?;
    match text.as_str().rsplit_once(" (os error ") {
        Some((reason, _)) => String::from_str(alloc, reason),
        None => Ok(text),
    }
}

/// That a file of the folder cannot be read.
pub(crate) fn unread(alloc: Global, path: &str, error: &io::Error) -> Stop {
    match reason_of(alloc, path, error) {
        Ok(text) if error.kind() != ErrorKind::OutOfMemory => Stop::Folder(text),
        _ => Stop::OutOfMemory,
    }
}

/// That a file cannot be written.
pub(crate) fn unwritten(alloc: Global, path: &str, error: &io::Error) -> Stop {
    match reason_of(alloc, path, error) {
        Ok(text) if error.kind() != ErrorKind::OutOfMemory => Stop::Output(text),
        _ => Stop::OutOfMemory,
    }
}

// The line of a reason.
fn line_of(alloc: Global, text: &str) -> Result<String, AllocError> {
    let shown = OneLine::plain(text);
    format!(in alloc; "homerange-page: {shown}\n")
}

// Says a reason. Who does not take it cannot be told so.
fn say<X: Write>(alloc: Global, text: &str, errors: &mut X) {
    let _ = match line_of(alloc, text) {
        Ok(line) => errors.write_all(line.as_bytes()),
        Err(AllocError) => errors.write_all(NO_MEMORY),
    };
}

/// Says in one line why nothing is written, and gives the status of the program.
pub(crate) fn tell<X: Write>(alloc: Global, stop: &Stop, errors: &mut X) -> u8 {
    match stop {
        Stop::Folder(text) => {
            say(alloc, text, errors);
            1
        }
        Stop::Words(text) => {
            say(alloc, text, errors);
            2
        }
        Stop::OutOfMemory => {
            let _ = errors.write_all(NO_MEMORY);
            3
        }
        Stop::Output(text) => {
            say(alloc, text, errors);
            4
        }
    }
}
