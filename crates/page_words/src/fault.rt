// Why the words of the command line are refused.

use crate::help::{make_help, make_version};
use clap::Error;
use clap::error::ErrorKind;
use std::alloc::{AllocError, AllocFailed, Global};

/// Why the words of the command line are refused.
#[derive(Drop)]
pub enum WordFault {
    /// An allocation failed.
    OutOfMemory,
    /// Help was asked for. This is its text.
    Help(String),
    /// The version was asked for. This is its text.
    Version(String),
    /// The words are not the program's. This says so in several lines, as `clap` does.
    BadWords(String),
    /// The value of an option is none that it can have. This says so in one line.
    BadValue(String),
}

impl<T: Drop> From<AllocFailed<T>> for WordFault {
    fn from(_refused: AllocFailed<T>) -> WordFault {
        WordFault::OutOfMemory
    }
}

impl From<AllocError> for WordFault {
    fn from(_refused: AllocError) -> WordFault {
        WordFault::OutOfMemory
    }
}

// What a refusal by `clap` comes to.
pub(crate) fn fault_of(alloc: Global, error: &Error) -> WordFault {
    let told = match error.kind() {
        ErrorKind::OutOfMemory => Err(AllocError),
        ErrorKind::DisplayHelp => make_help(alloc).map(WordFault::Help),
        ErrorKind::DisplayVersion => make_version(alloc).map(WordFault::Version),
        _ => error.to_string(alloc).map(WordFault::BadWords),
    };
    told.unwrap_or(WordFault::OutOfMemory)
}

// The refusal of the value of an option, which has to be something else.
pub(crate) fn refused_value(alloc: Global, option: &str, value: &str, wanted: &str) -> WordFault {
    match format!(in alloc; "--{option}: '{value}' is not {wanted}") {
        Ok(words) => WordFault::BadValue(words),
        Err(AllocError) => WordFault::OutOfMemory,
    }
}
