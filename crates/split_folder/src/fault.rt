// Why a folder is not written.

use crate::step::Step;
use std::io;

/// The step at which writing stopped, and why.
#[derive(Clone, Copy, Debug)]
pub(crate) struct Stop {
    pub(crate) step: Step,
    pub(crate) error: io::Error,
}

/// Why a folder is not written. A file is told by its index among those that are handed in.
#[derive(Clone, Copy, Debug)]
pub enum FolderFault {
    /// This file has a name that no file of a folder can have.
    BadName {
        file: usize,
    },
    /// This file has the name of an earlier one.
    SameName {
        file: usize,
        before: usize,
    },
    /// A step failed. Nothing is left, unless removing failed too: then `left` says why.
    Failed {
        step: Step,
        error: io::Error,
        left: Option<io::Error>,
    },
}
