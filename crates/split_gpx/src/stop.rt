// Why reading stops.

use crate::fault::{GpxCause, GpxFault};
use std::alloc::{AllocError, AllocFailed};

/// Why reading stops.
#[derive(Clone, Copy)]
pub(crate) enum Stop {
    OutOfMemory,
    NotGpx,
    NoPoints,
    /// This track has no name, of several.
    NoName { track: usize },
    /// What begins where this many bytes of the text are left is refused.
    Refused { left: usize, cause: GpxCause },
}

impl From<AllocError> for Stop {
    fn from(_refused: AllocError) -> Stop {
        Stop::OutOfMemory
    }
}

impl<T: Drop> From<AllocFailed<T>> for Stop {
    fn from(_refused: AllocFailed<T>) -> Stop {
        Stop::OutOfMemory
    }
}

/// A stop at what begins a rest of the text.
pub(crate) fn refused(rest: &[u8], cause: GpxCause) -> Stop {
    Stop::Refused {
        left: rest.len(),
        cause,
    }
}

// The line in which a rest of this length begins, from 1 on.
fn line_of(text: &[u8], left: usize) -> usize {
    let before = text.len().saturating_sub(left);
    let ends = text
        .iter()
        .take(before)
        .filter(|byte| **byte == b'\n')
        .count();
    ends.saturating_add(1)
}

impl Stop {
    /// Why a text is no GPX where reading it stops so.
    pub(crate) fn fault_in(self, text: &[u8]) -> GpxFault {
        match self {
            Stop::OutOfMemory => GpxFault::OutOfMemory,
            Stop::NotGpx => GpxFault::NotGpx,
            Stop::NoPoints => GpxFault::NoPoints,
            Stop::NoName { track } => GpxFault::NoName { track },
            Stop::Refused { left, cause } => GpxFault::Refused {
                line: line_of(text, left),
                cause,
            },
        }
    }
}
