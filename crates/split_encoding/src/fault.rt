// Why bytes are no text of an encoding.

use std::alloc::AllocError;

/// Why bytes are no text of an encoding.
#[derive(Clone, Copy, PartialEq, Eq, Debug)]
pub enum DecodeFault {
    OutOfMemory,
    /// UTF-16 or UTF-32, the order of whose bytes is not named, begins with no byte order mark.
    NoMark,
    /// What begins at this byte is no character of the encoding, or not a whole one. Bytes are counted from 0.
    NoCharacter { place: usize },
}

impl From<AllocError> for DecodeFault {
    fn from(_refused: AllocError) -> DecodeFault {
        DecodeFault::OutOfMemory
    }
}
