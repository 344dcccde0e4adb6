//! The files that tracks are written to: their text, and that the reader of files reads it back.
#![tactic(auto)]

mod laws;
mod text;

pub use laws::tracks_are_read_back;
pub use text::{MarkedFix, track_text};
