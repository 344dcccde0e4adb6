//! The tables and the page of a folder, of the bytes of its files: the report, the record of tracks, the tracks and a boundary.
#![tactic(auto)]

mod agree;
mod basis;
mod beside;
mod drawn;
mod fault;
mod given;
mod known;
mod made;
mod page;
mod sound;
mod told;
mod tracks;

pub use fault::PageFault;
pub use given::{Given, Track, Words};
pub use made::{Files, files_of};
