//! What is odd about tracks: fixes that lie far from the others of an animal, and coordinates that can hardly be metres.
#![tactic(auto)]

mod axis;
mod boxes;
mod far;
mod gap;

pub use axis::Axis;
pub use boxes::{
    LEAST_FIXES, ends, extent_of_track, extent_of_tracks, great_axis, is_small_box, span,
};
pub use far::{FarFixes, far_fixes};
