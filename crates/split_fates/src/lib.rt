//! From what the records of a table say to what became of each: which fixes are taken, on which grid, and in which track.
#![tactic(auto)]

mod choice;
mod fates;
mod laws;
mod marked;
mod projected;
mod shift;

pub use choice::Choice;
pub use fates::{FatesFault, fates_of, row_reason};
pub use laws::tracks_may_be_written;
pub use marked::{MarkedFault, marked_fixes};
pub use projected::{metres_moved, project_rows};
pub use shift::{Extent, extent_of, own_shift, shift_of, widened};
