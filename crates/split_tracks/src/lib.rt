//! The tracks of a table: what became of each of its records, and the entries of each animal in the order of time.
#![tactic(auto)]

mod fate;
mod laws;
mod tracks;

pub use fate::{Entry, Fate, Reason};
pub use laws::{every_record_has_one_place, tracks_are_in_the_order_of_time};
pub use tracks::tracks_of;
