//! The filters that look at more than one fix of a track: the greatest speed, and one fix in each piece of time.
#![tactic(auto)]

mod every;
mod filter;
mod laws;
mod leave;
mod speed;
mod values;

pub use filter::Filter;
pub use laws::{kept_are_reached, only_firsts_are_kept, tracks_are_filtered};
pub use leave::leave_out;
pub use speed::Speed;
pub use values::{LENGTH_LIMIT, SPEED_LIMIT, ValueFault, length_of, speed_of};
