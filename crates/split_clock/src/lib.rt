//! The clocks of places: when a clock showed a time, as the time zone database has it.
#![tactic(auto)]

mod clock;
mod name;
mod twice;

pub use clock::{Clock, ClockFault, Moments, ZONE_LIMIT};
pub use name::{NAME_LIMIT, is_zone_name};
pub use twice::{ClockMoment, NoMoment, clock_moment, moment_by};
