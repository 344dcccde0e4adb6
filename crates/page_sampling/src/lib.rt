//! How the fixes of an animal lie in time and place: at how many places they are, which are there twice, in how few days half of
//! them are, the longest gap and the fastest step.
#![tactic(auto)]

mod places;
mod sampling;
mod steps;
mod times;

pub use places::{Places, places_of};
pub use sampling::{Sampling, sampling_of};
pub use steps::{Step, fastest_step};
pub use times::{Gap, PERIOD, Periods, longest_gap, periods_of};
