//! The chain from the bytes of an export, and what is asked of it, to the files of its tracks and what is said of them, or to
//! the reason why it is refused: all of it in memory.
#![tactic(auto)]

mod beside;
mod blank_names;
mod chain;
mod coarse;
mod deployments;
mod divisor;
mod halves;
mod joined;
mod laws;
mod minutes;
mod missing;
mod other_clocks;
mod other_times;
mod parts_beside;
mod passed;
mod placed;
mod predeployment;
mod read;
mod steps;
mod summers;
mod systems;
mod times;
mod units;
mod unknown_words;
mod wish;

pub use chain::{Split, split_export};
pub use laws::{
    every_record_of_a_split_has_one_place, records_of_a_split_add_up, splits_are_read_back,
};
pub use wish::Wish;
