//! How many records of each animal are left out, for each reason.
#![tactic(auto)]

mod counts;
mod laws;

pub use counts::{ALL_REASONS, REASONS, count_of, left_counts, reason_place};
pub use laws::{every_record_is_counted_once, one_animal_and_one_reason_are_counted};
