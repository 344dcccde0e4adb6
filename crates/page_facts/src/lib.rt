//! The facts of each animal of a report, whole and exact: when its fixes were and whether that is a date, how its area grew, its
//! polygon at a level, and the count of each pair.
#![tactic(auto)]

mod dates;
mod facts;
mod growth;
mod intervals;
mod pairs;

pub use dates::{END_OF_DATES, FIRST_DATE, are_dates, bounds_of_dates_are_these};
pub use facts::{Facts, at_level, facts_of, second_of_fix};
pub use growth::Growth;
pub use pairs::count_of;
