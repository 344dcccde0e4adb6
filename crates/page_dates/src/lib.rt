//! Dates of the page and of its tables: days of the calendar, by the clock of a place, and days of a start that files have of
//! their own.
#![tactic(auto)]

mod calendar;
mod dates;
mod laws;

pub use calendar::{END_OF_DAYS, date_of_day};
pub use dates::{push_date, push_day, push_period};
pub use laws::{days_are_of_the_calendar, end_of_days_is_this};
