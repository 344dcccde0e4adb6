//! Which fixes are wanted by what a record says of their sensor, their quality and their time: the filters that look at one
//! fix alone.
#![tactic(auto)]

mod filters;
mod words;

pub use filters::{Filters, is_of_sensor, left_for};
pub use words::{ARGOS, class_name, is_known_class, is_one_of, sensor_name};
