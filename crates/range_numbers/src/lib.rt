//! Whole numbers in decimal digits, as files and lists of levels have them.
#![tactic(auto)]

mod groups;
mod number;

pub use number::{VALUE_LIMIT, value_of};
