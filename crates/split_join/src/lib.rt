//! Several texts of tables with the same titles as the text of one table.
#![tactic(auto)]

mod check;
mod fault;
mod joined;
mod place;

pub use fault::JoinFault;
pub use joined::{Joined, join};
pub use place::place_of;
