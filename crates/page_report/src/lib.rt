//! A report, read back: the fixes, rows, corners, percent polygons and overlaps that its text has.
#![tactic(auto)]

mod animal;
mod corner;
mod fields;
mod laws;
mod lines;
mod overlaps;
mod reading;
mod report;

pub use animal::ReadAnimal;
pub use corner::Corner;
pub use laws::limits_are_these;
pub use overlaps::Overlap;
pub use reading::ReadFault;
pub use report::{Report, read_report};
