//! The report of an analysis, byte for byte.
#![tactic(auto)]

mod laws;
mod parts;
mod report_lines;
mod report_text;

pub use laws::sizes_are_these;
pub use report_text::{report, report_parts};
