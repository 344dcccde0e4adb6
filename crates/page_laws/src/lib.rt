//! That a report is read back.
#![tactic(auto)]

mod laws;

pub use laws::{a_report_is_read_back, reports_within_limits_are_read_back};
