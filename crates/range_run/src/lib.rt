//! One run: from sources of fixes to a report that is written, or to a fault and its status.
#![tactic(auto)]

mod report_run;
mod run_fault;
mod written_text;

pub use report_run::{run, run_with_gate};
pub use run_fault::{RunFault, status};
pub use written_text::write_text;
