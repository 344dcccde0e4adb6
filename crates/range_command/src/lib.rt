//! A command line that is obeyed: the help or the version, or a run over the files of its words, or a refusal that is
//! told in one line and a status.
#![tactic(auto)]

mod bad_words;
mod command_line;
mod confirmed;
mod exit_status;
mod file_run;
mod opened_files;
mod opener;
mod outlet;
mod output;
mod program;
mod reason;
mod refusal;
mod refusal_text;
mod retry;
mod source;

pub use confirmed::Confirmed;
pub use exit_status::{answer, answer_to};
pub use opener::{OpenFault, Opener, SystemFiles};
pub use outlet::Outlet;
pub use output::Output;
pub use program::obey;
pub use refusal::Refusal;
pub use refusal_text::refusals_are_one_line;
