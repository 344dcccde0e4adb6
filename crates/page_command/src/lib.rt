//! A command line of `homerange-page` that is obeyed: the help or the version, or the tables and the page of a folder, or a refusal
//! that is told in one line and a status.
#![tactic(auto)]

mod clock;
mod exit_status;
mod folder;
mod make;
mod stop;
mod write;

pub use exit_status::answer;
