//! The program `homerange-split`: from the words of the command line to a folder of tracks, or to one line that says why there
//! is none.
#![tactic(auto)]

mod begins;
mod clock;
mod command_line;
mod exit_status;
mod folder;
mod machine;
mod read;
mod record;
mod run;
mod screen;
mod several;
mod stop;
mod text;

pub use exit_status::answer;
