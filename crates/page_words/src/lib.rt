//! The words of the command line of `homerange-page`.
#![tactic(auto)]

mod command;
mod fault;
mod help;
mod values;
mod version;
mod words;

pub use fault::WordFault;
pub use words::{PageWords, read_words};
