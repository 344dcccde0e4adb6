//! The words of the command line: the options and files that they give, or why they are refused.
#![tactic(auto)]

mod command;
mod defaults;
mod help;
mod laws;
mod level;
mod version;
mod words;

pub use laws::defaults_are_these;
pub use level::{LevelFault, levels};
pub use words::{WordFault, Words, read_words};
