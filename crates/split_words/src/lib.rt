//! The words of the program that makes tracks: the export, the folder and the options that they give, or why they are
//! refused.
#![tactic(auto)]

mod bounds;
mod choices;
mod columns;
mod command;
mod fault;
mod given;
mod help;
mod preset;
mod text;
mod times;
mod values;
mod version;
mod words;

pub use bounds::bound_of;
pub use choices::Choices;
pub use columns::NamedColumns;
pub use fault::WordFault;
pub use text::TextWords;
pub use times::refused_zone_name;
pub use version::VERSION;
pub use words::{Words, read_words};
