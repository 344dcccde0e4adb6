//! Texts of users, such as paths and names, as they are shown in messages of one line.
#![tactic(auto)]

mod laws;
mod one_line;
mod seen;

pub use laws::{
    joined_lines_are_one_line, numbers_are_one_line, printable_texts_are_one_line,
    shown_names_are_one_line, shown_texts_are_one_line, shown_texts_differ,
};
pub use one_line::{Name, OneLine};
pub use seen::is_unseen;
