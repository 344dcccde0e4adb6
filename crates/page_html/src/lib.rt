//! The page of ranges: one file of HTML with nothing outside it and no script, of a report and what stands beside it.
#![tactic(auto)]

mod body;
mod head;
mod page;
mod template;
mod words;

pub use page::{Page, push_page};
pub use words::{Made, Words};
