//! The records of a table of text: what parts its fields, whether its quotes stand as they have to, and its titles and
//! records, one at a time.
#![tactic(auto)]

mod laws;
mod quotes;
mod separator;
mod table;

pub use laws::plain_records_are_lines;
pub use separator::separator_of;
pub use table::{Table, TableFault, TableText, without_mark};
