//! The record of a folder of tracks, `split.txt`: of which export they were made, how, and by what.
#![tactic(auto)]

mod fates;
mod laws;
mod lines;
mod one_line;
mod reasons;
mod record;
mod sum;
mod text;

pub use fates::fates_text;
pub use laws::{
    each_line_is_one_that_was_given, lines_have_no_control_characters, lines_have_no_separators,
};
pub use one_line::push_one_line;
pub use reasons::reason_words;
pub use record::{ExportRead, Left, OptionGiven, Record, TrackMade};
pub use sum::sum_of;
pub use text::record_text;
