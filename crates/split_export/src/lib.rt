//! From the text of an export to the files of its tracks, in memory: what its records say, read by the rules that its
//! titles and options come to, and of each animal the file of its fixes.
#![tactic(auto)]

mod asked;
mod export;
mod files;
mod flags_look;
mod laws;
mod look;
mod other_times;
mod rules;
mod spread;
mod swapped;
mod text;
mod times_look;
mod unmet;
mod unread;
mod unread_marks;
mod unread_moments;
mod unread_numbers;
mod unread_sides;
mod unread_times;
mod unread_words;
mod zeros;

pub use asked::Asked;
pub use export::{Export, ExportFault, has_commas, read_export, titles_of};
pub use files::{TrackFile, make_files};
pub use flags_look::{Flag, Flags, flags_in};
pub use laws::files_are_read_back;
pub use look::{Look, fields_of_record, look_at_metres, most_moved, part_alike};
pub use other_times::{Apart, Beyond, End, apart_in, beyond_in};
pub use rules::{NotTaken, rules_of};
pub use spread::lie_otherwise;
pub use swapped::{BothPlaces, are_turned, count_apart, first_of_both};
pub use text::{TextFault, text_fault};
pub use times_look::{TimesLook, first_of_utc, look_at_times};
pub use unmet::words_met;
pub use unread::{Texts, look_at_unread};
pub use unread_numbers::numbers_in;
pub use unread_times::column_of_times;
