// Columns that say which times are by the clock of a summer.

use crate::clock_words::has_time;
use crate::dictionary::{SUMMER_CLOCKS, SUMMER_FLAGS, SUMMERS};
use crate::words::has_word;

// The clock of Italy in the summer, beside a word for the time.
const OF_LAW: [&str; 1] = ["legale"];

/// Whether a title is that of a column that says which times are by the clock of a summer.
pub fn is_of_summer(title: &[u8]) -> bool {
    let is_beside = has_word(title, &SUMMERS) || has_word(title, &OF_LAW);
    let is_saving = has_word(title, &["daylight"]) && has_word(title, &["saving", "savings"]);
    let is_one = has_word(title, &SUMMER_FLAGS) || has_word(title, &SUMMER_CLOCKS);
    is_one || is_saving || is_beside && has_time(title)
}
