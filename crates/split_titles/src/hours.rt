// Columns with the hours of times.

use crate::dictionary::TIMES;
use crate::words::{behind, is_one_of, is_one_word, next_word, word_from};

// Short names of hours, behind a word for the time.
const SHORT_HOURS: [&str; 8] = ["h", "hr", "hrs", "hour", "hours", "std", "u", "uur"];

// Whether a text has a short name of hours, and no other word.
fn is_short(text: &[u8]) -> bool {
    is_one_word(text) && is_one_of(next_word(text, 0), &SHORT_HOURS)
}

/// Whether a title has a word for the time and behind it a short name of hours, and no other word, as `time [h]` and `Čas (h)`.
pub fn is_of_hours(title: &[u8]) -> bool {
    for place in 0..title.len() {
        let word = word_from(title, place);
        if !word.is_empty() {
            let rest = behind(title, place.saturating_add(word.len()));
            return is_one_of(word, &TIMES) && is_short(rest);
        }
    }
    false
}
