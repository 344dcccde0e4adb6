// Columns with the minutes of degrees, or with their seconds.

use crate::axes::is_of_degrees;
use crate::dictionary::{MINUTES, MINUTES_OF_AXES, PARTS_OF_DEGREES, SECONDS};
use crate::words::has_word;

/// Whether a title is that of a column with minutes of degrees, or with their seconds.
pub fn is_of_minutes(title: &[u8]) -> bool {
    let is_part = has_word(title, &MINUTES)
        || has_word(title, &SECONDS)
        || has_word(title, &PARTS_OF_DEGREES);
    has_word(title, &MINUTES_OF_AXES) || is_part && is_of_degrees(title)
}
