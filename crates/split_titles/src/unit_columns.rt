// Columns that name the unit of coordinates.

use crate::dictionary::{DEGREES, METRES, OTHER_UNITS, UNITS};
use crate::units::known_unit;
use crate::words::has_word;

// Short names of metres and of degrees, beside the words for them.
const SHORT_METRES: [&str; 2] = ["m", "м"];

const SHORT_DEGREES: [&str; 4] = ["°", "º", "dec", "decimal"];

/// The unit that a text names.
#[derive(Clone, Copy, PartialEq, Eq, Debug)]
pub enum UnitNamed {
    Metres,
    Degrees,
    /// Another one of lengths.
    Length,
    /// Another one of angles.
    Angle,
}

/// Whether a title is that of a column with the unit of coordinates.
pub fn is_of_units(title: &[u8]) -> bool {
    has_word(title, &UNITS) && !has_word(title, &OTHER_UNITS)
}

// Whether a text is one of these, without blanks beside it.
fn is_text(text: &[u8], words: &[&str]) -> bool {
    words.iter().any(|own| text.trim_ascii().eq_ignore_ascii_case(own.as_bytes()))
}

/// The unit of lengths or angles that a text names, if it names one, and none of speeds, as `km/h`.
pub fn unit_named(text: &[u8]) -> Option<UnitNamed> {
    if text.contains(&b'/') {
        None
    } else if known_unit(text, true).is_some() {
        Some(UnitNamed::Length)
    } else if known_unit(text, false).is_some() {
        Some(UnitNamed::Angle)
    } else if has_word(text, &METRES) || is_text(text, &SHORT_METRES) {
        Some(UnitNamed::Metres)
    } else if has_word(text, &DEGREES) || is_text(text, &SHORT_DEGREES) {
        Some(UnitNamed::Degrees)
    } else {
        None
    }
}
