// The limits of a boundary, for who reads what is promised.

ghost use Rattle.std.specs.Prelude.{◌≡◌};

use crate::numbers::{MOST_DIGITS, PLACES};

/// How many digits the number of a ring and the metres of a coordinate have at most, and how many a coordinate has behind its
/// point, as numbers: definitions take them from the code.
pub fn limits_are_these()
    ensures digits { MOST_DIGITS ≡ 9 }
    ensures places { PLACES ≡ 3 }
{}
