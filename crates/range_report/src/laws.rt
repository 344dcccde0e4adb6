// The size of a part of the report as a number.

ghost use Rattle.std.specs.Prelude.{◌≡◌};

use crate::parts::PART_LINES;

/// How many rows or corners a part has at most, as a number: definitions take it from the code.
pub fn sizes_are_these()
    ensures part { PART_LINES ≡ 8192 }
{}
