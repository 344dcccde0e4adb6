// The size of the polygon within, as a number.

ghost use Rattle.std.specs.Prelude.{◌≡◌};

use crate::inner::INNER_CORNERS;

/// How many corners the polygon within has, as a number: definitions take it from the code.
pub fn sizes_are_these()
    ensures inner { INNER_CORNERS ≡ 12 }
{}
