// The sizes of lists in pieces as numbers.

ghost use Rattle.std.specs.Prelude.{◌≡◌};

use crate::piece::PIECE_SIZE;

/// How many points a piece holds at most, as a number: definitions take it from the code.
pub fn sizes_are_these()
    ensures piece { PIECE_SIZE ≡ 256 }
{}
