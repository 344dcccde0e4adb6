// The limit of numbers in a record, for who reads what is promised.

ghost use Rattle.std.specs.Prelude.{◌≡◌};

use crate::fields::MOST;

/// The greatest count of a record, and by how many metres coordinates are shifted at most, as a number: definitions take it from the
/// code.
pub fn limits_are_these()
    ensures { MOST ≡ 999_999_999 }
{}
