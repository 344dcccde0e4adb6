// What stands for options that are not given, as numbers.

ghost use Rattle.std.specs.Prelude.{◌≡◌};

use crate::defaults::{DEFAULT_BLOCK, DEFAULT_DEPTH, DEFAULT_WORKERS};

/// The defaults of the options that are numbers: definitions take them from the code.
pub fn defaults_are_these()
    ensures block { DEFAULT_BLOCK ≡ 256 }
    ensures depth { DEFAULT_DEPTH ≡ 4 }
    ensures workers { DEFAULT_WORKERS ≡ 2 }
{}
