// The limits of numbers in a report, for who reads what is promised.

ghost use Rattle.std.specs.Prelude.{◌≡◌};

use crate::fields::{MOST, MOST_COUNT, MOST_LEVEL};

/// The greatest number, count and level of a report, as numbers: definitions take them from the code.
pub fn limits_are_these()
    ensures number { MOST ≡ 1_152_921_504_606_846_975 }
    ensures count { MOST_COUNT ≡ 4_294_967_295 }
    ensures level { MOST_LEVEL ≡ 100 }
{}
