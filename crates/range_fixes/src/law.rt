// What a reading says of each record, and the counts of fields and the limit of names as numbers.

ghost use Rattle.std.specs.Prelude.{◌≡◌};
ghost use Rattle.range_fixes.specs.Law.{ReadsExactly};

use crate::checks::{FIELD_COUNT, FIELD_COUNT_WITH_USE, NAME_LIMIT};

/// How many fields a record has, without the column `use` and with it, and the most bytes of a name, as
/// numbers: definitions take them from the code.
pub fn limits_are_these()
    ensures fields { FIELD_COUNT ≡ 4 }
    ensures fields_with_use { FIELD_COUNT_WITH_USE ≡ 5 }
    ensures name { NAME_LIMIT ≡ 32 }
{}

/// What a file says is exact: without a header nothing; below it, the fixes are those of the used records
/// that pass, up to the first fault, to the limit or to the end, and the animal is the name in the
/// first of them.
pub fn reads_exactly()
    ensures { ReadsExactly }
{}
