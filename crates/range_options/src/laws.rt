// The limits of a run as numbers.

ghost use Rattle.std.specs.Prelude.{◌≡◌};

use crate::limits::{
    BLOCK_LIMIT, DEPTH_LIMIT, FILE_LIMIT, LEVEL_COUNT_LIMIT, LEVEL_LIMIT, WORKER_LIMIT,
};

/// The limits of a run, as numbers: definitions take them from the code.
pub fn limits_are_these()
    ensures block { BLOCK_LIMIT ≡ 1024 }
    ensures depth { DEPTH_LIMIT ≡ 64 }
    ensures files { FILE_LIMIT ≡ 64 }
    ensures level_count { LEVEL_COUNT_LIMIT ≡ 8 }
    ensures level { LEVEL_LIMIT ≡ 100 }
    ensures workers { WORKER_LIMIT ≡ 8 }
{}
