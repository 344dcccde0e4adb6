// The levels of percent polygons.

ghost use Rattle.std.specs.Prelude.{◌≡◌, ◌↔◌, IfSome, IsSome};
ghost use Rattle.range_options.specs.Levels.{AreLevels};

use crate::limits::LEVEL_LIMIT;
use std::marker::Model;

/// The levels of percent polygons, in per cent of the fixes and in the order of the answer: numbers from 1 to
/// [`LEVEL_LIMIT`](crate::LEVEL_LIMIT).
#[derive(Drop)]
pub struct Levels {
    levels: Vec<u8>,
}

impl Model for Levels {
    ghost use Rattle.std.specs.Prelude.{List, ℕ};
    ghost use Rattle.range_options.specs.Levels.{AreLevels};

    ghost Value = { List ℕ };

    ghost view = { λ l. l.levels.items };

    ghost invariant = { λ l. AreLevels l.levels.items };
}

impl Levels {
    /// The levels of a list; `None` where one of them is outside its limits.
    pub fn new(levels: Vec<u8>) -> Option<Levels>
        ensures limits { IsSome result ↔ AreLevels levels.items }
        ensures value { IfSome result (λ l. l ≡ levels.items) }
    {
        if levels.iter().all(|level| (1..=LEVEL_LIMIT).contains(level)) {
            Some(Levels { levels })
        } else {
            None
        }
    }

    pub fn as_slice(&self) -> &[u8]
        ensures value { result.now ≡ self.now }
        ensures within { AreLevels self.now }
    {
        self.levels.as_slice()
    }
}
