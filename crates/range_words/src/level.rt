// Levels of percent polygons in a text.

ghost use Rattle.std.specs.Prelude.{◌≡◌, ◌≤◌, Some, map, take, length, IfOk, IfErr};
ghost use Rattle.range_options.specs.Levels.{AreLevels};
ghost use Rattle.range_options.specs.Limits.{level_count_limit};
ghost use Rattle.range_words.specs.FaultText.{level_text};
ghost use Rattle.range_words.specs.LevelList.{IsRefusedFor, level_in, parts};

use range_numbers::value_of;
use range_options::{LEVEL_COUNT_LIMIT, LEVEL_LIMIT};
use std::alloc::Allocator;
use std::fmt;
use thiserror::Error;

/// Why a text is no list of levels. Its text counts the levels from 1.
#[derive(Clone, Copy, PartialEq, Eq, Debug, Error)]
pub enum LevelFault {
    OutOfMemory,
    /// The part at this index, counted from 0, is no number from 1 to 100.
    BadLevel { index: u32 },
    /// There are more than eight parts, and the first eight are good.
    TooMany,
}

impl fmt::Display for LevelFault {
    ghost output = { λ fault. Some (level_text fault) };

    fn fmt<W: fmt::Write>(&self, f: &mut fmt::Formatter<W>) -> fmt::Result {
        match *self {
            LevelFault::OutOfMemory => write!(f, "out of memory"),
            LevelFault::BadLevel { index } => {
                let part = u64::from(index) + 1;
                write!(
                    f,
                    "level {part} is not a whole number from 1 to {LEVEL_LIMIT}"
                )
            }
            LevelFault::TooMany => write!(f, "more than {LEVEL_COUNT_LIMIT} levels"),
        }
    }
}

/// The levels in a text, in its order: 1 to 8 numbers from 1 to 100, separated by commas. A number is
/// digits alone, and may begin with zeros. The first bad part decides; a ninth part is not read.
pub fn levels<A: Allocator>(alloc: A, text: &[u8]) -> Result<Vec<u8, A>, LevelFault>
    ensures values { IfOk result (λ levels. map level_in (parts text.now) ≡ map Some levels.items) }
    ensures count { IfOk result (λ levels. (1 ≤ length levels.items)
        × (length levels.items ≤ level_count_limit)) }
    ensures range { IfOk result (λ levels. AreLevels levels.items) }
    ensures refused { IfErr result (λ fault. IsRefusedFor fault (parts text.now)) }
{
    let mut levels = [0; LEVEL_COUNT_LIMIT];
    let count = read_levels(text, &mut levels)?;
    match Vec::from_slice(alloc, &levels[..count]) {
        Ok(levels) => Ok(levels),
        Err(_) => Err(LevelFault::OutOfMemory),
    }
}

// Writes the levels in a text to the front of `levels`, and says how many they are.
fn read_levels(text: &[u8], levels: &mut [u8; LEVEL_COUNT_LIMIT]) -> Result<usize, LevelFault>
    ensures count { IfOk result (λ count. (count ≡ length (parts text.now))
        × (count ≤ level_count_limit)) }
    ensures values { IfOk result (λ count. map level_in (parts text.now)
        ≡ map Some (take count levels.new)) }
    ensures refused { IfErr result (λ fault. IsRefusedFor fault (parts text.now)) }
{
    let mut count = 0;
    for part in text.split(|byte| *byte == b',') {
        if count == LEVEL_COUNT_LIMIT {
            return Err(LevelFault::TooMany);
        }
        let Some(level) = level_in(part) else {
            return Err(LevelFault::BadLevel {
                index: count as u32,
            });
        };
        levels[count] = level;
        count += 1;
    }
    Ok(count)
}

// The level that a part writes, if it writes one.
fn level_in(part: &[u8]) -> Option<u8>
    ensures { result ≡ level_in part.now }
{
    let Some(value) = value_of(part, u64::from(LEVEL_LIMIT)) else {
        return None;
    };
    if (1..=u64::from(LEVEL_LIMIT)).contains(&value) {
        Some(value as u8)
    } else {
        None
    }
}
