// The words of the command line, as the system gives them.

ghost use Rattle.std.specs.Prelude.{IfErr};
ghost use Rattle.range_command.specs.Command.{IsOfSystem};

use crate::refusal::Refusal;
use std::alloc::Global;
use std::env::{Env, FillError};

// What stands for the program's own name, which need not be text and is not read.
const PROGRAM: &str = "homerange";

// How many bytes a word has room for at first.
const FIRST_ROOM: usize = 256;

/// The words of the command line, of which the first stands for the program's name.
///
/// # Errors
///
/// The first word that is not UTF-8; or that memory ran out.
pub(crate) fn command_words<E: Env>(env: &E, alloc: Global) -> Result<Vec<String>, Refusal>
    ensures { IfErr result IsOfSystem }
{
    let Ok(mut words) = vec![in alloc; String::from_str(alloc, PROGRAM)?] else {
        return Err(Refusal::OutOfMemory);
    };
    for at in 1..usize::MAX {
        let Some(bytes) = word(env, alloc, at)? else {
            break;
        };
        let Ok(word) = String::from_utf8(bytes) else {
            return Err(Refusal::NotText { word: at });
        };
        if words.push(word).is_err() {
            return Err(Refusal::OutOfMemory);
        }
    }
    Ok(words)
}

// The bytes of a word; `None` where there are fewer words. The room is doubled until they fit.
fn word<E: Env>(env: &E, alloc: Global, at: usize) -> Result<Option<Vec<u8>>, Refusal>
    ensures { IfErr result IsOfSystem }
{
    let mut room = FIRST_ROOM;
    for _ in 0..usize::BITS {
        let mut bytes = Vec::new(alloc);
        bytes.resize(room, 0u8)?;
        match env.arg(at, bytes.as_mut_slice()) {
            Ok(length) => {
                bytes.truncate(length);
                return Ok(Some(bytes));
            }
            Err(FillError::NotPresent) => return Ok(None),
            Err(FillError::TooLong) => room = room.saturating_mul(2),
        }
    }
    Err(Refusal::OutOfMemory)
}
