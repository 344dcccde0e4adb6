// The words of the command line, as the system gives them.

use split_refusal::{Kind, Refusal};
use std::alloc::Global;
use std::env::{Env, FillError};

// What stands for the program's own name, which need not be text and is not read.
const PROGRAM: &str = "homerange-split";

// How many bytes a word has room for at first.
const FIRST_ROOM: usize = 256;

// The refusal of a word that is no text.
fn no_text(alloc: Global) -> Refusal {
    let text = "a word of the command line is not UTF-8";
    Refusal::new(alloc, Kind::Option, None, text.as_bytes())
}

/// The words of the command line, of which the first stands for the program's name.
///
/// # Errors
///
/// A word is not UTF-8, or memory ran out.
pub(crate) fn command_words<E: Env>(
    environment: &E,
    alloc: Global,
) -> Result<Vec<String>, Refusal> {
    let mut words = Vec::new(alloc);
    let Ok(program) = String::from_str(alloc, PROGRAM) else {
        return Err(Refusal::out_of_memory(alloc));
    };
    if words.push(program).is_err() {
        return Err(Refusal::out_of_memory(alloc));
    }
    for at in 1..usize::MAX {
        let Some(bytes) = word(environment, alloc, at)? else {
            return Ok(words);
        };
        let Ok(word) = String::from_utf8(bytes) else {
            return Err(no_text(alloc));
        };
        if words.push(word).is_err() {
            return Err(Refusal::out_of_memory(alloc));
        }
    }
    Ok(words)
}

// The bytes of a word; `None` where there are fewer words. The room is doubled until they fit.
fn word<E: Env>(environment: &E, alloc: Global, at: usize) -> Result<Option<Vec<u8>>, Refusal> {
    let mut room = FIRST_ROOM;
    for _ in 0..usize::BITS {
        let mut bytes = Vec::new(alloc);
        if bytes.resize(room, 0u8).is_err() {
            return Err(Refusal::out_of_memory(alloc));
        }
        match environment.arg(at, bytes.as_mut_slice()) {
            Ok(length) => {
                bytes.truncate(length);
                return Ok(Some(bytes));
            }
            Err(FillError::NotPresent) => return Ok(None),
            Err(FillError::TooLong) => room = room.saturating_mul(2),
        }
    }
    Err(Refusal::out_of_memory(alloc))
}
