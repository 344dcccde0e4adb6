// Lists of words.

ghost use Rattle.std.specs.Prelude.{◌≡◌, ◌++◌, OnOk, map};
ghost use Rattle.page_text.specs.Figures.{between, listed};

use crate::bytes::push;
use std::alloc::AllocError;

/// What stands between a word and so many behind it: commas, and 'and' before the last.
pub fn between(left: usize) -> &'static str
    ensures { result.now ≡ between left }
{
    match left {
        0 => "",
        1 => " and ",
        _ => ", ",
    }
}

/// Appends words with commas, and 'and' before the last.
///
/// # Errors
///
/// Memory ran out.
pub fn push_listed(text: &mut Vec<u8>, words: &[&[u8]]) -> Result<(), AllocError>
    ensures { OnOk result (text.new.items ≡ text.old.items ++ listed (map (λ word. word.now) words.now)) }
{
    for (place, word) in words.iter().enumerate() {
        text.extend_from_slice(word)?;
        push(text, between(words.len() - place - 1))?;
    }
    Ok(())
}
