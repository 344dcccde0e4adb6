// Names and other words, numbered in the order in which they first came.

ghost use Rattle.std.specs.Prelude.{◌≡◌, ◌≤◌, IfOk, OnOk, length};
ghost use Rattle.split_reading.specs.Words.{place_of, texts, with_word};

use indexmap::IndexSet;
use range_plane::OutOfMemory;
use std::alloc::Global;

// The number of a word that is there, or that is put behind all others.
pub(crate) fn number_of(
    alloc: Global,
    words: &mut IndexSet<Vec<u8>>,
    word: &[u8],
) -> Result<usize, OutOfMemory>
    ensures number { IfOk result (λ number. number ≡ place_of (texts words.old) word.now) }
    ensures within { IfOk result (λ number. number ≤ length (texts words.old)) }
    ensures words { OnOk result (texts words.new ≡ with_word (texts words.old) word.now) }
{
    if let Some(number) = words.get_index_of(word) {
        return Ok(number);
    }
    let number = words.len();
    let mut own = Vec::new(alloc);
    own.extend_from_slice(word)?;
    words.insert(own)?;
    Ok(number)
}
