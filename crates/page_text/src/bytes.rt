// Bytes of texts.

ghost use Rattle.std.specs.Prelude.{◌≡◌, ◌++◌, OnOk, slice_index};

use std::alloc::AllocError;

// The byte at a place, or 0 behind the last.
pub(crate) fn byte_at(text: &[u8], place: usize) -> u8
    ensures { result ≡ slice_index text.now place }
{
    text.get(place).copied().unwrap_or(0)
}

// Appends words.
pub(crate) fn push(text: &mut Vec<u8>, words: &str) -> Result<(), AllocError>
    ensures { OnOk result (text.new.items ≡ text.old.items ++ words.now) }
{
    text.extend_from_slice(words.as_bytes())
}
