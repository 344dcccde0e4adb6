// What names have in common that differ in capitals or in the form of letters alone.

ghost use Rattle.std.specs.Prelude.{◌≡◌, IfOk, chars, encode_utf8_all, string_bytes};
ghost use Rattle.caseless.specs.Caseless.{canonical_key};
ghost use Rattle.split_names.specs.Names.{folded};

use caseless::default_case_fold_str;
use range_plane::OutOfMemory;
use std::alloc::Global;
use unicode_normalization::to_nfd;

// A text folded, for canonical caseless matching.
fn folded_text(alloc: Global, text: &str) -> Result<String, OutOfMemory>
    ensures { IfOk result (λ key. string_bytes key ≡ encode_utf8_all (canonical_key (chars text.now))) }
{
    let parts = to_nfd(alloc, text)?;
    let small = default_case_fold_str(alloc, parts.as_str())?;
    Ok(to_nfd(alloc, small.as_str())?)
}

// A name folded.
pub(crate) fn folded(alloc: Global, name: &[u8]) -> Result<Vec<u8>, OutOfMemory>
    ensures { IfOk result (λ key. key.items ≡ folded name.now) }
{
    match str::from_utf8(name) {
        Ok(text) => Ok(folded_text(alloc, text)?.into_bytes()),
        Err(_no_text) => Ok(Vec::from_slice(alloc, name)?),
    }
}
