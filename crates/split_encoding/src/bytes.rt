// Texts that are UTF-8 or ASCII already.

ghost use Rattle.std.specs.Prelude.{◌≡◌, IfOk};
ghost use Rattle.std.specs.String.{string_bytes};

use crate::fault::DecodeFault;
use std::alloc::Global;

/// The text of UTF-8.
pub(crate) fn copy_utf8(alloc: Global, bytes: &[u8]) -> Result<String, DecodeFault>
    ensures { IfOk result (λ text. string_bytes text ≡ bytes.now) }
{
    match str::from_utf8(bytes) {
        Ok(text) => Ok(String::from_str(alloc, text)?),
        Err(error) => Err(DecodeFault::NoCharacter {
            place: error.valid_up_to(),
        }),
    }
}

/// The text of ASCII.
pub(crate) fn copy_ascii(alloc: Global, bytes: &[u8]) -> Result<String, DecodeFault>
    ensures { IfOk result (λ text. string_bytes text ≡ bytes.now) }
{
    match bytes.iter().position(|byte| *byte >= 128) {
        Some(place) => Err(DecodeFault::NoCharacter { place }),
        None => copy_utf8(alloc, bytes),
    }
}
