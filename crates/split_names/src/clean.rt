// The name of an animal as the name of a file.

ghost use Rattle.std.specs.Prelude.{◌≡◌, IfOk, OnOk, map};
ghost use Rattle.split_names.specs.Clean.{clean, no_device, plain, plain_at_edge, plain_at_end, plain_at_start};

use crate::cut::cut;
use crate::device::is_device;
use range_plane::OutOfMemory;
use std::alloc::Allocator;

/// How many bytes of UTF-8 the name of a file may have, without what the file's kind puts behind it.
pub const NAME_BYTES: usize = 32;

// A byte, or `_` in its place.
fn plain(byte: u8) -> u8
    ensures { result ≡ plain byte }
{
    match byte {
        0..=31 | 127 => b'_',
        b'<' | b'>' | b':' | b'"' | b'/' | b'\\' | b'|' | b'?' | b'*' | b',' => b'_',
        _ => byte,
    }
}

// Bytes with `_` in the place of some.
fn plain_bytes<A: Allocator>(alloc: A, bytes: &[u8]) -> Result<Vec<u8, A>, OutOfMemory>
    ensures { IfOk result (λ own. own.items ≡ map plain bytes.now) }
{
    let mut own = Vec::with_capacity(alloc, bytes.len())?;
    for byte in bytes {
        own.push_reserved(plain(*byte));
    }
    Ok(own)
}

// A byte at the start or the end of a name: `_` for a point or a blank.
fn plain_at_edge(byte: u8) -> u8
    ensures { result ≡ plain_at_edge byte }
{
    match byte {
        b'.' | b' ' => b'_',
        _ => byte,
    }
}

// Puts `_` for a point or a blank at the start.
fn plain_at_start<A: Allocator>(name: &mut Vec<u8, A>)
    ensures { name.new.items ≡ plain_at_start name.old.items }
{
    if !name.is_empty() {
        name[0] = plain_at_edge(name[0]);
    }
}

// Puts `_` for a point or a blank at the end.
fn plain_at_end<A: Allocator>(name: &mut Vec<u8, A>)
    ensures { name.new.items ≡ plain_at_end name.old.items }
{
    let length = name.len();
    if length > 0 {
        name[length - 1] = plain_at_edge(name[length - 1]);
    }
}

// Puts `_` before a name that is that of a device.
fn no_device<A: Allocator>(name: &mut Vec<u8, A>) -> Result<(), OutOfMemory>
    ensures { OnOk result (name.new.items ≡ no_device name.old.items) }
{
    if is_device(name) {
        name.insert(0, b'_')?;
    }
    Ok(())
}

/// The name of an animal as the name of a file: `_` for each control character of ASCII, each of `<>:"/\|?*` and each
/// comma, and for a point or a blank at the start or the end; `_` before the name of a device of Windows, alone or
/// before a point; and at most 32 bytes, by whole characters of UTF-8. An empty name stays empty.
///
/// # Errors
///
/// Memory ran out.
#[tactic(auto, unfolding(crate::specs::Clean::clean))]
pub fn file_name<A: Allocator>(alloc: A, name: &[u8]) -> Result<Vec<u8, A>, OutOfMemory>
    ensures { IfOk result (λ own. own.items ≡ clean name.now) }
{
    let mut own = plain_bytes(alloc, name)?;
    plain_at_start(&mut own);
    no_device(&mut own)?;
    cut(&mut own, NAME_BYTES);
    plain_at_end(&mut own);
    Ok(own)
}
