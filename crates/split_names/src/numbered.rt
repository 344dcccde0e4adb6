// Names with a number behind them.

ghost use Rattle.std.specs.Prelude.{◌≡◌, ◌+◌, ◌++◌, IfOk};
ghost use Rattle.std.specs.List.{list_any};
ghost use Rattle.std.specs.Str.{bytes_eq};
ghost use Rattle.split_names.specs.Names.{bytes_of, ending, folded, numbered, with_number};

use crate::clean::NAME_BYTES;
use crate::cut::cut;
use crate::folded::folded;
use itoa::Buffer;
use range_plane::OutOfMemory;
use std::alloc::Global;

// A name that folds as none before it, and what it folds to.
#[derive(Drop)]
pub(crate) struct Found {
    pub name: Vec<u8>,
    pub folded: Vec<u8>,
}

// A number as it stands behind a name.
fn ending(alloc: Global, number: usize) -> Result<Vec<u8>, OutOfMemory>
    ensures { IfOk result (λ own. own.items ≡ ending number) }
{
    let mut own = Vec::from_slice(alloc, b"_")?;
    let mut buffer = Buffer::new();
    own.extend_from_slice(buffer.format(number).as_bytes())?;
    Ok(own)
}

// A name with a number behind it, within the bytes that a name may have.
fn with_number(alloc: Global, name: &[u8], number: usize) -> Result<Vec<u8>, OutOfMemory>
    ensures { IfOk result (λ own. own.items ≡ with_number name.now number) }
{
    let ending = ending(alloc, number)?;
    let mut own = Vec::from_slice(alloc, name)?;
    cut(&mut own, NAME_BYTES.saturating_sub(ending.len()));
    own.extend_from_slice(&ending)?;
    Ok(own)
}

// Whether a folded name is one of these.
fn is_among(others: &[Vec<u8>], key: &[u8]) -> bool
    ensures { result ≡ list_any (bytes_eq key.now) (bytes_of others.now) }
{
    for other in others {
        if key == other.as_slice() {
            return true;
        }
    }
    false
}

// Whether a folded name is one of these first ones or of those others.
fn is_taken(first: &[Vec<u8>], others: &[Vec<u8>], key: &[u8]) -> bool
    ensures { result ≡ list_any (bytes_eq key.now) (bytes_of first.now ++ bytes_of others.now) }
{
    is_among(first, key) || is_among(others, key)
}

// A name with a number behind it, and what that folds to.
fn found_with(alloc: Global, name: &[u8], number: usize) -> Result<Found, OutOfMemory>
    ensures name { IfOk result (λ found. found.name.items ≡ with_number name.now number) }
    ensures folded { IfOk result (λ found. found.folded.items ≡ folded (with_number name.now number)) }
{
    let name = with_number(alloc, name, number)?;
    let folded = folded(alloc, &name)?;
    Ok(Found { name, folded })
}

// The name with the first number from 2 on by which it folds as none that is taken: none of these first ones, and none
// of those others.
pub(crate) fn numbered(
    alloc: Global,
    name: &[u8],
    first: &[Vec<u8>],
    others: &[Vec<u8>],
) -> Result<Found, OutOfMemory>
    ensures name { IfOk result (λ found. found.name.items
        ≡ numbered (bytes_of first.now ++ bytes_of others.now) name.now) }
    ensures folded { IfOk result (λ found. found.folded.items ≡ folded found.name.items) }
{
    let count = first.len() + others.len();
    for tried in 0..count {
        let found = found_with(alloc, name, tried + 2)?;
        if !is_taken(first, others, &found.folded) {
            return Ok(found);
        }
    }
    Ok(found_with(alloc, name, count + 2)?)
}
