// The names of the files of several animals.

ghost use Rattle.std.specs.Prelude.{◌≡◌, [], IfErr, IfOk, Ok, length, map};
ghost use Rattle.split_names.specs.Clean.{clean};
ghost use Rattle.split_names.specs.Names.{IsFaultOf, bytes_of, file_names, folded, named, same_after};

use crate::clean::file_name;
use crate::folded::folded;
use crate::names_fault::NamesFault;
use crate::numbered::numbered;
use indexmap::IndexSet;
use range_plane::OutOfMemory;
use std::alloc::{Allocator, Global};

// The clean name of each animal.
fn clean_names<A: Allocator>(
    alloc: Global,
    names: &[Vec<u8, A>],
) -> Result<Vec<Vec<u8>>, OutOfMemory>
    ensures { IfOk result (λ own. bytes_of own.items
        ≡ map clean (bytes_of names.now)) }
{
    let mut own = Vec::new(alloc);
    for name in names {
        own.push(file_name(alloc, name)?)?;
    }
    Ok(own)
}

// Each of some names folded.
fn folded_names(alloc: Global, names: &[Vec<u8>]) -> Result<Vec<Vec<u8>>, OutOfMemory>
    ensures { IfOk result (λ keys. bytes_of keys.items
        ≡ map folded (bytes_of names.now)) }
{
    let mut keys = Vec::new(alloc);
    for name in names {
        keys.push(folded(alloc, name)?)?;
    }
    Ok(keys)
}

// The places of the first two names that are the same.
fn same_names(alloc: Global, names: &[Vec<u8>]) -> Result<Option<(usize, usize)>, OutOfMemory>
    ensures { IfOk result (λ places. places ≡ same_after [] (bytes_of names.now)) }
{
    let mut met = IndexSet::new(alloc);
    for (place, name) in names.iter().enumerate() {
        let (first, is_new) = met.insert_full(name.as_slice())?;
        if !is_new {
            return Ok(Some((first, place)));
        }
    }
    Ok(None)
}

// A name once more.
fn copy_of(alloc: Global, name: &[u8]) -> Result<Vec<u8>, OutOfMemory>
    ensures { IfOk result (λ copy. copy.items ≡ name.now) }
{
    Ok(Vec::from_slice(alloc, name)?)
}

// The names of files for clean names, which fold to these keys.
fn named(alloc: Global, names: &[Vec<u8>], keys: &[Vec<u8>]) -> Result<Vec<Vec<u8>>, OutOfMemory>
    requires { bytes_of keys.now ≡ map folded (bytes_of names.now) }
    ensures { IfOk result (λ own. bytes_of own.items
        ≡ named [] (bytes_of keys.now) (bytes_of names.now)) }
{
    let mut own = Vec::new(alloc);
    let mut added = Vec::new(alloc);
    let mut met = IndexSet::new(alloc);
    for (place, name) in names.iter().enumerate() {
        let is_first = met.insert(keys[place].as_slice())?;
        if is_first {
            own.push(copy_of(alloc, name)?)?;
        } else {
            let found = numbered(alloc, name, keys, &added)?;
            own.push(found.name)?;
            added.push(found.folded)?;
        }
    }
    Ok(own)
}

/// The name of the file of each animal, for the names of animals in the order of their first records. Of clean names
/// that differ in capitals or in the form of letters alone the first stays, and each other one has a number behind it,
/// the first from 2 on that tells it from all. Names are compared by canonical caseless matching, as the Unicode of the
/// crates `unicode_normalization` and `caseless` has it; one that is no UTF-8 is like itself alone.
///
/// # Errors
///
/// Two animals have the same clean name, or memory ran out.
pub fn file_names<A: Allocator>(
    alloc: Global,
    names: &[Vec<u8, A>],
) -> Result<Vec<Vec<u8>>, NamesFault>
    ensures names { IfOk result (λ own. file_names (bytes_of names.now)
        ≡ Ok (bytes_of own.items)) }
    ensures fault { IfErr result (IsFaultOf (file_names (bytes_of names.now))) }
{
    let cleaned = clean_names(alloc, names)?;
    if let Some((first, second)) = same_names(alloc, &cleaned)? {
        return Err(NamesFault::Same { first, second });
    }
    let keys = folded_names(alloc, &cleaned)?;
    Ok(named(alloc, &cleaned, &keys)?)
}
