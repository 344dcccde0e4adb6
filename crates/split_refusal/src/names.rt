// Refusals of names of animals.

ghost use Rattle.std.specs.Prelude.{None};
ghost use Rattle.split_refusal.specs.Refused.{Names};

use crate::kind::Kind;
use crate::push::push;
use crate::refusal::{Refusal, Sentence, refusal_of};
use indexmap::IndexSet;
use range_plane::OutOfMemory;
use split_names::{NAME_BYTES, NamesFault, file_name, file_names};
use std::alloc::Global;

// The name of this number; empty where there is none.
fn name_at<'a>(animals: &[&'a [u8]], number: usize) -> &'a [u8] {
    animals.get(number).copied().unwrap_or(b"")
}

// The names of files that some animals come to, each once.
fn clean_names(alloc: Global, animals: &[&[u8]]) -> Result<IndexSet<Vec<u8>>, OutOfMemory> {
    let mut names = IndexSet::new(alloc);
    for animal in animals {
        names.insert(file_name(alloc, animal)?)?;
    }
    Ok(names)
}

// Those names one behind the other.
fn listed(alloc: Global, names: &IndexSet<Vec<u8>>) -> Result<Vec<Vec<u8>>, OutOfMemory> {
    let mut list = Vec::new(alloc);
    for name in names.iter() {
        list.push(Vec::from_slice(alloc, name)?)?;
    }
    Ok(list)
}

// The name of the file that an animal would have, also where another would have the same one.
fn named(alloc: Global, animals: &[&[u8]], animal: &[u8]) -> Result<Vec<u8>, OutOfMemory> {
    let own = file_name(alloc, animal)?;
    let names = clean_names(alloc, animals)?;
    let Some(place) = names.get_index_of(own.as_slice()) else {
        return Ok(own);
    };
    let list = listed(alloc, &names)?;
    match file_names(alloc, &list) {
        Ok(found) => match found.get(place) {
            Some(name) => Ok(Vec::from_slice(alloc, name)?),
            None => Ok(own),
        },
        Err(NamesFault::Same { .. }) => Ok(own),
        Err(NamesFault::OutOfMemory) => Err(OutOfMemory),
    }
}

// What is to be done about two animals whose files would have the same name.
fn remedy(first: &[u8], second: &[u8]) -> &'static str {
    if NAME_BYTES < first.len() || NAME_BYTES < second.len() {
        ": rename one, since a name in files has at most 32 bytes"
    } else {
        ": rename one, since a name in files has _ for signs that files cannot have"
    }
}

// That the files of two animals would have the same name.
fn sentence(
    alloc: Global,
    animals: &[&[u8]],
    first: &[u8],
    second: &[u8],
) -> Result<Sentence, OutOfMemory> {
    let mut text = Vec::new(alloc);
    push(&mut text, "animals '")?;
    text.extend_from_slice(first)?;
    push(&mut text, "' and '")?;
    text.extend_from_slice(second)?;
    push(&mut text, "' would both be named ")?;
    text.extend_from_slice(&named(alloc, animals, first)?)?;
    push(&mut text, remedy(first, second))?;
    Ok(Sentence {
        kind: Kind::Name,
        text,
    })
}

/// The refusal of animals of these names, in the order of their first records, whose files would have the same name.
pub fn refused_names(alloc: Global, fault: NamesFault, animals: &[&[u8]]) -> Refusal
    ensures { Names None result }
{
    match fault {
        NamesFault::OutOfMemory => Refusal::out_of_memory(alloc),
        NamesFault::Same { first, second } => {
            let (first, second) = (name_at(animals, first), name_at(animals, second));
            refusal_of(alloc, None, sentence(alloc, animals, first, second))
        }
    }
}
