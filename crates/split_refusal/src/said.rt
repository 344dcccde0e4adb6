// How a sentence is said.

use range_plane::OutOfMemory;
use split_record::push_one_line;
use split_titles::start_of_sign;
use std::alloc::Global;

// The most signs that are said of a refusal.
const LONGEST: usize = 500;

// How many signs stay before the middle that is left out, and how many behind it.
const HALF: usize = 250;

// A text in one line.
pub(crate) fn one_line(alloc: Global, text: &[u8]) -> Result<Vec<u8>, OutOfMemory> {
    let mut line = Vec::new(alloc);
    push_one_line(&mut line, text)?;
    Ok(line)
}

// How many signs a text has.
fn sign_count(text: &[u8]) -> usize {
    text.iter()
        .filter(|byte| !(0x80..0xC0).contains(*byte))
        .count()
}

// A text in one line, and of a long one not the middle.
pub(crate) fn shortened(alloc: Global, text: &[u8]) -> Result<Vec<u8>, OutOfMemory> {
    let line = one_line(alloc, text)?;
    let count = sign_count(&line);
    if count <= LONGEST {
        return Ok(line);
    }
    let mut short = Vec::new(alloc);
    short.extend_from_slice(&line[..start_of_sign(&line, HALF)])?;
    short.extend_from_slice(b" .. ")?;
    short.extend_from_slice(&line[start_of_sign(&line, count - HALF)..])?;
    Ok(short)
}
