// The line that words make.

use range_words::{WordFault, Words, read_words};
use std::alloc::Global;
use std::test::Fail;

/// Copies of texts.
pub(crate) fn texts(alloc: Global, texts: &[&str]) -> Result<Vec<String>, Fail> {
    let mut copies = Vec::new(alloc);
    for text in texts {
        let copy = String::from_str(alloc, text)?;
        copies.push(copy)?;
    }
    Ok(copies)
}

/// The words of a command line, behind the program's name.
pub(crate) fn line(alloc: Global, words: &[&str]) -> Result<Vec<String>, Fail> {
    let mut all = vec![in alloc; "homerange"]?;
    all.extend_from_slice(words)?;
    texts(alloc, all.as_slice())
}

/// What the words of a command line say.
pub(crate) fn read(alloc: Global, words: &[&str]) -> Result<Result<Words, WordFault>, Fail> {
    Ok(read_words(alloc, line(alloc, words)?.as_slice()))
}
