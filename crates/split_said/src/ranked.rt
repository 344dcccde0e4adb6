// Words with their counts, the most frequent first.

use crate::words::{push, push_number};
use range_plane::OutOfMemory;
use std::alloc::AllocError;

// A word, before which others are that come more often. Of those that come as often the least comes first.
#[derive(PartialEq, Eq, PartialOrd, Ord, Drop)]
pub(crate) struct Ranked {
    // The greatest count less that of the word.
    below: usize,
    pub word: Vec<u8>,
}

impl Ranked {
    pub(crate) fn new(word: Vec<u8>, count: usize) -> Ranked {
        Ranked {
            below: usize::MAX - count,
            word,
        }
    }

    fn count(&self) -> usize {
        usize::MAX - self.below
    }
}

// Puts words in the order of their counts.
pub(crate) fn rank(words: &mut Vec<Ranked>) -> Result<(), OutOfMemory> {
    words.sort()?;
    Ok(())
}

// Appends words with their counts; one that is empty is none.
pub(crate) fn push_ranked(text: &mut Vec<u8>, words: &[Ranked]) -> Result<(), AllocError> {
    for (at, ranked) in words.iter().enumerate() {
        if at > 0 {
            push(text, ", ")?;
        }
        text.extend_from_slice(word_or_none(&ranked.word))?;
        push(text, " ")?;
        push_number(text, ranked.count())?;
    }
    Ok(())
}

// A word, or that there is none.
pub(crate) fn word_or_none(word: &[u8]) -> &[u8] {
    if word.is_empty() { b"none" } else { word }
}
