// What is wrong with words that are not the program's, in one line.

ghost use Rattle.range_command.specs.Command.{IsOfBadWords};

use crate::refusal::Refusal;
use range_texts::OneLine;
use range_words::{WordFault, read_words};
use std::alloc::{AllocError, Global};

/// The refusal of words of which `clap` said this.
pub(crate) fn bad_words(alloc: Global, words: &[String], said: &str) -> Refusal
    ensures { IsOfBadWords result }
{
    match line_of(alloc, words, said) {
        Ok(line) => Refusal::BadWords { line },
        Err(_) => Refusal::OutOfMemory,
    }
}

// The first line of what `clap` says of the words, without its usage and hints. It repeats words as they are,
// which may hold line ends: so it is asked once more, with the words as they are shown in one line.
fn line_of(alloc: Global, words: &[String], said: &str) -> Result<String, AllocError> {
    let shown = all_escaped(alloc, words)?;
    match read_words(alloc, shown.as_slice()) {
        Err(WordFault::BadWords(text)) => String::from_str(alloc, first_line(text.as_str())),
        Err(WordFault::OutOfMemory) => Err(AllocError),
        _ => escaped(alloc, first_line(said)),
    }
}

// The words as they are shown in one line.
fn all_escaped(alloc: Global, words: &[String]) -> Result<Vec<String>, AllocError> {
    let mut shown = Vec::new(alloc);
    for word in words {
        shown.push(escaped(alloc, word.as_str())?)?;
    }
    Ok(shown)
}

// The first line of the text, without the word `error` before it.
fn first_line(text: &str) -> &str {
    let text = text.strip_prefix("error: ").unwrap_or(text);
    match text.split_once('\n') {
        Some((first, _)) => first,
        None => text,
    }
}

// The text as it is shown in one line.
fn escaped(alloc: Global, text: &str) -> Result<String, AllocError> {
    let text = OneLine::new(text);
    format!(in alloc; "{text}")
}
