// The system's reasons, in words.

use std::alloc::{AllocError, Global};
use std::io;

/// The system's reason for an error, without its number.
pub(crate) fn reason_of(alloc: Global, error: &io::Error) -> Result<String, AllocError> {
    let text = format!(in alloc; "{error}")?;
    if let Some((reason, _)) = text.as_str().split_once(" (os error ") {
        return String::from_str(alloc, reason);
    }
    Ok(text)
}

/// The system's reason for an error, where one is known and memory for its words is there.
pub(crate) fn known_reason(alloc: Global, error: Option<io::Error>) -> Option<String> {
    reason_of(alloc, &error?).ok()
}
