// What is written.

use std::alloc::AllocError;

// Whether a text was written, and is this one.
pub(crate) fn is_written(text: &[u8], pushed: Result<(), AllocError>, expected: &[u8]) -> bool {
    pushed.is_ok() && text == expected
}
