// Why there is no folder, and what is left of one.

use range_plane::OutOfMemory;
use split_refusal::{Kind, Refusal};
use std::alloc::Global;
use std::io::Write;

// What stands before each line on standard error.
const PROGRAM: &[u8] = b"split: ";

// What is said where there is no memory for a line.
const NO_MEMORY: &[u8] = b"not enough memory";

// What is said before and behind the path of what is left.
const LEFT: &[u8] = b"; and what was made of it could not be removed: ";

/// Why there is no folder.
#[derive(Drop)]
pub(crate) struct Stop {
    pub refusal: Refusal,
    /// The path of what was made of a folder and could not be removed.
    pub left: Option<String>,
}

impl From<Refusal> for Stop {
    fn from(refusal: Refusal) -> Stop {
        Stop {
            refusal,
            left: None,
        }
    }
}

// Whether a byte is a control character of ASCII.
fn is_control(byte: u8) -> bool {
    byte < b' ' || byte == 0x7F
}

// Writes bytes, with `?` for control characters. It takes no memory. Who does not take them cannot be told so.
fn write_plain<X: Write>(bytes: &[u8], errors: &mut X) {
    for byte in bytes {
        let shown = if is_control(*byte) { b'?' } else { *byte };
        let _ = errors.write_all(&[shown]);
    }
}

// A line as it is written.
fn whole_line(alloc: Global, line: &[u8], left: &[u8]) -> Result<Vec<u8>, OutOfMemory> {
    let mut text = Vec::new(alloc);
    text.extend_from_slice(PROGRAM)?;
    text.extend_from_slice(line)?;
    text.extend_from_slice(left)?;
    text.extend_from_slice(b"\n")?;
    Ok(text)
}

// Says that there is no memory for a line, and what is left.
fn say_no_memory<X: Write>(left: Option<&str>, errors: &mut X) {
    let _ = errors.write_all(PROGRAM);
    let _ = errors.write_all(NO_MEMORY);
    if let Some(left) = left {
        let _ = errors.write_all(LEFT);
        write_plain(left.as_bytes(), errors);
    }
    let _ = errors.write_all(b"\n");
}

/// Says a line. Who does not take it cannot be told so.
pub(crate) fn say<X: Write>(alloc: Global, line: &[u8], errors: &mut X) {
    match whole_line(alloc, line, b"") {
        Ok(text) => {
            let _ = errors.write_all(&text);
        }
        Err(_) => say_no_memory(None, errors),
    }
}

// What is said of what is left, in one line.
fn rest_of(alloc: Global, left: Option<&str>) -> Result<Vec<u8>, OutOfMemory> {
    let mut text = Vec::new(alloc);
    if let Some(left) = left {
        text.extend_from_slice(LEFT)?;
        split_record::push_one_line(&mut text, left.as_bytes())?;
    }
    Ok(text)
}

// The line of a refusal, and of what is left.
fn line_of(alloc: Global, stop: &Stop, left: Option<&str>) -> Result<Vec<u8>, OutOfMemory> {
    let rest = rest_of(alloc, left)?;
    whole_line(alloc, &stop.refusal.line(alloc)?, &rest)
}

/// Says why there is no folder, and what is left of one.
pub(crate) fn tell<X: Write>(alloc: Global, stop: &Stop, errors: &mut X) -> u8 {
    let left = stop.left.as_deref();
    match line_of(alloc, stop, left) {
        Ok(line) => {
            let _ = errors.write_all(&line);
        }
        Err(_) => say_no_memory(left, errors),
    }
    stop.refusal.kind.status()
}

/// The text of a refusal, and of what is left.
pub(crate) fn text_of(alloc: Global, stop: &Stop) -> Option<Vec<u8>> {
    let mut text = rest_of(alloc, stop.left.as_deref()).ok()?;
    let whole = if stop.refusal.kind == Kind::Memory {
        Vec::from_slice(alloc, NO_MEMORY)
    } else {
        Vec::from_slice(alloc, &stop.refusal.text)
    };
    let mut whole = whole.ok()?;
    whole.append(&mut text).ok()?;
    Some(whole)
}
