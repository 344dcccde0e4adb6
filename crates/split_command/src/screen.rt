// How far the program is, as a terminal shows it.

use itoa::Buffer;
use split_reading::Progress;
use std::io::{IsTerminal, Write};
use std::rt::Clock;
use std::time::Instant;

// After how many seconds it is shown for the first time.
const SHOWN_AFTER: u64 = 1;

// What overwrites a line, which is longer than any.
const BLANK: &[u8] = b"\r                                                            \r";

/// Shows how far the program is, in one line that goes again: on a terminal, and after a second.
#[derive(Drop)]
pub(crate) struct Screen<'a, R, X> {
    clock: &'a R,
    errors: &'a mut X,
    // When the program began; none where there is no terminal.
    start: Option<Instant>,
    // How many lines the exports have.
    lines: usize,
    is_shown: bool,
}

// When the program begins, where errors go to a terminal.
fn start_of<R: Clock, X: IsTerminal>(clock: &R, errors: &X) -> Option<Instant> {
    if errors.is_terminal() {
        Instant::now(clock).ok()
    } else {
        None
    }
}

// How many lines bytes have.
fn line_count(bytes: &[u8]) -> usize {
    bytes.iter().filter(|byte| **byte == b'\n').count()
}

impl<'a, R: Clock, X: Write + IsTerminal> Screen<'a, R, X> {
    /// That of a program which begins now.
    pub(crate) fn new(clock: &'a R, errors: &'a mut X) -> Screen<'a, R, X> {
        let start = start_of(clock, errors);
        Screen {
            clock,
            errors,
            start,
            lines: 0,
            is_shown: false,
        }
    }

    /// Counts the lines of exports, to show how far it is with them.
    pub(crate) fn count_lines(&mut self, exports: &[Vec<u8>]) {
        if self.start.is_some() {
            for export in exports {
                self.lines = self.lines.saturating_add(line_count(export));
            }
        }
    }

    /// Takes away what is shown.
    pub(crate) fn clear(&mut self) {
        if self.is_shown {
            let _ = self.errors.write_all(BLANK);
            self.is_shown = false;
        }
    }

    // Whether it is time to show how far it is.
    fn is_due(&self) -> bool {
        match &self.start {
            Some(start) => match start.elapsed(self.clock) {
                Ok(passed) => passed.as_secs() >= SHOWN_AFTER,
                Err(_) => false,
            },
            None => false,
        }
    }

    // Shows a number behind some words.
    fn show(&mut self, words: &[u8], number: usize) {
        let mut buffer = Buffer::new();
        let _ = self.errors.write_all(words);
        let _ = self.errors.write_all(buffer.format(number).as_bytes());
    }

    // Shows that so many records were read.
    fn show_records(&mut self, records: usize) {
        self.clear();
        self.show(b"split: ", records);
        if records <= self.lines {
            self.show(b" of about ", self.lines);
        }
        let _ = self.errors.write_all(b" records are read");
        self.is_shown = true;
    }
}

impl<'a, R: Clock, X: Write + IsTerminal> Progress for Screen<'a, R, X> {
    fn hear(&mut self, records: u32) {
        if self.is_due() {
            self.show_records(records as usize);
        }
    }
}
