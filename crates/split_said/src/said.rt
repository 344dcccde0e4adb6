// What is said, line by line.

use crate::words::{push, push_number};
use range_plane::OutOfMemory;
use split_record::push_one_line;
use std::alloc::Global;

/// What is said, line by line.
#[derive(Drop)]
pub struct Said {
    pub lines: Vec<Vec<u8>>,
}

impl Said {
    /// Nothing yet.
    pub fn new(alloc: Global) -> Said {
        Said {
            lines: Vec::new(alloc),
        }
    }

    /// Says a text in one line, in which control characters and separators of lines are escaped.
    ///
    /// # Errors
    ///
    /// Memory ran out.
    pub fn say(&mut self, alloc: Global, text: &[u8]) -> Result<(), OutOfMemory> {
        let mut line = Vec::new(alloc);
        push_one_line(&mut line, text)?;
        self.lines.push(line)?;
        Ok(())
    }

    // Says a text behind its count. What counts 0 is not said.
    pub(crate) fn say_counted(
        &mut self,
        alloc: Global,
        count: usize,
        text: &[u8],
    ) -> Result<(), OutOfMemory> {
        if count == 0 {
            return Ok(());
        }
        let mut line = Vec::new(alloc);
        push_number(&mut line, count)?;
        push(&mut line, " ")?;
        push_one_line(&mut line, text)?;
        self.lines.push(line)?;
        Ok(())
    }
}
