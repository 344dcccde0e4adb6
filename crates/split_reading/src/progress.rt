// How far the reading of a table is.

// After how many records it is told again.
const TOLD_AFTER: u32 = 1 << 16;

/// Hears how far the reading of a table is.
pub trait Progress {
    /// So many records were read.
    fn hear(&mut self, records: u32);
}

/// Tells that so many records were read, where that is due.
pub(crate) fn tell_count<P: Progress>(progress: &mut P, records: u32) {
    if records % TOLD_AFTER == 0 {
        progress.hear(records);
    }
}
