// Location fixes.

use crate::point::Point;

/// The greatest second of a fix that is read from a file: 2^40.
pub const SECOND_LIMIT: u64 = 1_099_511_627_776;

/// The most fixes of one file: 2^20.
pub const FIX_LIMIT: u32 = 1_048_576;

/// A location fix: where an animal was, and at which whole second.
#[derive(Clone, Copy, PartialEq, Eq, Debug)]
pub struct Fix {
    pub second: u64,
    pub at: Point,
}
