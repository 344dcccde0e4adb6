// The result of a file.

ghost use Rattle.range_collect.specs.Follow.{IsResult};

use range_estimator::Estimator;
use range_fixes::{Name, ReadFault};
use range_line::Feeder;
use std::alloc::{Allocator, Global};

/// What was sent of a file, what its reader says of it, and what its estimator took.
#[derive(Drop)]
pub struct Followed<A: Allocator + Clone + Copy = Global> {
    pub feeder: Feeder<A>,
    /// The animal's name, or why the file could not be read to its end or handed on.
    pub read: Result<Name, ReadFault>,
    pub estimator: Estimator<A>,
    /// Whether the mark was taken.
    pub marked: bool,
    pub ghost result: { IsResult feeder read estimator marked },
}
