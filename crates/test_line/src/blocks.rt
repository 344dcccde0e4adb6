// Blocks to send, and what the blocks that were taken have to be.

ghost use Rattle.std.specs.Prelude.{◌≡◌, length, IfOk};

use crate::block_of;
use range_line::Message;
use range_plane::{Fix, Point};
use std::alloc::{AllocError, Global};

// `count` fixes of this second.
pub(crate) fn fixes(alloc: Global, second: u64, count: usize) -> Result<Vec<Fix>, AllocError>
    ensures { IfOk result (λ v. length v.items ≡ count) }
{
    let at = Point { e: 0, n: 0 };
    Vec::from_elem(alloc, Fix { second, at }, count)
}

// Whether these are `count` fixes of this second.
pub(crate) fn are_fixes(fixes: &[Fix], second: u64, count: usize) -> bool {
    fixes.len() == count && fixes.iter().all(|fix| fix.second == second)
}

// Whether this is a block at the place, of `count` fixes of this second.
pub(crate) fn is_block(
    taken: &Option<Message>,
    file: u32,
    place: u64,
    second: u64,
    count: usize,
) -> bool {
    block_of(taken, file, place).is_some_and(|fixes| are_fixes(fixes, second, count))
}
