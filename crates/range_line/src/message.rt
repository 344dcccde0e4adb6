// What a line carries.

ghost use Rattle.std.specs.Prelude.{◌≡◌, false};
ghost use Rattle.range_line.specs.Messages.{fixes_in, is_mark};

use range_plane::{Fix, List};

/// Fixes in the order of their file. Contracts see the list.
pub type Block = List<Fix>;

/// What a message says of its file.
#[derive(Drop)]
pub enum Body {
    /// The next fixes: on a line, from 1 to [`BLOCK_LIMIT`](range_options::BLOCK_LIMIT) of them.
    Block(Block),
    /// No more fixes come.
    Mark,
}

impl Body {
    pub(crate) fn into_fixes(self) -> Vec<Fix>
        requires { is_mark self ≡ false }
        ensures { result.items ≡ fixes_in self }
    {
        match self {
            Body::Block(block) => block.into_vec(),
            Body::Mark => unreachable!(),
        }
    }
}

/// A message of a file.
#[derive(Drop)]
pub struct Message {
    /// The number of the file.
    pub file: u32,
    /// How many fixes the file's blocks before this message have.
    pub place: u64,
    pub body: Body,
}
