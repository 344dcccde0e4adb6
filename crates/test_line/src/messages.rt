// What a message is that was taken from a line.

use range_line::{Body, Message};
use range_plane::Fix;

/// For tests alone: the fixes of the message, where it is a block of this file at this place.
pub fn block_of(taken: &Option<Message>, file: u32, place: u64) -> Option<&[Fix]> {
    match taken {
        Some(message) if message.file == file && message.place == place => match &message.body {
            Body::Block(block) => Some(block.as_slice()),
            Body::Mark => None,
        },
        _ => None,
    }
}

/// For tests alone: whether the message is the mark of this file, after so many fixes.
pub fn is_mark(taken: &Option<Message>, file: u32, place: u64) -> bool {
    match taken {
        Some(message) => {
            message.file == file && message.place == place && matches!(message.body, Body::Mark)
        }
        None => false,
    }
}
