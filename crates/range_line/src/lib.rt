//! A line: a bounded channel on which feeders, one a file, send blocks of fixes and then a mark, and from
//! which one taker takes them. In every schedule, what was taken of a file is a beginning of what its
//! feeder sent.
#![tactic(auto)]

mod channel;
mod feeder;
mod laws;
mod message;
mod rule;
mod settled;
mod taker;

pub use feeder::Feeder;
pub use laws::{
    files_are_steps_apart, last_messages_come_next, lines_are_in_order, messages_add_their_fixes,
    streams_are_lawful, the_mark_is_last,
};
pub use message::{Block, Body, Message};
pub use settled::{Settled, settle};
pub use taker::{Taker, open_line};
