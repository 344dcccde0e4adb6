//! Tests of lines: what one and three feeders send and the taker takes, a line whose taker is gone, a list
//! that one thread sends and another takes, and each allocation of `open_line` refused. What a message is that was
//! taken, other tests ask as well.
#![tactic(auto)]

#[cfg(test)]
mod blocks;
#[cfg(test)]
mod ends;
mod messages;
#[cfg(test)]
mod refusals;
#[cfg(test)]
mod threads;

pub use messages::{block_of, is_mark};
