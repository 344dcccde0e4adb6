//! The encodings that texts may be in, and the text of bytes that are in one.
#![tactic(auto)]

mod bytes;
mod decoding;
mod encoding;
mod fault;
mod names;
mod order;
mod page;
mod pages;
mod units;

pub use decoding::decode;
pub use encoding::Encoding;
pub use fault::DecodeFault;
pub use names::encoding_of;
