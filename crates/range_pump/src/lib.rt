//! How a file is handed on: a pump reads its fixes, and sends them on a line in blocks and then a mark.
#![tactic(auto)]

mod block;
mod bounds;
mod file_pump;
mod gate;

pub use bounds::{FileSource, ThreadAllocator, ThreadRuntime};
pub use file_pump::{Pumped, pump};
pub use gate::{FreeGate, Gate};
