//! What is written of a split: the record of its tracks, and the folder of their files.
#![tactic(auto)]

mod fault;
mod files;
mod left;
mod origin;
mod ranked;
mod record;
mod tracks;
mod write;

pub use fault::OutputFault;
pub use files::{RECORD_NAME, RECORDS_NAME, names_of_split};
pub use origin::Origin;
pub use record::record_of_split;
pub use write::write_split;
