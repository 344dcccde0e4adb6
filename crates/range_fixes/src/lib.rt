//! The fixes of a file of comma-separated records, read and checked one record at a time.
//!
//! The first record is the header `animal,second,easting,northing`, with `use` behind it or without. Each
//! record after it is a fix of the one animal of the file: its name of 1 to 32 bytes, a whole second, an
//! easting and a northing in whole metres or decimetres, and 1, or 0 for a fix that is left out. Seconds may
//! repeat and must not fall. The first record that is otherwise ends the reading with a [`ReadFault`].
#![tactic(auto)]

mod checked_records;
mod checks;
mod law;
mod name;
mod previous;
mod read_fault;
mod reader;
mod records;

pub use law::{limits_are_these, reads_exactly};
pub use name::Name;
pub use read_fault::ReadFault;
pub use reader::FixReader;
