//! The record of a folder of tracks, read back: of which export the tracks were made, how, and by what, and how many records of it
//! each animal has.
#![tactic(auto)]

mod counts;
mod fault;
mod fields;
mod kind;
mod laws;
mod put;
mod reading;
mod record;
mod system;
mod unescaped;
mod zone;

pub use counts::{
    Counts, NO_COUNTS, counts_at, left_of_all, place_in, records_of_all, tally, track_of,
};
pub use fault::{RecordFault, Wrong, sentence};
pub use kind::Kind;
pub use laws::limits_are_these;
pub use reading::read_record;
pub use record::{Given, LeftOut, Made, Record};
pub use system::system_of;
pub use zone::Zone;
