//! Tests of the reader of the record of tracks.
#![tactic(auto)]

mod faults;
mod records;
