//! Tests of how areas at a level grew.
#![tactic(auto)]

mod growth;
mod tracks;
