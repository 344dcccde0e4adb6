//! Tests of how fixes lie in time and place.
#![tactic(auto)]

mod cases;
mod sampling;
