//! Tests of what maps draw of animals, and of boundaries.
#![tactic(auto)]

mod boundaries;
mod levels;
