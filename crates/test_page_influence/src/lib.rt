//! Tests of which fix makes the most of an area.
#![tactic(auto)]

#[cfg(test)]
mod influence;
