//! Tests of reports that are read back.
#![tactic(auto)]

mod reports;
