//! Tests of the tables of a report.
#![tactic(auto)]

mod reports;
mod tables;
