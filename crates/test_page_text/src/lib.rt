//! Tests of the texts of a page.
#![tactic(auto)]

mod figures;
mod texts;
mod written;
