//! Tests of the sections of the page.
#![tactic(auto)]

mod basis;
mod cases;
mod many;
mod sections;
mod words;
