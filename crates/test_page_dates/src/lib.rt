//! Tests of dates and periods as the page writes them.
#![tactic(auto)]

mod dates;
