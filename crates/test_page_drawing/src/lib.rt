//! Tests of the drawings of a page.
#![tactic(auto)]

mod curves;
mod maps;
mod pieces;
mod reports;
mod shapes;
