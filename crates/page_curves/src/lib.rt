//! The curves of the page: of each animal the area after each fix, in a small drawing of its own.
#![tactic(auto)]

mod aid;
mod axes;
mod caption;
mod curve;
mod figures;
mod labels;
mod layout;
mod steps;

pub use figures::push_curves;
