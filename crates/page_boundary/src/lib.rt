//! The boundary of a map: rings of points, in metres with three decimals.
#![tactic(auto)]

mod boundary;
mod laws;
mod lines;
mod numbers;
mod rings;

pub use boundary::{BoundaryFault, read_boundary};
pub use laws::limits_are_these;
