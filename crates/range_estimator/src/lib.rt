//! What the fixes of a file come to: an estimator takes them a block at a time, and keeps their polygon and
//! the table of incremental area analysis.
#![tactic(auto)]

mod block_points;
mod estimator;
mod row;
mod table;

pub use estimator::Estimator;
pub use row::{Row, Rows};
