//! Percent polygons, and the overlap of one animal's fixes with the range of another.
#![tactic(auto)]

mod batches;
mod cuts;
mod distances;
mod overlaps;
mod percents;
mod rankings;

pub use overlaps::overlap;
pub use percents::{PercentRow, percent};
pub use rankings::Ranking;
