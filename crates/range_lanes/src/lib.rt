//! What a polygon covers of many points, and their box and sums, eight points at once.
#![tactic(auto)]

mod corner_box;
mod edge_lines;
mod eight;
mod extent;
mod inner;
mod inside;
mod lanes;
mod laws;
mod margins;
mod totals;

pub use extent::{Extent, extremes};
pub use inside::{count_inside, mark_inside};
pub use laws::sizes_are_these;
pub use totals::sums;
