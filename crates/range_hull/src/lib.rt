//! The minimum convex polygon of points that come one at a time, kept as two chains.
#![tactic(auto)]

mod chain;
mod hull;
mod side;
mod spot;
mod spot_search;
mod tally;

pub use hull::OnlineHull;
