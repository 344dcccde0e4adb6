//! Which of many points the polygon of a hull covers, before they are added to the hull.
#![tactic(auto)]

mod addition;
mod cover_cache;
mod laws;

pub use addition::add_point;
pub use cover_cache::CoverCache;
pub use laws::covered_points_stay_covered;
