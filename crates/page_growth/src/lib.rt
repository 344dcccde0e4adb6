//! How the area at a level grew with the days and with the fixes: over the last quarter of each, and from when on it stayed.
#![tactic(auto)]

mod areas;
mod growth;
mod since;

pub use growth::{LevelGrowth, growth_at};
pub use since::PARTS;
