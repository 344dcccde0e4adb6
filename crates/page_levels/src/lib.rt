//! What the map draws of an animal, from its track: the polygon of each level, and the fixes. A track that is not the one of which
//! the report was made is refused.
#![tactic(auto)]

mod check;
mod distances;
mod fault;
mod kept;
mod levels;
mod percents;
mod track;

pub use fault::LevelFault;
pub use levels::{Drawn, levels_of};
