//! Which fix makes the most of the area of a range: the one without which the polygon of all others is least.
#![tactic(auto)]

mod areas;
mod corner_fixes;
mod influence;
mod laws;
mod polygons;

pub use influence::{Influence, least_without};
pub use laws::fixes_have_one_influence;
