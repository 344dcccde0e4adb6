//! What stands beside the maps: what lines and numbers are, what the reference system is, and by how much areas on its grid differ
//! from those on the ellipsoid.
#![tactic(auto)]

mod difference;
mod ground;
mod key;
mod middle;
mod system;

pub use difference::{Difference, Differences, difference_of_utm};
pub use ground::push_ground;
pub use key::push_key;
pub use middle::differences_of;
pub use system::{is_of_zone, push_system};
