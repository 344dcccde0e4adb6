//! What the area of an animal rests on: when and where its fixes are, how its area grew, and the fix that makes the most of it.
#![tactic(auto)]

mod basis;
mod columns;
mod influence;
mod levels;

pub use basis::{Basis, basis_of};
pub use influence::{MOST_CORNERS, OneFix};
pub use levels::quoted_level;
