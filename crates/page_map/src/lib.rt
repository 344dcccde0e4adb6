//! The map of the page: polygons of each level over fixes, animals told by numbers, with a grid, a bar of scale and an arrow to the
//! north. Where ranges are too small to be seen beside the distances between them, maps of their own follow.
#![tactic(auto)]

mod boundary;
mod clusters;
mod dots;
mod drawing;
mod extent;
mod foot;
mod frame;
mod grid;
mod land;
mod maps;
mod numbers;
mod outlines;
mod place;
mod scene;
mod times;

pub use land::{GROUND_LIMIT, Ground, Plane, ground_of};
pub use maps::{Maps, draw_maps};
pub use outlines::STYLES;
pub use scene::Shape;
