//! What the drawings of the page share: places, classes of colours, steps of axes and grids, and pieces of SVG.
#![tactic(auto)]

mod colour;
mod laws;
mod number;
mod pieces;
mod pixels;
mod place;
mod step;
mod value;

pub use colour::push_colour;
pub use laws::places_are_nearest;
pub use number::push_number;
pub use pieces::{push_line, push_svg, push_text};
pub use pixels::{Pixels, Spot};
pub use place::{push_place, push_tenths, tenths};
pub use step::{STEPS, Step, size_of, step_of};
pub use value::push_value;
