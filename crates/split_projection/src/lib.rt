//! Longitude and latitude of WGS 84, projected into a zone of UTM, and back again.
#![tactic(auto)]

mod degrees;
mod ellipsoid;
mod grid;
mod inverse;
mod place;
mod projection;
mod series;
mod transverse;
mod zone;

pub use degrees::Degrees;
pub use grid::units_of;
pub use inverse::place_of;
pub use projection::project;
pub use zone::zone_number;
