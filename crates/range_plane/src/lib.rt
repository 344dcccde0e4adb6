//! The plane: points and lists of them, minimum convex polygons, fixes, lists, and the answer that memory ran out, the
//! words that every other crate speaks. Coordinates are whole numbers of one unit, the metre or the decimetre.
#![tactic(auto)]

mod area;
mod columns;
mod convex;
mod edges;
mod fix;
mod laws;
mod list;
mod memory;
mod order;
mod plain;
mod point;
mod polygon;
mod scale;

pub use columns::Columns;
pub use convex::are_corners;
pub use fix::{FIX_LIMIT, Fix, SECOND_LIMIT};
pub use laws::{
    areas_are_not_negative, boxes_hold_what_is_covered, corners_cover_the_set,
    corners_stand_for_the_set, covered_is_decided, covered_points_change_nothing,
    covering_is_reaching, covering_is_transitive, covering_members_are_corners,
    every_set_has_a_polygon, few_cover_little, larger_sets_cover_more, limits_are_these,
    many_cover_the_left_of_their_edges, one_polygon, polygon_of_its_corners,
    sets_cover_their_members,
};
pub use list::List;
pub use memory::OutOfMemory;
pub use order::rank;
pub use point::{COORDINATE_LIMIT, Point, turn};
pub use polygon::Polygon;
pub use scale::Scale;
