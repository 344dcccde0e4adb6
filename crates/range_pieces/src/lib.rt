//! A list of points in pieces: what is inserted moves the points of one piece.
#![tactic(auto)]

mod cursor;
mod edits;
mod laws;
mod piece;
mod point_list;
mod search;
mod shelf;

pub use cursor::Cursor;
pub use laws::sizes_are_these;
pub use piece::PIECE_SIZE;
pub use point_list::PointList;
pub use search::indices_in_both;
