//! Why a table is refused: its kind, its record, and a sentence with the remedy.
#![tactic(auto)]

mod cells;
mod days;
mod digits;
mod forms;
mod grid;
mod kind;
mod names;
mod parts;
mod push;
mod refusal;
mod remedies;
mod said;
mod tables;
mod times;
mod titles;
mod zones;

pub use cells::{RecordShown, refused_cell, refused_grouped};
pub use days::refused_day;
pub use grid::{refused_no_place, refused_off_grid};
pub use kind::Kind;
pub use names::refused_names;
pub use parts::{form_of_columns, sign_beside, sign_of};
pub use refusal::Refusal;
pub use tables::{refused_table, refused_text};
pub use titles::refused_titles;
pub use zones::refused_zone;
