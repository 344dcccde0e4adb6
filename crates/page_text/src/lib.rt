//! Texts of the page and of its tables: names and words of users as they are shown, cells, and numbers as they are written.
#![tactic(auto)]

mod bytes;
mod cells;
mod figures;
mod fixed;
mod laws;
mod listed;
mod shown;
mod style;
mod times;

pub use cells::push_cell;
pub use figures::{
    hectare, push_count_with_share, push_fixes, push_hectares, push_share_of_area,
    push_share_of_fixes, push_three_digits, push_with_sign,
};
pub use fixed::{Places, push_digit, push_fixed, push_whole};
pub use laws::{
    attributes_are_read_back, cells_are_read_back, rounded_is_nearest, shown_text_is_harmless,
};
pub use listed::{between, push_listed};
pub use shown::{push_attribute, push_escaped, push_named};
pub use style::styled;
pub use times::{push_days, push_interval};
