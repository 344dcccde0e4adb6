//! What is said of a table as a whole, or why it is refused: its animals, sensors and outliers, the grid of its coordinates,
//! and the tracks that it comes to.
#![tactic(auto)]

mod alike;
mod animals;
mod apart;
mod calendar;
mod check;
mod clocks;
mod copies;
mod degrees;
mod exports;
mod extent;
mod far;
mod figures;
mod grid;
mod halves;
mod left;
mod magnitudes;
mod metres;
mod not_read;
mod order;
mod pace;
mod place;
mod projection;
mod ranked;
mod rows;
mod said;
mod scale;
mod seconds;
mod sensors;
mod sheet;
mod shift;
mod span;
mod stop;
mod times;
mod tracks;
mod utm;
mod utm_beside;
mod words;
mod words_missing;
mod years;
mod zeros;
mod zones;

pub use calendar::{DayShown, day_shown};
pub use check::check_ledger;
pub use exports::Exports;
pub use grid::{Grid, find_grid};
pub use halves::{check_halves, fix_counts};
pub use order::animals_in_order;
pub use pace::{tell_every, tell_speed};
pub use place::push_degrees_of;
pub use said::Said;
pub use sheet::{Sheet, TimesRead, Wanted};
pub use tracks::{tell_files, tell_tracks};
pub use utm_beside::are_far_in;
