//! The tables of a report as text: `summary.csv`, `overlaps.csv` and `animals.csv`.
#![tactic(auto)]

mod animals;
mod cells;
mod doubles;
mod laws;
mod numbers;
mod overlaps;
mod shares;
mod summary;
mod times;

pub use animals::{Told, push_animals};
pub use laws::hectares_are_exact;
pub use overlaps::push_overlaps;
pub use summary::push_summary;
