//! The analysis of files that were followed, or why there is none: of each animal its box, its rows and its polygons,
//! and how the animals' ranges overlap.
#![tactic(auto)]

mod analyse_fault;
mod analysis;
mod animal;
mod judgement;
mod losses;
mod measured;
mod measurement;
mod names;
mod overlap_rows;
mod sources;
mod track;

pub use analyse_fault::AnalyseFault;
pub use analysis::{Analysis, analysis_of};
pub use animal::{Animal, Animals, OverlapRow, Overlaps, Percents};
pub use judgement::judge;
pub use sources::analyse;
pub use track::Track;
