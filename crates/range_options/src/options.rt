// What is asked of an analysis.

use crate::levels::Levels;
use crate::plan::Plan;

/// What is asked of an analysis.
#[derive(Drop)]
pub struct Options {
    /// The levels of the percent polygons.
    pub levels: Levels,
    /// How the files are followed.
    pub plan: Plan,
}
