//! How a run is planned: the limits of blocks, of what a line holds, of files, of workers and of levels, a
//! plan and levels within them, and the options of an analysis.
#![tactic(auto)]

mod laws;
mod levels;
mod limits;
mod options;
mod plan;

pub use laws::limits_are_these;
pub use levels::Levels;
pub use limits::{
    BLOCK_LIMIT, DEPTH_LIMIT, FILE_LIMIT, LEVEL_COUNT_LIMIT, LEVEL_LIMIT, WORKER_LIMIT,
};
pub use options::Options;
pub use plan::Plan;
