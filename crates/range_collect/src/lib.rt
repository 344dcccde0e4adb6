//! Files that are followed side by side: each is read by a pump in a thread of its own, and its fixes go on
//! a line to the estimator of the file.
#![tactic(auto)]

mod context;
mod file_results;
mod files;
mod followed;
mod line_run;
mod line_threads;
mod pumps;
mod shares;
mod stack;
mod stride;
mod worker;

pub use files::follow;
pub use followed::Followed;
