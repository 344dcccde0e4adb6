//! Tables and the page of ranges of a folder with a report of `homerange` and its tracks.
#![tactic(auto)]

use page_command::answer;
use std::process::ExitCode;

fn main(rt: HostRuntime) -> ExitCode {
    let mut out = rt.stdout();
    let mut errors = rt.stderr();
    ExitCode::from(answer(&rt, &mut out, &mut errors))
}
