//! Tracks for `homerange` from tables of location fixes.
#![tactic(auto)]

use split_command::answer;
use std::process::ExitCode;

fn main(rt: HostRuntime) -> ExitCode {
    let mut input = rt.reader();
    let mut out = rt.stdout();
    let mut errors = rt.stderr();
    ExitCode::from(answer(&rt, &rt, &mut input, &mut out, &mut errors))
}
