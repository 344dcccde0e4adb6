//! The home ranges of tagged animals, from files of location fixes.
#![tactic(auto)]

use range_command::{Confirmed, Output, SystemFiles, answer};
use std::process::ExitCode;

fn main(rt: HostRuntime) -> ExitCode {
    let mut out = Output::new(Confirmed::new(&rt, rt.stdout()));
    let mut errors = Output::new(Confirmed::new(&rt, rt.stderr()));
    let files = SystemFiles::new(&rt);
    ExitCode::from(answer(&rt, &rt, &files, rt.stdin(), &mut out, &mut errors))
}
