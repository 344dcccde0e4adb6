// Both files, followed side by side.

use crate::files::{both_sources, end_of};
use range_analysis::{AnalyseFault, Analysis, analyse, judge};
use range_collect::{Followed, follow};
use range_options::{FILE_LIMIT, Levels, Plan};
use range_plane::{OutOfMemory, Scale};
use range_pump::{FreeGate, ThreadRuntime};
use range_report::report;
use std::alloc::Global;
use std::io;
use std::rt::Runtime;

// Blocks of two fixes, and a worker for each file.
fn small_plan() -> Option<Plan> {
    Plan::new(2, 4, 2, Scale::Metre)
}

// Three levels.
fn three_levels(alloc: Global) -> Result<Levels, OutOfMemory> {
    let levels = Vec::from_slice(alloc, &[50, 95, 100])?;
    Levels::new(levels).ok_or(OutOfMemory)
}

// Both files, followed.
fn followed<R: ThreadRuntime>(rt: &R, alloc: Global) -> Result<Vec<Followed>, OutOfMemory> {
    let sources = both_sources(alloc)?;
    match small_plan() {
        Some(plan) => follow(rt, alloc, alloc, sources, &FreeGate, plan),
        None => Err(OutOfMemory),
    }
}

// Prints how the reading of a file ended, how many of its fixes were sent and how many were taken, whether its
// mark came, and whether its estimator stopped.
fn print_followed<R: Runtime>(rt: &R, one: &Followed) -> io::Result<()> {
    let fault = match &one.read {
        Ok(_) => None,
        Err(fault) => Some(*fault),
    };
    let (sent, taken) = (one.feeder.sent_fixes(), one.estimator.rows().len());
    println!(rt;
        "follow {} {sent} {taken} {} {}",
        end_of(fault),
        one.marked,
        one.estimator.stopped()
    )
}

/// Follows both files, judges what came of them and makes the report, and prints the answers.
pub(crate) fn follow_files<R: Runtime + ThreadRuntime>(rt: &R, alloc: Global) -> io::Result<()> {
    let Ok(all) = followed(rt, alloc) else {
        return println!(rt; "follow memory");
    };
    for one in &all {
        print_followed(rt, one)?;
    }
    if all.is_empty() || all.len() > FILE_LIMIT as usize {
        return println!(rt; "follow other");
    }
    let Ok(levels) = three_levels(alloc) else {
        return println!(rt; "judge memory");
    };
    let answer = judge(rt, alloc, all, &levels, Scale::Metre);
    print_analysis(rt, "judge", &answer)?;
    match &answer {
        Ok(analysis) => print_report(rt, alloc, analysis),
        Err(_) => Ok(()),
    }
}

// Makes the report, and prints how long it is.
fn print_report<R: Runtime + ThreadRuntime>(
    rt: &R,
    alloc: Global,
    analysis: &Analysis,
) -> io::Result<()> {
    match report(rt, alloc, analysis) {
        Ok(text) => println!(rt; "report {}", text.len()),
        Err(OutOfMemory) => println!(rt; "report memory"),
    }
}

// Prints how many animals and overlaps there are, or the fault.
fn print_analysis<R: Runtime>(
    rt: &R,
    call: &str,
    answer: &Result<Analysis, AnalyseFault>,
) -> io::Result<()> {
    match answer {
        Ok(analysis) => {
            let (animals, overlaps) = (analysis.animals.as_slice(), analysis.overlaps.as_slice());
            println!(rt; "{call} {} {}", animals.len(), overlaps.len())
        }
        Err(AnalyseFault::OutOfMemory) => println!(rt; "{call} memory"),
        Err(fault) => println!(rt; "{call} {fault}"),
    }
}

/// Makes the analysis of both files, and prints the answer.
pub(crate) fn analyse_files<R: Runtime + ThreadRuntime>(rt: &R, alloc: Global) -> io::Result<()> {
    let (Ok(sources), Ok(levels), Some(plan)) = (
        both_sources(alloc),
        three_levels(alloc),
        small_plan(),
    ) else {
        return println!(rt; "analyse memory");
    };
    let answer = analyse(rt, alloc, sources, &FreeGate, plan, &levels);
    print_analysis(rt, "analyse", &answer)
}
