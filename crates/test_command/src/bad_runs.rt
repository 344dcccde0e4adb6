// Runs over files with each fault of their reader but too many records, which runs over sources without end have.

use crate::commands::expect_ended;
use crate::memory::Memory;
use crate::runs::run_in;
use range_analysis::AnalyseFault;
use range_command::Output;
use range_plane::Scale;
use range_pump::ThreadRuntime;
use range_run::{RunFault, status};
use std::alloc::Global;
use std::fs::File;
use std::process::Abort;
use std::rt::Files;
use std::test::Fail;
use test_files::{BadFile, bad_records, files_without_fix};

// A run over the file is refused with its fault, and nothing is written.
fn expect_fault<R: ThreadRuntime + Abort>(rt: &R, alloc: Global, bad: BadFile) -> Result<(), Fail> {
    let (file, fault) = (0, bad.fault);
    let mut out = Vec::new(alloc);
    let outcome = run_in(rt, alloc, bad.source(), Scale::Decimetre, &mut out)?;
    assert!(rt; out.is_empty() && status(&outcome) == 1, "{fault}");
    let expected = RunFault::Analyse(AnalyseFault::File { file, fault });
    assert!(rt; outcome == Err(expected), "{fault}");
    Ok(())
}

// Words over the file as the input are refused with the text of its fault, and nothing is written.
fn expect_refused<R: ThreadRuntime + Files<File = File> + AllocGlobal + Abort>(
    rt: &R,
    bad: BadFile,
) -> Result<(), Fail> {
    let alloc = rt.alloc();
    let fault = bad.fault;
    let text = format!(in alloc; "standard input: {fault}")?;
    let (source, mut out) = (bad.source(), Output::new(Memory::new(Vec::new(alloc))));
    let ended = (1, text.as_str());
    expect_ended(rt, &["--unit", "dm"], source, &mut out, ended)?;
    assert!(rt; out.outlet().writer.is_empty(), "{fault}");
    Ok(())
}

#[test]
fn each_fault_of_a_file_is_told_and_nothing_is_written(rt: HostRuntime) -> Result<(), Fail> {
    for file in bad_records(3, Scale::Decimetre) {
        expect_fault(&rt, rt.alloc(), file)?;
        expect_refused(&rt, file)?;
    }
    for file in files_without_fix() {
        expect_fault(&rt, rt.alloc(), file)?;
        expect_refused(&rt, file)?;
    }
    Ok(())
}
