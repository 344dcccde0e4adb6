// A run over the files of the words, or over the input where they name none.

ghost use Rattle.std.specs.Prelude.{◌≡◌, ◌≢◌, ◌≤◌, ◌∷◌, [], Err, IfErr, IfOk, OnOk, true, vec_len};
ghost use Rattle.range_fixes.specs.Reading.{readings};
ghost use Rattle.range_options.specs.Limits.{file_limit};
ghost use Rattle.range_run.specs.Run.{Explains, WritesPrefix, WritesReport};
ghost use Rattle.range_command.specs.Command.{BeginsReport, IsOfRun, Reports, world};
ghost use Rattle.range_command.specs.Outlet.{IsIntact, IsKnown};
ghost use Rattle.range_command.specs.Status.{refusal_status};

use crate::opened_files::open_all;
use crate::opener::Opener;
use crate::outlet::Outlet;
use crate::output::Output;
use crate::reason::known_reason;
use crate::refusal::Refusal;
use crate::source::Source;
use range_analysis::AnalyseFault;
use range_fixes::ReadFault;
use range_options::Options;
use range_pump::{FileSource, Gate, ThreadRuntime};
use range_run::{RunFault, run_with_gate};
use range_words::Words;
use std::alloc::{AllocError, Global};
use std::io;
use std::sync::atomic::{AtomicI32, Ordering};

/// Runs over the files of the words, or over the input where they name none, through a gate.
pub(crate) fn run_over<
    R: ThreadRuntime + AllocGlobal,
    O: Opener,
    S: FileSource,
    W: Outlet,
    G: Gate,
>(rt: &R, opener: &O, words: Words, input: S, gate: &G, out: &mut Output<W>) -> Result<(), Refusal>
    requires files { vec_len words.files ≤ file_limit }
    ensures done { OnOk result
        (Reports words (world (S.remaining input) (O.finds opener.now))
        (W.contents out.old) (W.contents out.new)) }
    ensures finished { OnOk result (IsKnown true (W.is_finished out.new)) }
    ensures intact { OnOk result (IsIntact (W.last_failure out.new)) }
    ensures begun { IfErr result (λ refusal. refusal_status refusal ≡ 4
        → BeginsReport words (world (S.remaining input) (O.finds opener.now))
        (W.contents out.old) (W.contents out.new)) }
    ensures told { IfErr result (IsOfRun words (world (S.remaining input) (O.finds opener.now))) }
    ensures unwritten { IfErr result (λ refusal. refusal_status refusal ≢ 4 → out.new ≡ out.old) }
{
    let Words { files, options } = words;
    let alloc = rt.alloc();
    let errnos = unset_errnos(alloc, files.len().max(1))?;
    let outcome = if files.is_empty() {
        let sources = alone(alloc, Source::new(input, &errnos[0]))?;
        run_to_end(rt, alloc, sources, gate, &options, out)
    } else {
        let sources = open_all(opener, alloc, files.as_slice(), errnos.as_slice())?;
        run_to_end(rt, alloc, sources, gate, &options, out)
    };
    match outcome {
        Ok(()) => Ok(()),
        Err(fault) => {
            let error = error_of(&fault, errnos.as_slice(), out.failure());
            let reason = known_reason(alloc, error);
            Err(Refusal::Run {
                files,
                fault,
                reason,
            })
        }
    }
}

// Runs over the sources, and asks whether the whole report is out.
fn run_to_end<R: ThreadRuntime, S: FileSource, W: Outlet, G: Gate>(
    rt: &R,
    alloc: Global,
    sources: Vec<S>,
    gate: &G,
    options: &Options,
    out: &mut Output<W>,
) -> Result<(), RunFault>
    requires sources { (1 ≤ vec_len sources) × (vec_len sources ≤ file_limit) }
    ensures report { OnOk result
        (WritesReport
        (readings S.remaining options.now.plan.unit sources.items)
        options.now.levels options.now.plan.unit
        (W.contents out.old) (W.contents out.new)) }
    ensures finished { OnOk result (IsKnown true (W.is_finished out.new)) }
    ensures intact { OnOk result (IsIntact (W.last_failure out.new)) }
    ensures prefix { result ≡ Err RunFault.Write
        → WritesPrefix
        (readings S.remaining options.now.plan.unit sources.items)
        options.now.levels options.now.plan.unit
        (W.contents out.old) (W.contents out.new) }
    ensures unwritten { IfErr result (λ fault. fault ≢ RunFault.Write → out.new ≡ out.old) }
    ensures fault { IfErr result
        (Explains
        (readings S.remaining options.now.plan.unit sources.items)
        options.now.levels options.now.plan.unit) }
{
    run_with_gate(rt, alloc, sources, gate, options, out)?;
    out.finish().or(Err(RunFault::Write))
}

// For each source where the number of a reason goes. 0 is no such number.
fn unset_errnos(alloc: Global, count: usize) -> Result<Vec<AtomicI32>, AllocError>
    ensures { IfOk result (λ errnos. vec_len errnos ≡ count) }
{
    let mut errnos = Vec::new(alloc);
    for _ in 0..count {
        if errnos.push(AtomicI32::new(0)).is_err() {
            return Err(AllocError);
        }
    }
    Ok(errnos)
}

// A list of one source.
fn alone<S: Drop>(alloc: Global, source: S) -> Result<Vec<S>, AllocError>
    ensures { IfOk result (λ sources. sources.items ≡ source ∷ []) }
{
    let mut sources = Vec::new(alloc);
    match sources.push(source) {
        Ok(()) => Ok(sources),
        Err(_) => Err(AllocError),
    }
}

// The error behind the fault: that of the read or of the write that failed, where it is known.
fn error_of(
    fault: &RunFault,
    errnos: &[AtomicI32],
    written: Option<io::Error>,
) -> Option<io::Error> {
    match fault {
        RunFault::Write => written,
        RunFault::Analyse(
            AnalyseFault::File {
                file,
                fault: ReadFault::Read,
            },
        ) => {
            let number = errnos.get(*file as usize)?.load(Ordering::Relaxed);
            if number == 0 {
                return None;
            }
            Some(io::Error::from_raw_os_error(number))
        }
        _ => None,
    }
}
