// One run: from the sources to the report.

ghost use Rattle.std.specs.Prelude.{◌≡◌, ◌≢◌, ◌≤◌, Err, IfErr, OnOk, vec_len};
ghost use Rattle.range_fixes.specs.Reading.{readings};
ghost use Rattle.range_options.specs.Limits.{file_limit};
ghost use Rattle.range_run.specs.Run.{Explains, WritesPrefix, WritesReport};

use crate::run_fault::RunFault;
use crate::written_text::write_parts;
use range_analysis::analyse;
use range_options::Options;
use range_pump::{FileSource, FreeGate, Gate, ThreadRuntime};
use range_report::report_parts;
use std::alloc::Global;
use std::io::Write;

/// Reads the sources in threads, makes the whole report of their analysis, writes it and flushes once.
/// `Write` is answered only where a write failed or took no byte, or the flush failed.
pub fn run<R: ThreadRuntime, S: FileSource, W: Write>(
    rt: &R,
    alloc: Global,
    sources: Vec<S>,
    options: &Options,
    out: &mut W,
) -> Result<(), RunFault>
    requires sources { (1 ≤ vec_len sources) × (vec_len sources ≤ file_limit) }
    ensures report { OnOk result
        (WritesReport
        (readings S.remaining options.now.plan.unit sources.items)
        options.now.levels options.now.plan.unit
        (W.contents out.old) (W.contents out.new)) }
    ensures prefix { result ≡ Err RunFault.Write
        → WritesPrefix
        (readings S.remaining options.now.plan.unit sources.items)
        options.now.levels options.now.plan.unit
        (W.contents out.old) (W.contents out.new) }
    ensures unwritten { IfErr result (λ fault. fault ≢ RunFault.Write → out.new ≡ out.old) }
    ensures fault { IfErr result
        (Explains
        (readings S.remaining options.now.plan.unit sources.items)
        options.now.levels options.now.plan.unit) }
{
    run_with_gate(rt, alloc, sources, &FreeGate, options, out)
}

/// The same through a gate, which hears of the messages on the lines as [`analyse`] says.
pub fn run_with_gate<R: ThreadRuntime, S: FileSource, W: Write, G: Gate>(
    rt: &R,
    alloc: Global,
    sources: Vec<S>,
    gate: &G,
    options: &Options,
    out: &mut W,
) -> Result<(), RunFault>
    requires sources { (1 ≤ vec_len sources) × (vec_len sources ≤ file_limit) }
    ensures report { OnOk result
        (WritesReport
        (readings S.remaining options.now.plan.unit sources.items)
        options.now.levels options.now.plan.unit
        (W.contents out.old) (W.contents out.new)) }
    ensures prefix { result ≡ Err RunFault.Write
        → WritesPrefix
        (readings S.remaining options.now.plan.unit sources.items)
        options.now.levels options.now.plan.unit
        (W.contents out.old) (W.contents out.new) }
    ensures unwritten { IfErr result (λ fault. fault ≢ RunFault.Write → out.new ≡ out.old) }
    ensures fault { IfErr result
        (Explains
        (readings S.remaining options.now.plan.unit sources.items)
        options.now.levels options.now.plan.unit) }
{
    let analysis = match analyse(rt, alloc, sources, gate, options.plan, &options.levels) {
        Ok(analysis) => analysis,
        Err(fault) => return Err(RunFault::Analyse(fault)),
    };
    let Ok(parts) = report_parts(rt, alloc, analysis) else {
        return Err(RunFault::OutOfMemory);
    };
    write_parts(out, parts)
}
