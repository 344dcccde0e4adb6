// From the sources to their analysis.

ghost use Rattle.std.specs.Prelude.{◌≤◌, IfErr, IfOk, vec_len};
ghost use Rattle.range_fixes.specs.Reading.{readings};
ghost use Rattle.range_options.specs.Limits.{file_limit};
ghost use Rattle.range_analysis.specs.Sources.{HasNoAnalysisOf, IsAnalysisOf};

use crate::analyse_fault::AnalyseFault;
use crate::analysis::Analysis;
use crate::judgement::judge;
use range_collect::follow;
use range_options::{Levels, Plan};
use range_pump::{FileSource, Gate, ThreadRuntime};
use std::alloc::Global;

/// The analysis of 1 to [`FILE_LIMIT`](range_options::FILE_LIMIT) files, which are followed side by side as
/// [`follow`] says, with a percent polygon of each animal at each of the levels.
///
/// # Errors
///
/// As [`judge`] says; `OutOfMemory` also where the files could not be followed since memory ran out or a
/// thread could not be started.
pub fn analyse<R: ThreadRuntime, S: FileSource, G: Gate>(
    rt: &R,
    alloc: Global,
    sources: Vec<S>,
    gate: &G,
    plan: Plan,
    levels: &Levels,
) -> Result<Analysis, AnalyseFault>
    requires sources { (1 ≤ vec_len sources) × (vec_len sources ≤ file_limit) }
    ensures analysis { IfOk result
        (IsAnalysisOf (readings S.remaining plan.unit sources.items) levels.now plan.unit) }
    ensures fault { IfErr result (HasNoAnalysisOf (readings S.remaining plan.unit sources.items)) }
{
    let followed = follow(rt, alloc, alloc, sources, gate, plan)?;
    judge(rt, alloc, followed, levels, plan.unit)
}
