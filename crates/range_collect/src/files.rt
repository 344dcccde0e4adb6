// All files, followed side by side.

ghost use Rattle.std.specs.Prelude.{◌≡◌, ◌≤◌, ◌↔◌, ℕ, ◌%◌, Some, slice_get, IfOk, vec_len};
ghost use Rattle.range_fixes.specs.Reading.{readings};
ghost use Rattle.range_options.specs.Limits.{file_limit};
ghost use Rattle.range_collect.specs.Results.{AreFollowed};

use crate::context::Context;
use crate::followed::Followed;
use crate::line_threads::follow_lines;
use crate::shares::{deal, merge};
use range_options::Plan;
use range_plane::OutOfMemory;
use range_pump::{FileSource, Gate, ThreadAllocator, ThreadRuntime};
use std::alloc::Global;

/// Follows 1 to [`FILE_LIMIT`](range_options::FILE_LIMIT) files at once, which are numbered from 0 in the
/// order of their sources. Each file is read by a pump, a thread of its own, which sends its fixes in blocks
/// on a line, a channel that the files with numbers of one remainder by `plan.workers` share. Each line has
/// a worker, a thread too, which gives each block to the estimator of its file. Gives the result of each
/// file, in their order, and waits for all threads.
///
/// Lines, estimators and results are on `alloc`, readers and blocks on `global`.
///
/// # Errors
///
/// Where an allocation failed or a thread could not be started; every thread that was started has ended. A reader
/// or an estimator without memory ends nothing but its own work, and the result of its file says so.
pub fn follow<R: ThreadRuntime, S: FileSource, A: ThreadAllocator + Copy, G: Gate>(
    rt: &R,
    alloc: A,
    global: Global,
    sources: Vec<S>,
    gate: &G,
    plan: Plan,
) -> Result<Vec<Followed<A>, A>, OutOfMemory>
    requires sources { (1 ≤ vec_len sources) × (vec_len sources ≤ file_limit) }
    ensures followed { IfOk result
        (λ all. AreFollowed plan.block (readings S.remaining plan.unit sources.items) all.items) }
    ensures lines { IfOk result (λ all. (i j : ℕ) (f g : _) → slice_get all.items i ≡ Some f
        → slice_get all.items j ≡ Some g
        → (i % plan.workers ≡ j % plan.workers) ↔ (f.feeder.line ≡ g.feeder.line)) }
{
    let count = sources.len();
    let shares = deal(alloc, sources, count.min(plan.workers as usize))?;
    let context = Context {
        rt,
        alloc,
        global,
        gate,
        plan,
    };
    let results = follow_lines(&context, shares)?;
    let all = merge(alloc, results, count)?;
    Ok(all)
}
