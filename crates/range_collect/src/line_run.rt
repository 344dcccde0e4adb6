// A line with its pumps and its worker.

ghost use Rattle.std.specs.Prelude.{◌≡◌, ◌≤◌, IfOk, vec_len};
ghost use Rattle.range_fixes.specs.Reading.{readings};
ghost use Rattle.range_options.specs.Limits.{file_limit};
ghost use Rattle.range_collect.specs.LineFiles.{IsLineRun};

use crate::context::Context;
use crate::pumps::{join_pumps, start_pumps};
use crate::stride::Stride;
use crate::worker::Worker;
use range_fixes::{Name, ReadFault};
use range_line::{Feeder, open_line};
use range_plane::OutOfMemory;
use range_pump::{FileSource, Gate, ThreadAllocator, ThreadRuntime};
use std::alloc::Allocator;
use std::thread;
use std::thread::Scope;

// What is left of a line once its pumps have returned and its worker has nothing more to take: the
// feeders, and what the pumps say of their files, in the order of the files.
#[derive(Drop)]
pub(crate) struct LineRun<A: Allocator + Clone + Copy> {
    pub feeders: Vec<Feeder<A>, A>,
    pub reads: Vec<Result<Name, ReadFault>, A>,
    pub worker: Worker<A>,
}

// Opens a line, starts a pump for each source in a thread of the scope, works in this thread, and waits
// for the pumps.
fn run_in_scope<
    's,
    E,
    R: ThreadRuntime,
    S: FileSource + 's,
    A: ThreadAllocator + Copy + 's,
    G: Gate,
>(
    context: &'s Context<'s, R, A, G>,
    scope: &'s Scope<'s, E>,
    sources: Vec<S, A>,
    stride: Stride,
) -> Result<LineRun<A>, OutOfMemory>
    requires { (1 ≤ vec_len sources) × (vec_len sources ≤ file_limit) }
    ensures { IfOk result
        (λ line. IsLineRun stride.first stride.step context.now.plan.block
        (readings S.remaining context.now.plan.unit sources.items)
        line.feeders.items line.reads.items line.worker) }
{
    let (rt, alloc) = (context.rt, context.alloc);
    let count = sources.len();
    let (feeders, taker) = open_line(
        alloc,
        stride.first,
        stride.step,
        count as u32,
        context.plan.depth as usize,
    )?;
    let worker = Worker::new(alloc, taker, stride, count)?;
    let mut handles = Vec::with_capacity(alloc, count)?;
    let mut returned = Vec::with_capacity(alloc, count)?;
    let mut reads = Vec::with_capacity(alloc, count)?;
    let started = start_pumps(context, scope, sources, feeders, &mut handles);
    if let Err(refused) = started {
        drop(worker);
        join_pumps(rt, handles, &mut returned, &mut reads);
        return Err(refused);
    }
    let worker = worker.work(rt, context.gate);
    join_pumps(rt, handles, &mut returned, &mut reads);
    Ok(LineRun {
        feeders: returned,
        reads,
        worker,
    })
}

// Reads the files of a line, each in a thread of its own, and takes what they send in this one.
pub(crate) fn run_line<R: ThreadRuntime, S: FileSource, A: ThreadAllocator + Copy, G: Gate>(
    context: &Context<'_, R, A, G>,
    sources: Vec<S, A>,
    stride: Stride,
) -> Result<LineRun<A>, OutOfMemory>
    requires { (1 ≤ vec_len sources) × (vec_len sources ≤ file_limit) }
    ensures { IfOk result
        (λ line. IsLineRun stride.first stride.step context.now.plan.block
        (readings S.remaining context.now.plan.unit sources.items)
        line.feeders.items line.reads.items line.worker) }
{
    thread::scope(
        thread::scope_env(),
        context.rt,
        move |scope| -> Result<LineRun<A>, OutOfMemory>
            requires { (1 ≤ vec_len sources) × (vec_len sources ≤ file_limit) }
            ensures { IfOk result
                (λ line. IsLineRun stride.first stride.step context.entry.now.plan.block
                (readings S.remaining context.entry.now.plan.unit sources.items)
                line.feeders.items line.reads.items line.worker) }
        { run_in_scope(context, scope, sources, stride) },
    )
}
