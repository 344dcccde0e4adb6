// The lines, each in a thread of its own.

ghost use Rattle.std.specs.Prelude.{◌≡◌, ℕ, ◌≤◌, [], false, All, IfOk, OnOk, Some, map, slice_get, vec_len, vec_capacity};
ghost use Rattle.range_fixes.specs.Reading.{readings};
ghost use Rattle.range_options.specs.Limits.{file_limit};
ghost use Rattle.range_collect.specs.LineFiles.{AreLinesFollowed, IsLineFollowed};

use crate::context::Context;
use crate::file_results::pair;
use crate::followed::Followed;
use crate::line_run::{LineRun, run_line};
use crate::stack::small_stack;
use crate::stride::Stride;
use range_options::Plan;
use range_plane::OutOfMemory;
use range_pump::{FileSource, Gate, ThreadAllocator, ThreadRuntime};
use std::alloc::Allocator;
use std::io::Read;
use std::snapshot::Snapshot;
use std::thread;
use std::thread::{Promise, PromisedHandle, Scope, Threads};

type Results<A> = Result<Vec<Followed<A>, A>, OutOfMemory>;

// What the thread of a line promises of its results.
#[derive(Drop)]
struct LineOf<S: Drop, A: Allocator> {
    sources: Snapshot<Vec<S, A>>,
    stride: Stride,
    plan: Plan,
}

impl<S: Read + Drop, A: Allocator + Clone + Copy> Promise<Results<A>> for LineOf<S, A> {
    ghost use Rattle.std.specs.Prelude.{IfOk, map};
    ghost use Rattle.range_fixes.specs.Reading.{readings};
    ghost use Rattle.range_collect.specs.LineFiles.{IsLineFollowed};

    ghost kept_by = { λ p r. IfOk r
        (λ all. IsLineFollowed p.stride.first p.stride.step p.plan.block
        (readings S.remaining p.plan.unit p.sources.value.items) all.items) };
}

type LineHandle<S, A> = PromisedHandle<Results<A>, LineOf<S, A>>;

// Follows the files of a line, with a thread for each pump and this one as the worker.
fn follow_line<R: ThreadRuntime, S: FileSource, A: ThreadAllocator + Copy, G: Gate>(
    context: &Context<'_, R, A, G>,
    sources: Vec<S, A>,
    stride: Stride,
) -> Results<A>
    requires { (1 ≤ vec_len sources) × (vec_len sources ≤ file_limit) }
    ensures { IfOk result
        (λ all. IsLineFollowed stride.first stride.step context.now.plan.block
        (readings S.remaining context.now.plan.unit sources.items) all.items) }
{
    let LineRun {
        feeders,
        reads,
        worker,
    } = run_line(context, sources, stride)?;
    let (feeders, estimators) = worker.drain(context.rt, feeders, context.gate);
    let results = pair(context.alloc, feeders, reads, estimators)?;
    Ok(results)
}

// Starts the thread of a line.
fn start_line<'s, E, R: ThreadRuntime, S: FileSource + 's, A: ThreadAllocator + Copy + 's, G: Gate>(
    context: &'s Context<'s, R, A, G>,
    scope: &'s Scope<'s, E>,
    sources: Vec<S, A>,
    stride: Stride,
) -> Result<LineHandle<S, A>, OutOfMemory>
    requires some { (1 ≤ vec_len sources) × (vec_len sources ≤ file_limit) }
    ensures { IfOk result (λ h. (h.promise.sources.value ≡ sources) × (h.promise.stride ≡ stride)
        × (h.promise.plan ≡ context.now.plan)) }
{
    let promise = LineOf {
        sources: Snapshot::of(&sources),
        stride,
        plan: context.plan,
    };
    match small_stack().spawn_scoped_with(
        scope,
        promise,
        move || -> Results<A>
            requires { (1 ≤ vec_len sources) × (vec_len sources ≤ file_limit) }
            ensures { IfOk result
                (λ all. IsLineFollowed stride.first stride.step context.entry.now.plan.block
                (readings S.remaining context.entry.now.plan.unit sources.items) all.items) }
        { follow_line(context, sources, stride) },
    ) {
        Ok(handle) => Ok(handle),
        Err(_) => Err(OutOfMemory),
    }
}

// Starts a thread for each line. Whatever it answers, the threads that it started are those of the handles.
fn start_lines<
    's,
    E,
    R: ThreadRuntime,
    S: FileSource + 's,
    A: ThreadAllocator + Copy + 's,
    G: Gate,
>(
    context: &'s Context<'s, R, A, G>,
    scope: &'s Scope<'s, E>,
    shares: Vec<Vec<S, A>, A>,
    handles: &mut Vec<LineHandle<S, A>, A>,
) -> Result<(), OutOfMemory>
    requires shares { vec_len shares ≤ file_limit }
    requires sources { All (λ share. (1 ≤ vec_len share)
        × (vec_len share ≤ file_limit)) shares.items }
    requires room { (handles.old.items ≡ []) × (vec_len shares ≤ vec_capacity handles.old) }
    ensures sources { OnOk result (map (λ h. h.promise.sources.value) handles.new.items
        ≡ shares.items) }
    ensures stride { (index : ℕ) (h : _) → slice_get handles.new.items index ≡ Some h
        → (h.promise.stride.first ≡ index) × (h.promise.stride.step ≡ vec_len shares)
        × (h.promise.plan ≡ context.now.plan) }
    ensures few { vec_len handles.new ≤ vec_len shares }
{
    let step = shares.len() as u32;
    let mut first = 0;
    for sources in shares {
        let stride = Stride { first, step };
        let handle = start_line(context, scope, sources, stride)?;
        handles.push_reserved(handle);
        first += 1;
    }
    Ok(())
}

// Waits for lines, and gives the results of each where all have them.
fn join_lines<R: Threads, S: Read + Drop, A: Allocator + Clone + Copy>(
    rt: &R,
    handles: Vec<LineHandle<S, A>, A>,
    mut all: Vec<Vec<Followed<A>, A>, A>,
) -> Result<Vec<Vec<Followed<A>, A>, A>, OutOfMemory>
    requires room { (all.items ≡ []) × (vec_len handles ≤ vec_capacity all) }
    ensures count { IfOk result (λ all. vec_len all ≡ vec_len handles) }
    ensures followed { IfOk result (λ all. (index : ℕ) (h r : _)
        → slice_get handles.items index ≡ Some h → slice_get all.items index ≡ Some r
        → IsLineFollowed h.promise.stride.first h.promise.stride.step h.promise.plan.block
        (readings S.remaining h.promise.plan.unit h.promise.sources.value.items) r.items) }
{
    let mut refused = false;
    for handle in handles {
        match handle.join(rt) {
            Ok(results) => all.push_reserved(results),
            Err(OutOfMemory) => refused = true,
        }
    }
    if refused { Err(OutOfMemory) } else { Ok(all) }
}

// Starts the lines in threads of the scope, and waits for them.
fn run_lines<'s, E, R: ThreadRuntime, S: FileSource + 's, A: ThreadAllocator + Copy + 's, G: Gate>(
    context: &'s Context<'s, R, A, G>,
    scope: &'s Scope<'s, E>,
    shares: Vec<Vec<S, A>, A>,
) -> Result<Vec<Vec<Followed<A>, A>, A>, OutOfMemory>
    requires shares { vec_len shares ≤ file_limit }
    requires sources { All (λ share. (1 ≤ vec_len share)
        × (vec_len share ≤ file_limit)) shares.items }
    ensures { IfOk result
        (λ all. AreLinesFollowed context.now.plan.block
        (map (λ share. readings S.remaining context.now.plan.unit share.items) shares.items)
        (map (λ r. r.items) all.items)) }
{
    let mut handles = Vec::with_capacity(context.alloc, shares.len())?;
    let results = Vec::with_capacity(context.alloc, shares.len())?;
    let started = start_lines(context, scope, shares, &mut handles);
    let joined = join_lines(context.rt, handles, results);
    started?;
    let all = joined?;
    Ok(all)
}

// Follows the files of all lines at once.
pub(crate) fn follow_lines<R: ThreadRuntime, S: FileSource, A: ThreadAllocator + Copy, G: Gate>(
    context: &Context<'_, R, A, G>,
    shares: Vec<Vec<S, A>, A>,
) -> Result<Vec<Vec<Followed<A>, A>, A>, OutOfMemory>
    requires shares { vec_len shares ≤ file_limit }
    requires sources { All (λ share. (1 ≤ vec_len share)
        × (vec_len share ≤ file_limit)) shares.items }
    ensures { IfOk result
        (λ all. AreLinesFollowed context.now.plan.block
        (map (λ share. readings S.remaining context.now.plan.unit share.items) shares.items)
        (map (λ r. r.items) all.items)) }
{
    thread::scope(
        thread::scope_env(),
        context.rt,
        move |scope| -> Result<Vec<Vec<Followed<A>, A>, A>, OutOfMemory>
            requires { (vec_len shares ≤ file_limit)
                × All (λ share. (1 ≤ vec_len share) × (vec_len share ≤ file_limit)) shares.items }
            ensures { IfOk result
                (λ all. AreLinesFollowed context.entry.now.plan.block
                (map (λ share. readings S.remaining context.entry.now.plan.unit share.items)
                shares.items)
                (map (λ r. r.items) all.items)) }
        { run_lines(context, scope, shares) },
    )
}
