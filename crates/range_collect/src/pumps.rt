// The pumps of a line, each in a thread of its own.

ghost use Rattle.std.specs.Prelude.{◌≡◌, ℕ, ◌≤◌, [], All, IfOk, OnOk, Some, map, slice_get, vec_len, vec_capacity};
ghost use Rattle.range_fixes.specs.Reading.{reading_from};
ghost use Rattle.range_options.specs.Limits.{block_limit};
ghost use Rattle.range_line.specs.LineEnds.{FeederView};
ghost use Rattle.range_collect.specs.Fresh.{IsNew};
ghost use Rattle.range_pump.specs.Pump.{IsPumped, ReadResult};

use crate::context::Context;
use crate::stack::small_stack;
use range_fixes::{Name, ReadFault};
use range_line::Feeder;
use range_options::Plan;
use range_plane::OutOfMemory;
use range_pump::{FileSource, Gate, Pumped, ThreadAllocator, ThreadRuntime, pump};
use std::alloc::Allocator;
use std::io::Read;
use std::snapshot::Snapshot;
use std::thread::{Promise, PromisedHandle, Scope, Threads};

// What the thread of a pump promises of what it gives back: it is of this source and this feeder, by this plan.
#[derive(Drop)]
pub(crate) struct PumpOf<S: Drop, A: Allocator + Clone> {
    pub source: Snapshot<S>,
    pub feeder: Snapshot<Feeder<A>>,
    pub plan: Plan,
}

impl<S: Read + Drop, A: Allocator + Clone> Promise<Pumped<A>> for PumpOf<S, A> {
    ghost use Rattle.range_fixes.specs.Reading.{reading_from};
    ghost use Rattle.range_pump.specs.Pump.{IsPumped};

    ghost kept_by = { λ p r. IsPumped
        (reading_from S.remaining p.plan.unit p.source.value) p.plan.block
        p.feeder.value r.feeder r.read };
}

// A pump that was started.
pub(crate) type PumpHandle<S, A> = PromisedHandle<Pumped<A>, PumpOf<S, A>>;

// Starts a pump in a thread of the scope.
fn start_pump<'s, E, R: ThreadRuntime, S: FileSource + 's, A: ThreadAllocator + 's, G: Gate>(
    context: &'s Context<'s, R, A, G>,
    scope: &'s Scope<'s, E>,
    source: S,
    feeder: Feeder<A>,
) -> Result<PumpHandle<S, A>, OutOfMemory>
    requires fresh { IsNew feeder }
    ensures { IfOk result (λ h. (h.promise.source.value ≡ source)
        × (h.promise.feeder.value ≡ feeder) × (h.promise.plan ≡ context.now.plan)) }
{
    let Context {
        rt,
        global,
        gate,
        plan,
        ..
    } = *context;
    let (block, unit) = (plan.block, plan.unit);
    let promise = PumpOf {
        source: Snapshot::of(&source),
        feeder: Snapshot::of(&feeder),
        plan,
    };
    match small_stack().spawn_scoped_with(
        scope,
        promise,
        move || -> Pumped<A>
            requires { (1 ≤ block) × (block ≤ block_limit) × IsNew feeder }
            ensures { IsPumped (reading_from S.remaining unit source) block
                feeder result.feeder result.read }
        { pump(rt, global, source, feeder, gate, block, unit) },
    ) {
        Ok(handle) => Ok(handle),
        Err(_) => Err(OutOfMemory),
    }
}

// Starts a pump for each source and its feeder, in threads of the scope. Whatever it answers, the threads that it
// started are those of the handles: where one cannot be started, the pumps before it run.
pub(crate) fn start_pumps<
    's,
    E,
    R: ThreadRuntime,
    S: FileSource + 's,
    A: ThreadAllocator + 's,
    G: Gate,
>(
    context: &'s Context<'s, R, A, G>,
    scope: &'s Scope<'s, E>,
    sources: Vec<S, A>,
    feeders: Vec<Feeder<A>, A>,
    handles: &mut Vec<PumpHandle<S, A>, A>,
) -> Result<(), OutOfMemory>
    requires feeders { All IsNew feeders.items }
    requires count { vec_len sources ≡ vec_len feeders }
    requires room { (handles.old.items ≡ []) × (vec_len sources ≤ vec_capacity handles.old) }
    ensures sources { OnOk result (map (λ h. h.promise.source.value) handles.new.items
        ≡ sources.items) }
    ensures feeders { OnOk result (map (λ h. h.promise.feeder.value) handles.new.items
        ≡ feeders.items) }
    ensures plans { All (λ h. h.promise.plan ≡ context.now.plan) handles.new.items }
    ensures few { vec_len handles.new ≤ vec_len sources }
{
    let mut feeders = feeders.into_iter();
    for source in sources {
        let Some(feeder) = feeders.next() else {
            unreachable!()
        };
        let handle = start_pump(context, scope, source, feeder)?;
        handles.push_reserved(handle);
    }
    Ok(())
}

// Waits for pumps, and gives their feeders and what they say of their files, in their order.
pub(crate) fn join_pumps<R: Threads, S: Read + Drop, A: Allocator + Clone>(
    rt: &R,
    handles: Vec<PumpHandle<S, A>, A>,
    feeders: &mut Vec<Feeder<A>, A>,
    reads: &mut Vec<Result<Name, ReadFault>, A>,
)
    requires feeders { (feeders.old.items ≡ []) × (vec_len handles ≤ vec_capacity feeders.old) }
    requires reads { (reads.old.items ≡ []) × (vec_len handles ≤ vec_capacity reads.old) }
    ensures counts { (vec_len feeders.new ≡ vec_len handles)
        × (vec_len reads.new ≡ vec_len handles) }
    ensures pumped { (index : ℕ) (h : _) (f : FeederView) (r : ReadResult)
        → slice_get handles.items index ≡ Some h
        → slice_get feeders.new.items index ≡ Some f → slice_get reads.new.items index ≡ Some r
        → IsPumped (reading_from S.remaining h.promise.plan.unit h.promise.source.value)
        h.promise.plan.block h.promise.feeder.value f r }
{
    for handle in handles {
        let Pumped { feeder, read } = handle.join(rt);
        feeders.push_reserved(feeder);
        reads.push_reserved(read);
    }
}
