// The worker of a line.

ghost use Rattle.std.specs.Prelude.{◌≡◌, ℕ, ◌+◌, ◌≤◌, List, [], ◌∷◌, ◌++◌, false, length, map, slice_get, Some, IfOk, vec_len};
ghost use Rattle.range_plane.specs.Fix.{fix_limit};
ghost use Rattle.range_plane.specs.declared.fix.Fix.{Fix};
ghost use Rattle.range_line.specs.declared.message.Message.{Message};
ghost use Rattle.range_line.specs.LineEnds.{ended_feeder, files_from, AreOfLine, FeederView};
ghost use Rattle.range_line.specs.Messages.{fixes_in, all_fixes};
ghost use Rattle.range_estimator.specs.Estimation.{Estimation};
ghost use Rattle.range_collect.specs.Follow.{Holds};
ghost use Rattle.range_collect.specs.Work.{ComesTo, EachHolds};

use crate::stride::Stride;
use range_estimator::Estimator;
use range_line::{Body, Feeder, Message, Settled, Taker, settle};
use range_plane::OutOfMemory;
use range_pump::Gate;
use std::alloc::Allocator;
use std::marker::Model;
use std::sync::Wait;

// The taker of a line, and for each of its files an estimator that holds what was taken of it.
#[derive(Drop)]
pub(crate) struct Worker<A: Allocator + Clone + Copy> {
    taker: Taker<A>,
    estimators: Vec<Estimator<A>, A>,
    stride: Stride,
}

impl<A: Allocator + Clone + Copy> Model for Worker<A> {
    ghost use Rattle.std.specs.Prelude.{◌≡◌, vec_len};
    ghost use Rattle.range_line.specs.LineEnds.{files_from, TakerView};
    ghost use Rattle.range_collect.specs.Work.{EachHolds};

    ghost Value = { TakerView };

    ghost view = { λ w. w.taker };

    ghost invariant = { λ w. (w.taker.files
        ≡ files_from w.stride.first w.stride.step (vec_len w.estimators))
        × EachHolds w.stride.first w.stride.step w.taker.taken w.estimators.items };
}

// Gives the fixes of a message to the estimator of its file, unless that has stopped.
fn receive<A: Allocator + Copy>(estimator: &mut Estimator<A>, body: Body)
    requires few { estimator.old.stopped ≡ false
        → length estimator.old.fixes + length (fixes_in body) ≤ fix_limit }
    ensures { (fixes : List Fix) → Holds estimator.old fixes
        → Holds estimator.new (fixes ++ fixes_in body) }
{
    let Body::Block(block) = body else {
        return;
    };
    if !estimator.stopped() {
        let _ = estimator.take_block(block.as_slice());
    }
}

// Gives a message that was taken to the estimator of its file.
fn give<A: Allocator + Copy, G: Gate>(
    estimators: &mut Vec<Estimator<A>, A>,
    stride: Stride,
    message: Message,
    gate: &G,
)
    requires next { (taken : List Message)
        × ComesTo stride.first stride.step taken message estimators.old.items }
    ensures holds { (taken : List Message)
        → EachHolds stride.first stride.step taken estimators.old.items
        → EachHolds stride.first stride.step (taken ++ message ∷ []) estimators.new.items }
    ensures len { vec_len estimators.new ≡ vec_len estimators.old }
{
    let (file, place) = (message.file, message.place);
    let index = (file - stride.first) / stride.step;
    receive(&mut estimators[index as usize], message.body);
    gate.after_take(file, place);
}

impl<A: Allocator + Clone + Copy> Worker<A> {
    // The worker of a line of `count` files of which nothing was taken yet.
    pub(crate) fn new(
        alloc: A,
        taker: Taker<A>,
        stride: Stride,
        count: usize,
    ) -> Result<Worker<A>, OutOfMemory>
        requires files { taker.files ≡ files_from stride.first stride.step count }
        requires fresh { taker.taken ≡ [] }
        ensures { IfOk result (λ worker. worker ≡ taker) }
    {
        let mut estimators = Vec::with_capacity(alloc, count)?;
        for _made in 0..count {
            estimators.push_reserved(Estimator::new(alloc));
        }
        Ok(Worker {
            taker,
            estimators,
            stride,
        })
    }

    // Takes messages, and gives each to the estimator of its file, until the mark of each file was taken
    // or the line is at its end.
    pub(crate) fn work<R: Wait, G: Gate>(self, rt: &R, gate: &G) -> Worker<A>
        requires live { self.ended ≡ false }
        ensures line { (result.line ≡ self.line) × (result.files ≡ self.files) }
    {
        let Worker {
            mut taker,
            mut estimators,
            stride,
        } = self;
        let mut open = estimators.len();
        for _ in rt.forever() {
            if open == 0 {
                break;
            }
            let Some(message) = taker.take(rt) else {
                break;
            };
            if let Body::Mark = message.body {
                open -= 1;
            }
            give(&mut estimators, stride, message, gate);
        }
        Worker {
            taker,
            estimators,
            stride,
        }
    }

    // Ends the line, gives what is left on it to the estimators, and hands out the feeders and the
    // estimators of the files in their order.
    pub(crate) fn drain<R: Wait, G: Gate>(
        self,
        rt: &R,
        mut feeders: Vec<Feeder<A>, A>,
        gate: &G,
    ) -> (Vec<Feeder<A>, A>, Vec<Estimator<A>, A>)
        requires line { AreOfLine feeders.items self.line }
        requires files { map (λ f. f.file) feeders.items ≡ self.files }
        ensures feeders { result.0.items ≡ map ended_feeder feeders.items }
        ensures holds { (index : ℕ) (f : FeederView) (e : Estimation)
            → slice_get result.0.items index ≡ Some f
            → slice_get result.1.items index ≡ Some e → Holds e (all_fixes f.sent) }
        ensures count { vec_len result.1 ≡ vec_len result.0 }
    {
        let Worker {
            mut taker,
            mut estimators,
            stride,
        } = self;
        for _ in rt.forever() {
            let Settled {
                taker: later,
                feeders: back,
                extra,
            } = settle(rt, taker, feeders);
            taker = later;
            feeders = back;
            let Some(message) = extra else {
                return (feeders, estimators);
            };
            give(&mut estimators, stride, message, gate);
        }
        unreachable!()
    }
}
