// A test of failed allocations.

use crate::checks::{begin_with, plan_of};
use crate::files::{Case, LINE, SQUARE, sources_of};
use range_collect::{Followed, follow};
use range_options::Plan;
use range_pump::{Gate, ThreadRuntime};
use std::alloc::Global;
use std::process::Abort;
use std::sync::atomic::{AtomicUsize, Ordering};
use std::test::Fail;
use test_doubles::{MANY_ALLOCATIONS, Refusing};
use test_files::is_name;

// How often all allocations are refused in turn at most.
const MANY_TIMES: u32 = 100;

// Counts for each of two files the messages that were done with before the allocation that failed.
#[derive(Drop)]
struct Watching<'a> {
    alloc: &'a Refusing<Global>,
    done: [AtomicUsize; 2],
}

impl Gate for Watching<'_> {
    fn before_send(&self, _file: u32, _place: u64) {}

    fn after_take(&self, file: u32, _place: u64) {
        if self.alloc.has_refused() {
            return;
        }
        if let Some(done) = self.done.get(file as usize) {
            done.fetch_add(1, Ordering::SeqCst);
        }
    }
}

// Whether the file was handed on whole, and its estimator has all rows, or has stopped and has those of the
// blocks before, which are done with and have so many fixes.
fn holds_first(followed: &Followed<&Refusing<Global>>, case: Case, done: usize) -> bool {
    let found = followed.estimator.rows();
    let ends_right = if followed.estimator.stopped() {
        found.len() < case.rows.len() && found.len() == done
    } else {
        found.len() == case.rows.len()
    };
    followed.marked
        && is_name(&followed.read, case.name)
        && followed.feeder.sent_fixes() == case.rows.len() as u64
        && ends_right
        && begin_with(case.rows, found)
}

// Checks two files of which at most one has an estimator that was refused its memory: that one has only
// the rows of the blocks before, and the other all rows. Both marks were taken. Gives how many have stopped.
fn stopped_of(
    rt: &impl Abort,
    all: &[Followed<&Refusing<Global>>],
    done: &[AtomicUsize; 2],
    plan: Plan,
) -> u32 {
    assert!(rt; all.len() == 2, "results");
    let mut stopped = 0u32;
    for ((followed, case), done) in all.iter().zip([SQUARE, LINE]).zip(done) {
        let blocks = done.load(Ordering::SeqCst);
        let done = blocks.saturating_mul(plan.block as usize);
        assert!(rt; holds_first(followed, case, done), "the file and its rows");
        if followed.estimator.stopped() {
            stopped = stopped.wrapping_add(1);
        }
    }
    stopped
}

// Whether the estimator of the second file has stopped with two fixes.
fn has_stopped_late(all: &[Followed<&Refusing<Global>>]) -> bool {
    let Some(second) = all.get(1) else {
        return false;
    };
    second.estimator.stopped() && second.estimator.rows().len() == 2
}

// In a run that is refused an allocation, either there are no results, or one estimator has stopped; both come.
// Whether that of the second file has stopped with two fixes in some run.
fn expect_refusals<R: ThreadRuntime + Abort>(
    rt: &R,
    alloc: Global,
    plan: Plan,
) -> Result<bool, Fail> {
    let (mut without, mut with, mut late) = (0u32, 0u32, false);
    for number in 1..MANY_ALLOCATIONS {
        let refusing = Refusing::new(alloc, number);
        let done = [AtomicUsize::new(0), AtomicUsize::new(0)];
        let gate = Watching {
            alloc: &refusing,
            done,
        };
        let sources = sources_of(alloc, &[SQUARE, LINE])?;
        assert!(rt; sources.len() == 2);
        match follow(rt, &refusing, alloc, sources, &gate, plan) {
            Ok(all) => {
                let stopped = stopped_of(rt, &all, &gate.done, plan);
                assert!(rt;
                    stopped == u32::from(refusing.has_refused()),
                    "stopped estimators"
                );
                with = with.wrapping_add(stopped);
                late = late || has_stopped_late(&all);
            }
            Err(_) => {
                assert!(rt; refusing.has_refused(), "at allocation {number}");
                without = without.wrapping_add(1);
            }
        }
        if !refusing.has_refused() {
            assert!(rt;
                without > 10 && with > 10,
                "{without} and {with} allocations"
            );
            return Ok(late);
        }
    }
    Err(Fail::from("no run without a refusal"))
}

// Also where the line holds less than what comes behind the block that stops an estimator: all of it is taken.
#[test]
fn a_refused_allocation_stops_one_estimator_or_all(rt: HostRuntime) -> Result<(), Fail> {
    for (block, depth, workers) in [(2, 4, 2), (1, 1, 1)] {
        let _ = expect_refusals(&rt, rt.alloc(), plan_of(block, depth, workers)?)?;
    }
    Ok(())
}

// Among them is an estimator that has stopped behind the first of its blocks. Which allocation that is the threads
// decide, so it may take more than one time through all.
#[test]
fn an_estimator_may_stop_behind_its_first_block(rt: HostRuntime) -> Result<(), Fail> {
    for _ in 0..MANY_TIMES {
        if expect_refusals(&rt, rt.alloc(), plan_of(2, 4, 2)?)? {
            return Ok(());
        }
    }
    Err(Fail::from("none has stopped so late"))
}
