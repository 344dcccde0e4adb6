// Tests of threads that run at once: calls of a gate that return only once another was called, which one
// thread cannot do. Each waits at most so many turns, and then fails. All calls are heard, in their order.

use crate::checks::{expect_whole, follow_all, is_whole, plan_of};
use crate::files::{Case, LINE, SQUARE, sources_of};
use range_options::{BLOCK_LIMIT, DEPTH_LIMIT, Plan};
use range_plane::FIX_LIMIT;
use range_pump::{Gate, ThreadRuntime};
use std::alloc::Global;
use std::io::Read;
use std::process::Abort;
use std::sync::atomic::{AtomicBool, AtomicU64, Ordering};
use std::test::Fail;
use std::{io, thread};
use test_doubles::{HEADER, ScriptedSource};

const MOST_TURNS: u64 = 10_000_000;

#[derive(Clone, Copy, PartialEq)]
enum Call {
    BeforeSend(u32, u64),
    AfterTake(u32, u64),
}

// The calls for one file, which has so many fixes in blocks of one size on a line of one depth: how many came
// before a send, how many after a take, and how many of both came at another place than the next, or too soon.
#[derive(Drop)]
struct Calls {
    fixes: u64,
    block: u64,
    depth: u64,
    sends: AtomicU64,
    takes: AtomicU64,
    strays: AtomicU64,
}

impl Calls {
    fn new(fixes: u64, plan: Plan) -> Calls {
        Calls {
            fixes,
            block: u64::from(plan.block),
            depth: u64::from(plan.depth),
            sends: AtomicU64::new(0),
            takes: AtomicU64::new(0),
            strays: AtomicU64::new(0),
        }
    }

    // The place of the message that so many come before.
    fn place(&self, before: u64) -> u64 {
        before.saturating_mul(self.block).min(self.fixes)
    }

    // Of the messages before this one, one may be with the worker, and a line of them wait.
    fn hear_send(&self, place: u64) {
        let before = self.sends.fetch_add(1, Ordering::SeqCst);
        let most = self.takes.load(Ordering::SeqCst).saturating_add(self.depth);
        if place != self.place(before) || before > most.saturating_add(1) {
            self.strays.fetch_add(1, Ordering::SeqCst);
        }
    }

    fn hear_take(&self, place: u64) {
        let before = self.takes.fetch_add(1, Ordering::SeqCst);
        if place != self.place(before) || self.sends.load(Ordering::SeqCst) <= before {
            self.strays.fetch_add(1, Ordering::SeqCst);
        }
    }

    // Whether both calls came for each block and for the mark.
    fn are_all(&self) -> bool {
        let (sends, takes) = (&self.sends, &self.takes);
        self.strays.load(Ordering::SeqCst) == 0
            && [sends, takes].iter().all(|calls| {
                let calls = calls.load(Ordering::SeqCst);
                calls > 0
                    && self.place(calls.saturating_sub(1)) == self.fixes
                    && (calls == 1 || self.place(calls.saturating_sub(2)) < self.fixes)
            })
    }
}

// Two calls that wait for each other, how many turns of waiting both took, all calls, and how many came for
// other files.
#[derive(Drop)]
struct Meeting {
    calls: [Call; 2],
    called: [AtomicBool; 2],
    turns: AtomicU64,
    files: Vec<Calls>,
    others: AtomicU64,
}

impl Meeting {
    fn new(calls: [Call; 2], files: Vec<Calls>) -> Meeting {
        Meeting {
            calls,
            called: [AtomicBool::new(false), AtomicBool::new(false)],
            turns: AtomicU64::new(0),
            files,
            others: AtomicU64::new(0),
        }
    }

    fn hear(&self, call: Call) {
        if call == self.calls[0] {
            self.called[0].store(true, Ordering::SeqCst);
            wait_for(&self.called[1], &self.turns);
        }
        if call == self.calls[1] {
            self.called[1].store(true, Ordering::SeqCst);
            wait_for(&self.called[0], &self.turns);
        }
    }

    fn has_met(&self) -> bool {
        self.turns.load(Ordering::SeqCst) < MOST_TURNS
            && self.called[0].load(Ordering::SeqCst)
            && self.called[1].load(Ordering::SeqCst)
    }

    fn has_heard_all(&self) -> bool {
        self.others.load(Ordering::SeqCst) == 0 && self.files.iter().all(|calls| calls.are_all())
    }
}

// Waits until the call came, or all waiting took too many turns.
fn wait_for(called: &AtomicBool, turns: &AtomicU64) {
    for _ in 0..MOST_TURNS {
        if called.load(Ordering::SeqCst) || turns.fetch_add(1, Ordering::SeqCst) >= MOST_TURNS {
            return;
        }
        thread::yield_now();
    }
}

impl Gate for Meeting {
    fn before_send(&self, file: u32, place: u64) {
        match self.files.get(file as usize) {
            Some(calls) => calls.hear_send(place),
            None => {
                self.others.fetch_add(1, Ordering::SeqCst);
            }
        }
        self.hear(Call::BeforeSend(file, place));
    }

    // Gives the pumps some turns, so that they come as far as their line lets them.
    fn after_take(&self, file: u32, place: u64) {
        match self.files.get(file as usize) {
            Some(calls) => calls.hear_take(place),
            None => {
                self.others.fetch_add(1, Ordering::SeqCst);
            }
        }
        self.hear(Call::AfterTake(file, place));
        for _turn in 0..100 {
            thread::yield_now();
        }
    }
}

// Checks that the calls met while the files were followed, whose rows are those of the files, and that each
// call of the gate came.
fn expect_meeting<R: ThreadRuntime + Abort>(
    rt: &R,
    alloc: Global,
    cases: &[Case],
    calls: [Call; 2],
    plan: Plan,
) -> Result<(), Fail> {
    let mut files = Vec::new(alloc);
    for &case in cases {
        files.push(Calls::new(case.rows.len() as u64, plan))?;
    }
    let meeting = Meeting::new(calls, files);
    let all = follow_all(rt, alloc, sources_of(alloc, cases)?, &meeting, plan)?;
    for (followed, &case) in all.iter().zip(cases) {
        expect_whole(rt, alloc, followed, case)?;
    }
    assert!(rt; meeting.has_met(), "both calls at once");
    assert!(rt; meeting.has_heard_all(), "each call in its turn");
    Ok(())
}

#[test]
fn two_pumps_run_at_once(rt: HostRuntime) -> Result<(), Fail> {
    for workers in [1, 2] {
        for block in [1, 2, 5, BLOCK_LIMIT] {
            let calls = [Call::BeforeSend(0, 0), Call::BeforeSend(1, 0)];
            let plan = plan_of(block, 4, workers)?;
            expect_meeting(&rt, rt.alloc(), &[SQUARE, LINE], calls, plan)?;
        }
    }
    Ok(())
}

// While the worker has the first message, the line takes as many as it is deep, and the pump has one more.
#[test]
fn a_pump_and_its_worker_run_at_once(rt: HostRuntime) -> Result<(), Fail> {
    for workers in [1, 2] {
        for (depth, place) in [(1, 1), (1, 2), (3, 4), (4, 5)] {
            let calls = [Call::BeforeSend(0, place), Call::AfterTake(0, 0)];
            let plan = plan_of(1, depth, workers)?;
            expect_meeting(&rt, rt.alloc(), &[SQUARE], calls, plan)?;
        }
    }
    Ok(())
}

// Checks that a pump comes as far ahead of a worker that is at its first message as this plan's line is deep.
fn expect_ahead<R: ThreadRuntime + Abort>(rt: &R, alloc: Global, plan: Plan) -> Result<(), Fail> {
    let fixes = 100;
    let ahead = u64::from(plan.depth.saturating_add(1));
    let calls = [Call::BeforeSend(0, ahead), Call::AfterTake(0, 0)];
    let (mut files, mut sources) = (Vec::new(alloc), Vec::new(alloc));
    files.push(Calls::new(fixes, plan))?;
    let source = ScriptedSource::repeated(HEADER, b"A,0,0,0\n", fixes, b"", 8192);
    sources.push(source)?;
    let meeting = Meeting::new(calls, files);
    for followed in &follow_all(rt, alloc, sources, &meeting, plan)? {
        assert!(rt; is_whole(followed, fixes as usize), "the end");
    }
    assert!(rt; meeting.has_met(), "ahead by {ahead}");
    assert!(rt; meeting.has_heard_all(), "each call in its turn");
    Ok(())
}

#[test]
fn a_pump_goes_ahead_by_the_depth_of_its_line(rt: HostRuntime) -> Result<(), Fail> {
    for depth in [1, 5, DEPTH_LIMIT - 1, DEPTH_LIMIT] {
        expect_ahead(&rt, rt.alloc(), plan_of(1, depth, 1)?)?;
    }
    Ok(())
}

#[test]
fn two_workers_run_at_once(rt: HostRuntime) -> Result<(), Fail> {
    let calls = [Call::AfterTake(0, 0), Call::AfterTake(1, 0)];
    let plan = plan_of(1, 4, 2)?;
    expect_meeting(&rt, rt.alloc(), &[SQUARE, LINE], calls, plan)
}

// Whether the first message was taken, and how many turns a read waited for it.
#[derive(Drop)]
struct FirstTake {
    taken: AtomicBool,
    turns: AtomicU64,
}

impl Gate for FirstTake {
    fn before_send(&self, _file: u32, _place: u64) {}

    fn after_take(&self, _file: u32, _place: u64) {
        self.taken.store(true, Ordering::SeqCst);
    }
}

// A source that gives no byte past the first ones until a message was taken.
#[derive(Drop)]
struct Held<'a> {
    source: ScriptedSource<'a>,
    free: u64,
    gate: &'a FirstTake,
}

impl Read for Held<'_> {
    fn read(&mut self, buf: &mut [u8]) -> io::Result<usize> {
        if self.free == 0 {
            wait_for(&self.gate.taken, &self.gate.turns);
        }
        let count = self.source.read(buf)?;
        self.free = self.free.saturating_sub(count as u64);
        Ok(count)
    }
}

#[test]
fn a_worker_runs_while_its_source_is_read(rt: HostRuntime) -> Result<(), Fail> {
    let alloc = rt.alloc();
    let gate = FirstTake {
        taken: AtomicBool::new(false),
        turns: AtomicU64::new(0),
    };
    let mut sources = Vec::new(alloc);
    let held = Held {
        source: ScriptedSource::repeated(HEADER, b"A,0,0,0\n", u64::from(FIX_LIMIT), b"", 8192),
        free: 65_536,
        gate: &gate,
    };
    sources.push(held)?;
    let all = follow_all(&rt, alloc, sources, &gate, plan_of(256, 4, 1)?)?;
    for followed in &all {
        assert!(rt; is_whole(followed, FIX_LIMIT as usize), "the end");
    }
    assert!(rt; gate.turns.load(Ordering::SeqCst) < MOST_TURNS, "at once");
    Ok(())
}
