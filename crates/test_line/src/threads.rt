// A test of two threads, of which one sends a list and the other takes it. Where the second thread cannot
// start or an allocation fails, the test fails, and does not wait.

ghost use Rattle.std.specs.Prelude.{◌≡◌, false, true, [], ◌∷◌, IfOk};

use crate::blocks::{are_fixes, fixes};
use range_line::{Body, Feeder, Settled, Taker, open_line, settle};
use range_plane::{FIX_LIMIT, OutOfMemory};
use std::alloc::Global;
use std::snapshot::Snapshot;
use std::sync::Wait;
use std::test::Fail;
use std::thread;
use std::thread::{Promise, Scope, Threads};

const BLOCKS: u64 = 100;

// The feeder comes back with the line and the file that it had.
#[derive(Drop)]
struct SenderOf {
    feeder: Snapshot<Feeder>,
}

impl Promise<Feeder> for SenderOf {
    ghost use Rattle.std.specs.Prelude.{◌≡◌};

    ghost kept_by = { λ p f. (f.line ≡ p.feeder.value.line) × (f.file ≡ p.feeder.value.file) };
}

// Sends blocks of one fix each, at the seconds from 0 on, and closes, also where it cannot send all: the
// taker waits for the mark as long as the feeder is kept.
fn send_all<R: Wait>(rt: &R, alloc: Global, mut feeder: Feeder) -> Feeder
    requires { (feeder.closed ≡ false) × (feeder.ended ≡ false) }
    ensures { (result.line ≡ feeder.line) × (result.file ≡ feeder.file) }
{
    for second in 0..BLOCKS {
        let Ok(block) = fixes(alloc, second, 1) else {
            break;
        };
        if feeder.sent_fixes() >= u64::from(FIX_LIMIT) || feeder.send(rt, block).is_err() {
            break;
        }
    }
    feeder.close(rt);
    feeder
}

// Takes up to the mark, and answers how many blocks of one fix came at the seconds from 0 on.
fn take_all<R: Wait>(rt: &R, taker: &mut Taker) -> u64
    requires { taker.old.ended ≡ false }
    ensures { (taker.new.line ≡ taker.old.line) × (taker.new.files ≡ taker.old.files) }
{
    let mut next = 0u64;
    for _ in rt.forever() {
        let Some(message) = taker.take(rt) else {
            break;
        };
        match &message.body {
            Body::Mark => break,
            Body::Block(block) => {
                if message.place == next && are_fixes(block.as_slice(), next, 1) {
                    next = next.saturating_add(1);
                }
            }
        }
    }
    next
}

// Opens a line for one file, sends in a thread of the scope, takes in this one, and ends the line.
// Answers how many blocks came as they were sent, as well.
fn relay_in<'s, E, R: Wait + Threads + Sync>(
    rt: &'s R,
    scope: &'s Scope<'s, E>,
    alloc: Global,
) -> Result<(Settled, u64), OutOfMemory> {
    let (mut feeders, mut taker) = open_line(alloc, 3, 1, 1, 2)?;
    let Some(feeder) = feeders.pop() else {
        unreachable!()
    };
    let promise = SenderOf {
        feeder: Snapshot::of(&feeder),
    };
    let Ok(sender) = scope.spawn_with(
        promise,
        move || -> Feeder
            requires { (feeder.closed ≡ false) × (feeder.ended ≡ false) }
            ensures { (result.line ≡ feeder.line) × (result.file ≡ feeder.file) }
        { send_all(rt, alloc, feeder) },
    ) else {
        return Err(OutOfMemory);
    };
    let count = take_all(rt, &mut taker);
    feeders.push(sender.join(rt))?;
    Ok((settle(rt, taker, feeders), count))
}

fn relay<R: Wait + Threads + Sync>(rt: &R, alloc: Global) -> Result<(Settled, u64), OutOfMemory> {
    thread::scope(
        thread::scope_env(),
        rt,
        move |scope| -> Result<(Settled, u64), OutOfMemory> { relay_in(rt, scope, alloc) },
    )
}

#[test]
fn a_list_crosses_threads(rt: HostRuntime) -> Result<(), Fail> {
    let (settled, count) = relay(&rt, rt.alloc())?;
    assert_eq!(rt; count, BLOCKS, "blocks");
    assert!(rt; settled.extra.is_none(), "all was taken");
    for feeder in &settled.feeders {
        assert_eq!(rt; feeder.sent_fixes(), BLOCKS, "fixes");
        assert!(rt; feeder.closed(), "the end");
    }
    assert_eq!(rt; settled.feeders.len(), 1, "feeders");
    Ok(())
}
