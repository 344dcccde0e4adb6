// Tests of the ends of a line, in one thread.

ghost use Rattle.std.specs.Prelude.{◌≡◌, false, [], ◌∷◌, IfOk};
ghost use Rattle.range_line.specs.LineEnds.{AreForFiles, AreOfLine};

use crate::blocks::{are_fixes, fixes, is_block};
use crate::is_mark;
use range_line::{Feeder, Settled, Taker, open_line, settle};
use range_options::BLOCK_LIMIT;
use range_plane::OutOfMemory;
use std::alloc::Global;
use std::process::Abort;
use std::sync::Wait;
use std::test::Fail;

// A line of depth 4 for file 3, with two fixes, one fix and the mark on it.
fn three_messages<R: Wait + Abort>(rt: &R, alloc: Global) -> Result<(Feeder, Taker), Fail>
    ensures { IfOk result (λ r. (r.0.line ≡ r.1.line) × (r.1.files ≡ r.0.file ∷ [])
        × (r.1.ended ≡ false)) }
{
    let (mut feeders, taker) = open_line(alloc, 3, 1, 1, 4)?;
    let mut feeder = feeders.pop().ok_or("no feeder")?;
    assert!(rt; feeder.send(rt, fixes(alloc, 60, 2)?).is_ok(), "two fixes");
    assert!(rt; feeder.send(rt, fixes(alloc, 120, 1)?).is_ok(), "one fix");
    assert!(rt; feeder.close(rt), "the mark");
    Ok((feeder, taker))
}

fn settle_one<R: Wait>(
    rt: &R,
    alloc: Global,
    feeder: Feeder,
    taker: Taker,
) -> Result<Settled, OutOfMemory>
    requires { (feeder.line ≡ taker.line) × (taker.files ≡ feeder.file ∷ []) }
    ensures { IfOk result (λ s. AreOfLine s.feeders.items s.taker.line
        × AreForFiles s.feeders.items s.taker.files) }
{
    let mut feeders = Vec::with_capacity(alloc, 1)?;
    feeders.push_reserved(feeder);
    Ok(settle(rt, taker, feeders))
}

fn settle_three<R: Wait>(
    rt: &R,
    alloc: Global,
    first: Feeder,
    second: Feeder,
    third: Feeder,
    taker: Taker,
) -> Result<Settled, OutOfMemory>
    requires line { (first.line ≡ taker.line) × (second.line ≡ taker.line)
        × (third.line ≡ taker.line) }
    requires files { taker.files ≡ first.file ∷ second.file ∷ third.file ∷ [] }
{
    let mut feeders = Vec::with_capacity(alloc, 3)?;
    feeders.push_reserved(first);
    feeders.push_reserved(second);
    feeders.push_reserved(third);
    Ok(settle(rt, taker, feeders))
}

// Whether a settled line has feeders for these files in this order, which sent so many fixes and are
// closed as it says.
fn are_ends(settled: &Settled, ends: &[(u32, u64, bool)]) -> bool {
    let mut equal = settled.feeders.len() == ends.len();
    for (feeder, end) in settled.feeders.iter().zip(ends) {
        equal = equal && (feeder.file(), feeder.sent_fixes(), feeder.closed()) == *end;
    }
    equal
}

#[test]
fn what_one_feeder_sent_is_taken_in_turn(rt: HostRuntime) -> Result<(), Fail> {
    let (feeder, mut taker) = three_messages(&rt, rt.alloc())?;
    assert!(rt; is_block(&taker.take(&rt), 3, 0, 60, 2), "the first block");
    assert!(rt;
        is_block(&taker.take(&rt), 3, 2, 120, 1),
        "the second block"
    );
    assert!(rt; is_mark(&taker.take(&rt), 3, 3), "the mark");
    let settled = settle_one(&rt, rt.alloc(), feeder, taker)?;
    assert!(rt; settled.extra.is_none(), "all was taken");
    assert!(rt; are_ends(&settled, &[(3, 3, true)]), "the feeder");
    Ok(())
}

#[test]
fn settling_gives_the_message_that_was_left(rt: HostRuntime) -> Result<(), Fail> {
    let (feeder, mut taker) = three_messages(&rt, rt.alloc())?;
    assert!(rt; is_block(&taker.take(&rt), 3, 0, 60, 2), "the first block");
    assert!(rt;
        is_block(&taker.take(&rt), 3, 2, 120, 1),
        "the second block"
    );
    let settled = settle_one(&rt, rt.alloc(), feeder, taker)?;
    assert!(rt; is_mark(&settled.extra, 3, 3), "the mark");
    let again = settle(&rt, settled.taker, settled.feeders);
    assert!(rt; again.extra.is_none(), "nothing more");
    assert!(rt; are_ends(&again, &[(3, 3, true)]), "the feeder");
    Ok(())
}

// Ended with all messages on it, the line gives them in turn.
#[test]
fn settling_gives_each_message_that_was_left_in_turn(rt: HostRuntime) -> Result<(), Fail> {
    let (feeder, taker) = three_messages(&rt, rt.alloc())?;
    let settled = settle_one(&rt, rt.alloc(), feeder, taker)?;
    assert!(rt; is_block(&settled.extra, 3, 0, 60, 2), "the first block");
    let settled = settle(&rt, settled.taker, settled.feeders);
    assert!(rt; is_block(&settled.extra, 3, 2, 120, 1), "the second block");
    let settled = settle(&rt, settled.taker, settled.feeders);
    assert!(rt; is_mark(&settled.extra, 3, 3), "the mark");
    let again = settle(&rt, settled.taker, settled.feeders);
    assert!(rt; again.extra.is_none(), "nothing more");
    assert!(rt; are_ends(&again, &[(3, 3, true)]), "the feeder");
    Ok(())
}

#[test]
fn a_line_without_a_mark_is_settled_in_the_same_way(rt: HostRuntime) -> Result<(), Fail> {
    let (mut feeders, taker) = open_line(rt.alloc(), 3, 1, 1, 4)?;
    let mut feeder = feeders.pop().ok_or("no feeder")?;
    let block = fixes(rt.alloc(), 60, 2)?;
    assert!(rt; feeder.send(&rt, block).is_ok(), "two fixes");
    let settled = settle_one(&rt, rt.alloc(), feeder, taker)?;
    assert!(rt; is_block(&settled.extra, 3, 0, 60, 2), "the block");
    let again = settle(&rt, settled.taker, settled.feeders);
    assert!(rt; again.extra.is_none(), "no mark");
    assert!(rt; are_ends(&again, &[(3, 2, false)]), "the feeder");
    Ok(())
}

#[test]
fn without_feeders_the_taker_is_given_what_they_sent_and_then_nothing(
    rt: HostRuntime,
) -> Result<(), Fail> {
    let (feeder, mut taker) = three_messages(&rt, rt.alloc())?;
    drop(feeder);
    assert!(rt; is_block(&taker.take(&rt), 3, 0, 60, 2), "the first block");
    assert!(rt;
        is_block(&taker.take(&rt), 3, 2, 120, 1),
        "the second block"
    );
    assert!(rt; is_mark(&taker.take(&rt), 3, 3), "the mark");
    assert!(rt; taker.take(&rt).is_none(), "nothing");
    assert!(rt; taker.take(&rt).is_none(), "nothing again");
    let (feeders, mut taker) = open_line(rt.alloc(), 1, 2, 3, 4)?;
    drop(feeders);
    assert!(rt; taker.take(&rt).is_none(), "nothing was sent");
    Ok(())
}

#[test]
fn without_a_taker_a_message_is_handed_back(rt: HostRuntime) -> Result<(), Fail> {
    let (mut feeders, taker) = open_line(rt.alloc(), 3, 1, 1, 4)?;
    let mut feeder = feeders.pop().ok_or("no feeder")?;
    drop(taker);
    let block = fixes(rt.alloc(), 60, 2)?;
    let back = feeder.send(&rt, block).err().ok_or("a block was sent")?;
    assert!(rt; are_fixes(&back, 60, 2), "the same block");
    assert!(rt; !feeder.close(&rt), "the mark");
    assert_eq!(rt; feeder.sent_fixes(), 0, "fixes");
    assert!(rt; !feeder.closed(), "the end");
    Ok(())
}

#[test]
fn messages_of_three_feeders_are_taken_in_the_order_they_were_sent(
    rt: HostRuntime,
) -> Result<(), Fail> {
    let alloc = rt.alloc();
    let (mut feeders, mut taker) = open_line(alloc, 1, 2, 3, 4)?;
    let mut third = feeders.pop().ok_or("no third feeder")?;
    let mut second = feeders.pop().ok_or("no second feeder")?;
    let mut first = feeders.pop().ok_or("no first feeder")?;
    assert!(rt;
        second.send(&rt, fixes(alloc, 60, 1)?).is_ok(),
        "a fix of file 3"
    );
    assert!(rt;
        first.send(&rt, fixes(alloc, 70, 1)?).is_ok(),
        "a fix of file 1"
    );
    assert!(rt; second.close(&rt), "the mark of file 3");
    assert!(rt; third.close(&rt), "the mark of file 5");
    assert!(rt;
        is_block(&taker.take(&rt), 3, 0, 60, 1),
        "the fix of file 3"
    );
    assert!(rt;
        is_block(&taker.take(&rt), 1, 0, 70, 1),
        "the fix of file 1"
    );
    assert!(rt; is_mark(&taker.take(&rt), 3, 1), "the mark of file 3");
    assert!(rt; is_mark(&taker.take(&rt), 5, 0), "the mark of file 5");
    let settled = settle_three(&rt, alloc, first, second, third, taker)?;
    assert!(rt; settled.extra.is_none(), "all was taken");
    assert!(rt;
        are_ends(&settled, &[(1, 1, false), (3, 1, true), (5, 0, true)]),
        "the feeders"
    );
    Ok(())
}

#[test]
fn a_mark_is_sent_behind_each_number_of_fixes(rt: HostRuntime) -> Result<(), Fail> {
    for count in 1..=BLOCK_LIMIT as usize {
        let (mut feeders, mut taker) = open_line(rt.alloc(), 3, 1, 1, 2)?;
        let mut feeder = feeders.pop().ok_or("no feeder")?;
        let block = fixes(rt.alloc(), 60, count)?;
        assert!(rt; feeder.send(&rt, block).is_ok(), "{count} fixes");
        assert!(rt; feeder.close(&rt), "the mark after {count}");
        assert!(rt;
            is_block(&taker.take(&rt), 3, 0, 60, count),
            "a block of {count}"
        );
        assert!(rt;
            is_mark(&taker.take(&rt), 3, count as u64),
            "the mark after {count}"
        );
    }
    Ok(())
}
