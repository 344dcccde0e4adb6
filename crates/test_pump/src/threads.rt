// A test of a pump in a thread of its own, whose taker goes while it sends.

ghost use Rattle.std.specs.Prelude.{◌≡◌, false, []};

use crate::pumps::{Expecting, ends, is_square, open_one};
use range_fixes::ReadFault;
use range_line::{Feeder, Message, Taker};
use range_plane::Scale;
use range_pump::{Pumped, ThreadRuntime, pump};
use std::alloc::Global;
use std::test::Fail;
use std::thread;
use std::thread::Scope;
use test_doubles::{FILE_A, ScriptedSource};

// Pumps the file in a thread of the scope, takes one message and drops the taker. What was taken, and what
// the pump gives back; `None` where no thread was started.
fn take_one_in<'s, E, R: ThreadRuntime>(
    rt: &'s R,
    scope: &'s Scope<'s, E>,
    alloc: Global,
    feeder: Feeder,
    mut taker: Taker,
    gate: &'s Expecting,
) -> Option<(Option<Message>, Pumped)>
    requires feeder { (feeder.closed ≡ false) × (feeder.ended ≡ false) × (feeder.sent ≡ []) }
    requires taker { taker.ended ≡ false }
{
    let source = ScriptedSource::new(FILE_A, 8192);
    let Ok(pumping) = scope.spawn(
        move || -> Pumped
            requires { (feeder.closed ≡ false) × (feeder.ended ≡ false) × (feeder.sent ≡ []) }
        { pump(rt, alloc, source, feeder, gate, 1, Scale::Metre) },
    ) else {
        return None;
    };
    let taken = taker.take(rt);
    drop(taker);
    Some((taken, pumping.join(rt)))
}

fn take_one<R: ThreadRuntime>(
    rt: &R,
    alloc: Global,
    feeder: Feeder,
    taker: Taker,
    gate: &Expecting,
) -> Option<(Option<Message>, Pumped)>
    requires feeder { (feeder.closed ≡ false) × (feeder.ended ≡ false) × (feeder.sent ≡ []) }
    requires taker { taker.ended ≡ false }
{
    thread::scope(
        thread::scope_env(),
        rt,
        move |scope| -> Option<(Option<Message>, Pumped)>
            requires { (feeder.closed ≡ false) × (feeder.ended ≡ false) × (feeder.sent ≡ [])
                × (taker.ended ≡ false) }
        { take_one_in(rt, scope, alloc, feeder, taker, gate) },
    )
}

// The block that was taken is sent, and maybe the one behind it; the next is handed back, whenever the taker
// goes, and nothing comes after it.
#[test]
fn a_block_is_handed_back_once_the_taker_has_gone(rt: HostRuntime) -> Result<(), Fail> {
    for run in 0..20 {
        let (feeder, taker) = open_one(rt.alloc(), 1)?;
        let gate = Expecting::new(&[0, 1, 2]);
        let (taken, pumped) = take_one(&rt, rt.alloc(), feeder, taker, &gate).ok_or("no thread")?;
        assert!(rt; is_square(&taken, 0, 1), "the first block in run {run}");
        let sent = pumped.feeder.sent_fixes();
        assert!(rt; sent == 1 || sent == 2, "{sent} fixes in run {run}");
        assert!(rt;
            ends(&pumped, sent, false, ReadFault::Gone),
            "the end of run {run}"
        );
        assert!(rt; gate.has_heard(sent as usize + 1), "calls in run {run}");
    }
    Ok(())
}
