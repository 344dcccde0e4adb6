// Calls that wait for the other end of a line, which step aside once before they do.
//
// A call of the channel's that has to wait looks for the other end's next step for some microseconds, and then
// sleeps. Where both ends share a core, that step is not taken before this thread has let the other one run.

ghost use Rattle.std.specs.Prelude.{◌≡◌, MatchResult};
ghost use Rattle.crossbeam_channel.specs.Claims.{view, IsSeatAt};
ghost use Rattle.crossbeam_channel.specs.Ends.{receives_on, ruled_capacity, sends_on};
ghost use Rattle.crossbeam_channel.specs.Fifo.{Learns, Pops, Pushes};
ghost use Rattle.range_line.specs.Rule.{after_sending, IsRest, IsRuled, Takes};

use crate::feeder::{LinePass, Sender};
use crate::message::Message;
use crate::rule;
use crate::taker::Receiver;
use crossbeam_channel::RecvError;
use std::alloc::Allocator;
use std::sync::Wait;
use std::thread;

// Sends a message, and waits while the line is full. It comes back where the taker is gone.
pub(crate) fn send<R: Wait, A: Allocator + Clone>(
    rt: &R,
    sender: &Sender<A>,
    pass: &mut LinePass,
    message: Message,
) -> Result<(), Message>
    requires channel { IsSeatAt (sends_on sender.now) pass.old }
    requires rule { Pushes IsRuled (ruled_capacity (sends_on sender.now)) pass.old.id
        (view pass.old) message (λ w. w ≡ after_sending (view pass.old) message) }
    ensures channel { IsSeatAt (sends_on sender.now) pass.new × (pass.new.id ≡ pass.old.id) }
    ensures rule { MatchResult result (λ _. view pass.new
        ≡ after_sending (view pass.old) message) (λ back. (back ≡ message)
        × (view pass.new ≡ view pass.old)) }
{
    let Err(refused) = sender.try_send_as::<rule::Sends, R>(rt, pass, message) else {
        return Ok(());
    };
    thread::yield_now();
    match sender.send_as::<rule::Sends, R>(rt, pass, refused.into_inner()) {
        Ok(()) => Ok(()),
        Err(refused) => Err(refused.into_inner()),
    }
}

// Takes the oldest message, and waits for one while a feeder of the line is left.
pub(crate) fn take<R: Wait, A: Allocator + Clone>(
    rt: &R,
    receiver: &Receiver<A>,
    pass: &mut LinePass,
) -> Result<Message, RecvError>
    requires channel { IsSeatAt (receives_on receiver.now) pass.old }
    requires rule { Pops IsRuled pass.old.id (view pass.old) (Takes (view pass.old))
        × Learns IsRuled pass.old.id (view pass.old) (λ items. IsRest (view pass.old) items) }
    ensures channel { IsSeatAt (receives_on receiver.now) pass.new × (pass.new.id ≡ pass.old.id) }
    ensures rule { MatchResult result (λ m. Takes (view pass.old) m (view pass.new))
        (λ _. view pass.new ≡ view pass.old) }
{
    if let Ok(message) = receiver.try_recv_as::<rule::Takes, R>(rt, pass) {
        return Ok(message);
    }
    thread::yield_now();
    receiver.recv_as::<rule::Takes, R>(rt, pass)
}
