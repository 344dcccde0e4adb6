// The end of a line.

ghost use Rattle.std.specs.Prelude.{◌≡◌, ℕ, [], map, All, Contains, IfNone, IfSome};
ghost use Rattle.crossbeam_channel.specs.Claims.{view};
ghost use Rattle.range_line.specs.LineEnds.{ended_feeder, ended_taker, AreForFiles, AreOfLine, IsAllTaken, IsTakenOf};
ghost use Rattle.range_line.specs.Messages.{IsLawful};
ghost use Rattle.range_line.specs.Passes.{after_joining_all, line_of, taken_by, AreOf, HasTranscripts, IsTaking};

use crate::feeder::{Feeder, LinePass};
use crate::message::Message;
use crate::rule::Takes;
use crate::taker::Taker;
use std::alloc::{Allocator, Global};
use std::sync::Wait;

/// A line that has ended. Its ends are for reading, and for another [`settle`], alone.
#[derive(Drop)]
pub struct Settled<A: Allocator + Clone = Global> {
    pub taker: Taker<A>,
    /// In the order in which they were handed in.
    pub feeders: Vec<Feeder<A>, A>,
    /// The message that was taken at the end; `None` where all that the feeders sent was taken.
    pub extra: Option<Message>,
}

/// Ends a line, given its taker and all its feeders, and tries once to take a message, which may have to
/// be done again until there is none. It waits for no message, only for a step that another thread is in
/// the middle of, and takes no memory.
pub fn settle<R: Wait, A: Allocator + Clone>(
    rt: &R,
    taker: Taker<A>,
    mut feeders: Vec<Feeder<A>, A>,
) -> Settled<A>
    requires line { AreOfLine feeders.items taker.line }
    requires files { AreForFiles feeders.items taker.files }
    ensures feeders { result.feeders.items ≡ map ended_feeder feeders.items }
    ensures taker { result.taker ≡ ended_taker taker result.extra }
    ensures of_line { IfSome result.extra (λ m. Contains taker.files m.file) }
    ensures lawful { (file : ℕ) → IsLawful result.taker.taken file }
    ensures taken { All (λ f. IsTakenOf result.taker.taken f) result.feeders.items }
    ensures whole { IfNone result.extra
        (All (λ f. IsAllTaken result.taker.taken f) result.feeders.items) }
    ensures line { AreOfLine result.feeders.items result.taker.line }
    ensures files { AreForFiles result.feeders.items result.taker.files }
{
    let Taker {
        receiver,
        mut pass,
        ended: _,
    } = taker;
    end_all(&mut pass, &mut feeders);
    let extra = receiver.try_recv_as::<Takes, R>(rt, &mut pass).ok();
    compare(&mut pass, &feeders);
    let taker = Taker {
        receiver,
        pass,
        ended: true,
    };
    Settled {
        taker,
        feeders,
        extra,
    }
}

// Ends the feeders one by one, and shows the taker what they sent.
fn end_all<A: Allocator + Clone>(pass: &mut LinePass, feeders: &mut Vec<Feeder<A>, A>)
    requires taker { IsTaking pass.old × (pass.old.me.1 ≡ []) }
    requires line { AreOf (line_of pass.old) feeders.old.items }
    ensures feeders { feeders.new.items ≡ map ended_feeder feeders.old.items }
    ensures taker { IsTaking pass.new × (pass.new.me.1 ≡ [])
        × (line_of pass.new ≡ line_of pass.old) }
    ensures transcripts { view pass.new ≡ after_joining_all (view pass.old) feeders.old.items }
{
    for feeder in feeders.iter_mut() {
        feeder.end(pass);
    }
}

// Tells the taker how what it took stands to what the feeders sent.
fn compare<A: Allocator + Clone>(pass: &mut LinePass, feeders: &Vec<Feeder<A>, A>)
    requires taker { IsTaking pass.old × (pass.old.me.1 ≡ []) }
    requires line { AreOf (line_of pass.old) feeders.now.items }
    requires transcripts { HasTranscripts pass.old feeders.now.items }
    ensures pass { (view pass.new ≡ view pass.old) × (pass.new.me.1 ≡ [])
        × (line_of pass.new ≡ line_of pass.old) }
    ensures taken { All (λ f. IsTakenOf (taken_by pass.old) f) feeders.now.items }
{
    if let Some(feeder) = feeders.first() {
        feeder.learn(pass);
    }
}
