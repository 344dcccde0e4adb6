// The rule of a line, to which the channel holds every step that an end takes.
//
// A pass is a token of the channel's that takes no bytes, and its view, which proofs alone see, is what
// its holder knows. The lists of messages that contracts speak of stand in such views, so no value of
// the two types of views is ever made.

use crate::message::Message;
use crossbeam_channel::protocol::{Join, Lesson, Outcome, Protocol, Split};
use std::collections::LinkedList;
use std::marker::{Brand, PhantomData};

// What a feeder has sent.
pub struct Transcript {
    pub file: u32,
    pub sent: LinkedList<Message>,
    pub closed: bool,
}

// The view of a pass: whether its holder may take, and what was taken; whether it may send, and what was
// sent.
pub struct PassView {
    pub takes: bool,
    pub sends: bool,
    pub depth: u64,
    pub files: LinkedList<u32>,
    pub taken: LinkedList<Message>,
    pub transcripts: LinkedList<Transcript>,
}

// The rule over the messages that the channel holds and the views of all passes.
pub struct LineRule;

impl Protocol<Message, PassView> for LineRule {
    ghost use Rattle.range_line.specs.Rule.{IsRuled, first_pass};

    ghost holds = { IsRuled };

    ghost first = { first_pass };
}

// The file and the depth with which a feeder is opened, known to proofs alone.
pub trait Opening {
    ghost use Rattle.std.specs.Prelude.{ℕ};

    ghost file: { ℕ };

    ghost depth: { ℕ };
}

impl Opening for Brand {
    ghost file = { 0 };

    ghost depth = { 0 };
}

// A feeder's pass is split off the taker's.
pub struct Opens<B: Opening> {
    of: PhantomData<B>,
}

impl<B: Opening> Split<PassView> for Opens<B> {
    ghost use Rattle.std.specs.Prelude.{[], get_or, true, false};
    ghost use Rattle.range_line.specs.Rule.{after_opening, feeder_pass};

    ghost left = { λ v. after_opening B.depth B.file v };

    ghost right = { λ v. feeder_pass B.depth (get_or v.files 0 B.file) B.file [] false true };
}

// A feeder ends: a pass with what it sent is split off its own, and the taker takes that in.
pub struct Ends;

impl Split<PassView> for Ends {
    ghost use Rattle.range_line.specs.Rule.{after_ending};

    ghost left = { after_ending };

    ghost right = { after_ending };
}

impl Join<PassView> for Ends {
    ghost use Rattle.range_line.specs.Rule.{after_joining, spent_pass};

    ghost both = { after_joining };

    ghost spent = { spent_pass };
}

// A feeder puts a message at the back.
pub struct Sends;

impl Outcome<Message, PassView> for Sends {
    ghost use Rattle.std.specs.Prelude.{◌≡◌};
    ghost use Rattle.range_line.specs.Rule.{after_sending};

    ghost then = { λ v m w. w ≡ after_sending v m };
}

impl Lesson<Message, PassView> for Sends {
    ghost use Rattle.std.specs.Prelude.{⊤};

    ghost fact = { λ v items. ⊤ };
}

// The taker takes the message at the front, or learns what is still to be taken.
pub struct Takes;

impl Outcome<Message, PassView> for Takes {
    ghost use Rattle.range_line.specs.Rule.{Takes};

    ghost then = { Takes };
}

impl Lesson<Message, PassView> for Takes {
    ghost use Rattle.range_line.specs.Rule.{IsRest};

    ghost fact = { λ v items. IsRest v items };
}
