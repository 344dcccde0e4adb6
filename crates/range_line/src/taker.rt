// The end of a line that takes what its feeders send, and the opening of lines.

ghost use Rattle.std.specs.Prelude.{◌≡◌, ℕ, ◌<◌, ◌≤◌, false, map, Contains, IfOk, IfSome};
ghost use Rattle.std.specs.Option.{MatchOption};
ghost use Rattle.range_options.specs.Limits.{depth_limit, file_limit};
ghost use Rattle.range_line.specs.LineEnds.{after_take, files_from, first_file, new_feeder, new_taker};
ghost use Rattle.range_line.specs.Messages.{IsLawful};

use crate::channel::take;
use crate::feeder::{Feeder, LinePass};
use crate::message::Message;
use crate::rule::{LineRule, PassView};
use crossbeam_channel::{RuledReceiver, bounded_with};
use range_plane::OutOfMemory;
use std::alloc::{Allocator, Global};
use std::marker::Model;
use std::sync::Wait;

pub(crate) type Receiver<A> = RuledReceiver<Message, PassView, LineRule, A>;

/// The end of a line that takes what its feeders send.
///
/// Contracts see its line, the line's files in the order of the feeders, its depth, the messages that
/// were taken, and whether the line has ended.
#[derive(Drop)]
pub struct Taker<A: Allocator + Clone = Global> {
    pub(crate) receiver: Receiver<A>,
    pub(crate) pass: LinePass,
    pub(crate) ended: bool,
}

impl<A: Allocator + Clone> Model for Taker<A> {
    ghost use Rattle.range_line.specs.LineEnds.{TakerView};

    ghost Value = { TakerView };

    ghost use Rattle.crossbeam_channel.specs.Claims.{IsSeatAt};
    ghost use Rattle.crossbeam_channel.specs.Ends.{receives_on};
    ghost use Rattle.range_line.specs.Passes.{depth_known, files_known, line_of, taken_by, IsTaking};

    ghost view = { λ t. record {
      line = line_of t.pass;
      files = files_known t.pass;
      depth = depth_known t.pass;
      taken = taken_by t.pass;
      ended = t.ended;
    } };

    ghost invariant = { λ t. IsSeatAt (receives_on t.receiver) t.pass × IsTaking t.pass };
}

/// Opens a line for `count` files, of which the first is `first` and each other one comes `step` after the
/// one before, with a feeder for each, in that order. The line holds at most `depth` messages. No end of it
/// takes memory after this.
///
/// # Errors
///
/// Where an allocation failed.
pub fn open_line<A: Allocator + Clone + Copy>(
    alloc: A,
    first: u32,
    step: u32,
    count: u32,
    depth: usize,
) -> Result<(Vec<Feeder<A>, A>, Taker<A>), OutOfMemory>
    requires files { (first < file_limit) × (1 ≤ step) × (step ≤ file_limit) × (1 ≤ count)
        × (count ≤ file_limit) }
    requires depth { (1 ≤ depth) × (depth ≤ depth_limit) }
    ensures feeders { IfOk result (λ r. r.0.items
        ≡ map (new_feeder r.1.line) (files_from first step count)) }
    ensures taker { IfOk result (λ r. r.1
        ≡ new_taker r.1.line (files_from first step count) depth) }
    ensures line { IfOk result (λ r. first_file r.1.line ≡ first) }
{
    let (sender, receiver, mut pass) = bounded_with::<Message, PassView, LineRule, A>(
        alloc, depth,
    )?;
    let mut feeders = Vec::with_capacity(alloc, count as usize)?;
    for number in 0..count {
        feeders.push_reserved(Feeder::open(&sender, &mut pass, first + number * step)?);
    }
    let taker = Taker {
        receiver,
        pass,
        ended: false,
    };
    Ok((feeders, taker))
}

impl<A: Allocator + Clone> Taker<A> {
    /// Takes the oldest message, and waits for one while a feeder of the line is left, so also while one
    /// that has nothing more to send is kept. Takes no memory. `None` where nothing was taken, as where
    /// all feeders are gone; the taker has then not changed.
    pub fn take<R: Wait>(&mut self, rt: &R) -> Option<Message>
        requires live { self.old.ended ≡ false }
        ensures line { (self.new.line ≡ self.old.line) × (self.new.files ≡ self.old.files)
            × (self.new.ended ≡ false) }
        ensures taken { MatchOption result (self.new ≡ self.old) (λ m. self.new
            ≡ after_take self.old m) }
        ensures of_line { IfSome result (λ m. Contains self.old.files m.file) }
        ensures lawful { (file : ℕ) → IsLawful self.new.taken file }
    {
        take(rt, &self.receiver, &mut self.pass).ok()
    }
}
