// The end of a line that sends the fixes of one file.

ghost use Rattle.std.specs.Prelude.{◌≡◌, ◌+◌, ◌≤◌, ◌⊎◌, List, true, false, [], ◌∷◌, get_or, length, Contains, IfOk, MatchBool, MatchResult};
ghost use Rattle.crossbeam_channel.specs.Claims.{view, IsSeatAt};
ghost use Rattle.crossbeam_channel.specs.Ends.{sends_on, ruled_capacity};
ghost use Rattle.range_plane.specs.Fix.{fix_limit};
ghost use Rattle.range_options.specs.Limits.{block_limit};
ghost use Rattle.range_line.specs.LineEnds.{after_send, ended_feeder, new_feeder, next_message};
ghost use Rattle.range_line.specs.Messages.{block_of, has_mark, all_fixes, of_file, the_mark, IsLawful};
ghost use Rattle.range_line.specs.Passes.{after_joining_all, line_from, line_of, IsTaking};
ghost use Rattle.range_line.specs.Rule.{after_opening, feeder_pass, taker_pass, IsRest};

use crate::channel::send;
use crate::message::{Block, Body, Message};
use crate::rule::{Ends, LineRule, Opening, Opens, PassView, Takes};
use crossbeam_channel::{Pass, RuledSender};
use range_plane::{Fix, OutOfMemory};
use std::alloc::{Allocator, Global};
use std::marker::{Brand, Model};
use std::sync::Wait;

pub(crate) type Sender<A> = RuledSender<Message, PassView, LineRule, A>;

pub(crate) type LinePass = Pass<Message, PassView>;

/// The end of a line that sends the fixes of one file: blocks, and then the mark that closes it.
///
/// Contracts see its line, its file, the messages that it sent, whether it is closed, and whether its
/// line has ended.
#[derive(Drop)]
pub struct Feeder<A: Allocator + Clone = Global> {
    sender: Sender<A>,
    pass: LinePass,
    file: u32,
    sent_fixes: u64,
    closed: bool,
}

impl<A: Allocator + Clone> Model for Feeder<A> {
    ghost use Rattle.range_line.specs.LineEnds.{FeederView};

    ghost Value = { FeederView };

    ghost use Rattle.std.specs.Prelude.{not};
    ghost use Rattle.crossbeam_channel.specs.Claims.{IsSeatAt};
    ghost use Rattle.crossbeam_channel.specs.Ends.{sends_on, ruled_capacity};
    ghost use Rattle.range_line.specs.Passes.{line_of, may_send, sent_by, IsFeeding};

    ghost view = { λ f. record {
      line = line_of f.pass;
      file = f.file;
      sent = sent_by f.pass;
      closed = f.closed;
      ended = not (may_send f.pass);
    } };

    ghost invariant = { λ f. IsSeatAt (sends_on f.sender) f.pass
        × IsFeeding f.pass (ruled_capacity (sends_on f.sender)) f.file f.closed f.sent_fixes };
}

// The pass of a feeder for the file is split off the taker's.
fn split_pass<B: Opening, A: Allocator + Clone>(
    sender: &Sender<A>,
    pass: &mut LinePass,
    file: u32,
) -> LinePass
    requires file { file ≡ B.file }
    requires depth { ruled_capacity (sends_on sender.now) ≡ B.depth }
    requires channel { IsSeatAt (sends_on sender.now) pass.old }
    requires taker { (view pass.old ≡ taker_pass (view pass.old).depth (view pass.old).files [] [])
        × (Contains (view pass.old).files file → ⊥)
        × (((view pass.old).files ≡ []) ⊎ ((view pass.old).depth ≡ B.depth)) }
    ensures channel { IsSeatAt (sends_on sender.now) pass.new × (pass.new.id ≡ pass.old.id)
        × IsSeatAt (sends_on sender.now) result }
    ensures taker { view pass.new
        ≡ after_opening (ruled_capacity (sends_on sender.now)) file (view pass.old) }
    ensures feeder { view result
        ≡ feeder_pass (ruled_capacity (sends_on sender.now))
        (get_or (view pass.old).files 0 file) file [] false true }
{
    sender.another::<Opens<B>>(pass)
}

impl<A: Allocator + Clone> Feeder<A> {
    // A feeder for a file that the line has none for yet.
    pub(crate) fn open(
        sender: &Sender<A>,
        pass: &mut LinePass,
        file: u32,
    ) -> Result<Feeder<A>, OutOfMemory>
        requires channel { IsSeatAt (sends_on sender.now) pass.old }
        requires taker { (view pass.old
            ≡ taker_pass (view pass.old).depth (view pass.old).files [] [])
            × (Contains (view pass.old).files file → ⊥)
            × (((view pass.old).files ≡ [])
            ⊎ ((view pass.old).depth ≡ ruled_capacity (sends_on sender.now))) }
        ensures channel { IsSeatAt (sends_on sender.now) pass.new }
        ensures taker { IfOk result (λ _. view pass.new
            ≡ after_opening (ruled_capacity (sends_on sender.now)) file (view pass.old)) }
        ensures feeder { IfOk result (λ f. f
            ≡ new_feeder (line_from pass.old (get_or (view pass.old).files 0 file)) file) }
        ensures line { line_from pass.new 0 ≡ line_from pass.old 0 }
    {
        let sender = sender.try_clone()?;
        let pass = split_pass::<Brand, A>(&sender, pass, file);
        Ok(Feeder {
            sender,
            pass,
            file,
            sent_fixes: 0,
            closed: false,
        })
    }

    // The message that comes next, with this body.
    fn next_message(&self, body: Body) -> Message
        ensures { result ≡ next_message self.now body }
    {
        Message {
            file: self.file,
            place: self.sent_fixes,
            body,
        }
    }

    /// Sends a block of 1 to [`BLOCK_LIMIT`](range_options::BLOCK_LIMIT) fixes, and waits while the line is full.
    /// Takes no memory.
    ///
    /// # Errors
    ///
    /// The block itself where it was not sent; the feeder has not changed. It comes back where the taker
    /// is gone, which no contract says.
    pub fn send<R: Wait>(&mut self, rt: &R, block: Vec<Fix>) -> Result<(), Vec<Fix>>
        requires live { (self.old.closed ≡ false) × (self.old.ended ≡ false) }
        requires size { (1 ≤ length block.items) × (length block.items ≤ block_limit) }
        requires room { length (all_fixes self.old.sent) + length block.items ≤ fix_limit }
        ensures line { (self.new.line ≡ self.old.line) × (self.new.file ≡ self.old.file)
            × (self.new.ended ≡ false) }
        ensures sent { MatchResult result (λ _. self.new
            ≡ after_send self.old (block_of block.items)) (λ b. (b.items ≡ block.items)
            × (self.new ≡ self.old)) }
    {
        let count = block.len() as u64;
        let message = self.next_message(Body::Block(Block::new(block)));
        match send(rt, &self.sender, &mut self.pass, message) {
            Ok(()) => {
                self.sent_fixes += count;
                Ok(())
            }
            Err(Message { body, .. }) => Err(body.into_fixes()),
        }
    }

    /// Sends the mark that closes the file, and waits while the line is full. Takes no memory. `false`
    /// where the mark was not sent, as where the taker is gone; the feeder has then not changed.
    pub fn close<R: Wait>(&mut self, rt: &R) -> bool
        requires live { (self.old.closed ≡ false) × (self.old.ended ≡ false) }
        ensures line { (self.new.line ≡ self.old.line) × (self.new.file ≡ self.old.file)
            × (self.new.ended ≡ false) }
        ensures sent { MatchBool result (self.new ≡ after_send self.old the_mark) (self.new
            ≡ self.old) }
    {
        let mark = self.next_message(Body::Mark);
        match send(rt, &self.sender, &mut self.pass, mark) {
            Ok(()) => {
                self.closed = true;
                true
            }
            Err(_) => false,
        }
    }

    /// The number of the file that it sends for.
    pub fn file(&self) -> u32
        ensures { result ≡ self.now.file }
    {
        self.file
    }

    /// Whether the mark was sent. What was sent is lawful and of the feeder's file alone.
    pub fn closed(&self) -> bool
        ensures value { result ≡ self.now.closed }
        ensures mark { has_mark self.now.sent ≡ self.now.closed }
        ensures own { of_file self.now.sent self.now.file ≡ self.now.sent }
        ensures lawful { IsLawful self.now.sent self.now.file }
    {
        self.closed
    }

    /// How many fixes were sent.
    pub fn sent_fixes(&self) -> u64
        ensures { result ≡ length (all_fixes self.now.sent) }
    {
        self.sent_fixes
    }

    // Ends the feeder, and shows the taker what it sent.
    pub(crate) fn end(&mut self, pass: &mut LinePass)
        requires taker { IsTaking pass.old × (pass.old.me.1 ≡ []) }
        requires line { line_of pass.old ≡ self.old.line }
        ensures feeder { self.new ≡ ended_feeder self.old }
        ensures taker { IsTaking pass.new × (pass.new.me.1 ≡ [])
            × (line_of pass.new ≡ line_of pass.old) }
        ensures transcripts { view pass.new ≡ after_joining_all (view pass.old) (self.old ∷ []) }
    {
        let transcript = self.sender.another::<Ends>(&mut self.pass);
        self.sender.absorb::<Ends>(pass, transcript);
    }

    // Tells the taker that for each transcript that it has, the rest stood in the channel at some moment.
    pub(crate) fn learn(&self, pass: &mut LinePass)
        requires taker { IsTaking pass.old × (pass.old.me.1 ≡ []) }
        requires line { line_of pass.old ≡ self.now.line }
        ensures pass { (view pass.new ≡ view pass.old) × (pass.new.me.1 ≡ [])
            × (line_of pass.new ≡ line_of pass.old) }
        ensures rest { (items : List Message) × IsRest (view pass.old) items }
    {
        self.sender.learn_as::<Takes>(pass);
    }
}
