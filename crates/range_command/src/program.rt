// From the words of the command line to what is written.

ghost use Rattle.std.specs.Prelude.{◌≡◌, ◌≢◌, IfErr, OnErr, OnOk, map, string_bytes, true};
ghost use Rattle.std.specs.Io.KnownBytes.{Appends};
ghost use Rattle.range_run.specs.WrittenPrefix.{AppendsPrefix};
ghost use Rattle.range_command.specs.Command.{IsBegun, IsObeyed, IsOfReply, IsTold, world};
ghost use Rattle.range_command.specs.Outlet.{IsIntact, IsKnown};
ghost use Rattle.range_command.specs.Status.{refusal_status};

use crate::bad_words::bad_words;
use crate::file_run::run_over;
use crate::opener::Opener;
use crate::outlet::Outlet;
use crate::output::Output;
use crate::reason::known_reason;
use crate::refusal::Refusal;
use range_pump::{FileSource, Gate, ThreadRuntime};
use range_run::{RunFault, write_text};
use range_words::{WordFault, read_words};
use std::alloc::Global;

/// Does what the words ask for, of which the first is the program's name and is not read: writes the help or the
/// version, or the report of a run over the files that they name, or over the input where they name none. Nothing is
/// written with a status other than 0 and 4.
/// The gate hears of the messages on the lines, as `analyse` says.
pub fn obey<R: ThreadRuntime + AllocGlobal, O: Opener, S: FileSource, W: Outlet, G: Gate>(
    rt: &R,
    opener: &O,
    words: &[String],
    input: S,
    gate: &G,
    out: &mut Output<W>,
) -> Result<(), Refusal>
    ensures done { OnOk result
        (IsObeyed (map string_bytes words.now) (world (S.remaining input) (O.finds opener.now))
        (W.contents out.old) (W.contents out.new)) }
    ensures finished { OnOk result (IsKnown true (W.is_finished out.new)) }
    ensures intact { OnOk result (IsIntact (W.last_failure out.new)) }
    ensures begun { IfErr result (λ refusal. refusal_status refusal ≡ 4
        → IsBegun (map string_bytes words.now) (world (S.remaining input) (O.finds opener.now))
        (W.contents out.old) (W.contents out.new)) }
    ensures told { IfErr result
        (IsTold (map string_bytes words.now) (world (S.remaining input) (O.finds opener.now))) }
    ensures unwritten { IfErr result (λ refusal. refusal_status refusal ≢ 4 → out.new ≡ out.old) }
{
    let alloc = rt.alloc();
    match read_words(alloc, words) {
        Ok(words) => run_over(rt, opener, words, input, gate, out),
        Err(WordFault::Help(text)) => write_reply(alloc, text.as_str(), out),
        Err(WordFault::Version(text)) => write_reply(alloc, text.as_str(), out),
        Err(WordFault::BadWords(text)) => Err(bad_words(alloc, words, text.as_str())),
        Err(fault) => Err(Refusal::CommandLine(fault)),
    }
}

// Writes the help or the version.
fn write_reply<W: Outlet>(alloc: Global, text: &str, out: &mut Output<W>) -> Result<(), Refusal>
    ensures text { OnOk result (Appends (W.contents out.old) (W.contents out.new) text.now) }
    ensures finished { OnOk result (IsKnown true (W.is_finished out.new)) }
    ensures intact { OnOk result (IsIntact (W.last_failure out.new)) }
    ensures prefix { OnErr result
        (AppendsPrefix (W.contents out.old) (W.contents out.new) text.now) }
    ensures refusal { IfErr result IsOfReply }
{
    if write_to_end(text.as_bytes(), out).is_ok() {
        return Ok(());
    }
    let reason = known_reason(alloc, out.failure());
    Err(Refusal::Unwritten { reason })
}

// Writes a text whole, and asks whether it is out.
fn write_to_end<W: Outlet>(text: &[u8], out: &mut Output<W>) -> Result<(), RunFault>
    ensures whole { OnOk result (Appends (W.contents out.old) (W.contents out.new) text.now) }
    ensures finished { OnOk result (IsKnown true (W.is_finished out.new)) }
    ensures intact { OnOk result (IsIntact (W.last_failure out.new)) }
    ensures prefix { OnErr result
        (AppendsPrefix (W.contents out.old) (W.contents out.new) text.now) }
{
    write_text(out, text)?;
    out.finish().or(Err(RunFault::Write))
}
