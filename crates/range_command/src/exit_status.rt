// From the words of the command line to the status with which the program ends.

ghost use Rattle.std.specs.Prelude.{◌≡◌, ◌≢◌, ◌⊎◌, IfErr, IfOk, List, false, map, string_bytes, true};
ghost use Rattle.clap.specs.Words.{Text};
ghost use Rattle.range_command.specs.SaidLine.{HasLeft, IsSaid, SaysOneLine};
ghost use Rattle.range_command.specs.Command.{IsBegun, IsObeyed, IsOfSystem, IsTold, world};
ghost use Rattle.range_command.specs.Outlet.{IsIntact, IsKnown};
ghost use Rattle.range_command.specs.Status.{refusal_status};
ghost use Rattle.range_command.specs.RefusalText.{IsTelling, line_of, refusal_text, short_line};
ghost use Rattle.range_command.specs.declared.refusal.Refusal.{Refusal};

use crate::command_line::command_words;
use crate::opener::Opener;
use crate::outlet::Outlet;
use crate::output::Output;
use crate::program::obey;
use crate::refusal::Refusal;
use range_pump::{FileSource, FreeGate, ThreadRuntime};
use std::alloc::{AllocError, Global};
use std::env::Env;
use std::io;
use std::io::ErrorKind;

/// Does what the words of the environment's command line ask for, as [`answer_to`] says, or refuses words that are
/// not UTF-8.
pub fn answer<
    R: ThreadRuntime + AllocGlobal,
    E: Env,
    O: Opener,
    S: FileSource,
    W: Outlet,
    X: Outlet,
>(rt: &R, environment: &E, opener: &O, input: S, out: &mut Output<W>, errors: &mut Output<X>) -> u8
    ensures done { result ≡ 0 → (said : List Text)
        × IsObeyed said (world (S.remaining input) (O.finds opener.now))
        (W.contents out.old) (W.contents out.new) }
    ensures finished { result ≡ 0 → IsKnown true (W.is_finished out.new) }
    ensures intact { result ≡ 0 → IsIntact (W.last_failure out.new) }
    ensures begun { result ≡ 4 → (said : List Text)
        × IsBegun said (world (S.remaining input) (O.finds opener.now))
        (W.contents out.old) (W.contents out.new) }
    ensures unwritten { result ≢ 0 → result ≢ 4 → out.new ≡ out.old }
    ensures quiet { result ≡ 0 → errors.new ≡ errors.old }
    ensures refused { result ≢ 0 → (refusal : Refusal) × (result ≡ refusal_status refusal)
        × (IsOfSystem refusal ⊎ ((said : List Text)
        × IsTold said (world (S.remaining input) (O.finds opener.now)) refusal))
        × IsSaid (W.last_failure out.new) refusal X.contents X.last_failure errors.old errors.new }
    ensures one_line { result ≢ 0 → SaysOneLine (W.last_failure out.new) X.contents X.last_failure errors.old errors.new }
{
    match command_words(environment, rt.alloc()) {
        Ok(words) => answer_to(rt, opener, words.as_slice(), input, out, errors),
        Err(refusal) => tell(rt.alloc(), &refusal, has_left(out.failure()), errors),
    }
}

/// Does what the words ask for, of which the first is the program's name, and gives the status with which the
/// program ends: 0 after a report, the help or the version, and else that of the [`Refusal`]. Where it is refused,
/// one line on `errors` says why, in one write where that is taken, unless the output is a pipe whose reader has
/// gone: who closed it has seen enough of it.
pub fn answer_to<R: ThreadRuntime + AllocGlobal, O: Opener, S: FileSource, W: Outlet, X: Outlet>(
    rt: &R,
    opener: &O,
    words: &[String],
    input: S,
    out: &mut Output<W>,
    errors: &mut Output<X>,
) -> u8
    ensures done { result ≡ 0
        → IsObeyed (map string_bytes words.now) (world (S.remaining input) (O.finds opener.now))
        (W.contents out.old) (W.contents out.new) }
    ensures finished { result ≡ 0 → IsKnown true (W.is_finished out.new) }
    ensures intact { result ≡ 0 → IsIntact (W.last_failure out.new) }
    ensures begun { result ≡ 4
        → IsBegun (map string_bytes words.now) (world (S.remaining input) (O.finds opener.now))
        (W.contents out.old) (W.contents out.new) }
    ensures unwritten { result ≢ 0 → result ≢ 4 → out.new ≡ out.old }
    ensures quiet { result ≡ 0 → errors.new ≡ errors.old }
    ensures refused { result ≢ 0 → (refusal : Refusal) × (result ≡ refusal_status refusal)
        × IsTold (map string_bytes words.now)
        (world (S.remaining input) (O.finds opener.now)) refusal
        × IsSaid (W.last_failure out.new) refusal X.contents X.last_failure errors.old errors.new }
    ensures one_line { result ≢ 0 → SaysOneLine (W.last_failure out.new) X.contents X.last_failure errors.old errors.new }
{
    match obey(rt, opener, words, input, &FreeGate, out) {
        Ok(()) => 0,
        Err(refusal) => tell(rt.alloc(), &refusal, has_left(out.failure()), errors),
    }
}

// Whether the reader of an output has gone, whose last failure is this.
fn has_left(failure: Option<io::Error>) -> bool
    ensures left { result ≡ true → HasLeft failure }
    ensures there { result ≡ false → ¬ (HasLeft failure) }
{
    matches!(failure, Some(error) if error.kind() == ErrorKind::BrokenPipe)
}

// Says in one line why there is no report, but to nobody where the output's reader has gone, and gives the status.
fn tell<X: Outlet>(alloc: Global, refusal: &Refusal, has_left: bool, errors: &mut Output<X>) -> u8
    ensures status { result ≡ refusal_status refusal.now }
    ensures left { has_left ≡ true → errors.new ≡ errors.old }
    ensures line { has_left ≡ false
        → IsTelling refusal.now (X.last_failure errors.new)
        (X.contents errors.old) (X.contents errors.new) }
{
    if !has_left {
        say(alloc, refusal, errors);
    }
    refusal.status()
}

// Says in one line why there is no report.
fn say<X: Outlet>(alloc: Global, refusal: &Refusal, errors: &mut Output<X>)
    ensures { IsTelling refusal.now (X.last_failure errors.new)
        (X.contents errors.old) (X.contents errors.new) }
{
    let line = whole_line(alloc, refusal);
    // Who does not take the line cannot be told so.
    let _ = errors.write_whole(line_told(&line, refusal).as_bytes());
}

// The line of a refusal, if there is memory for it.
fn whole_line(alloc: Global, refusal: &Refusal) -> Result<String, AllocError>
    ensures { IfOk result (λ line. string_bytes line ≡ line_of (refusal_text refusal.now)) }
{
    format!(in alloc; "homerange: {refusal}\n")
}

// The line that is told: this one, or the one of fewer words where there was no memory for it.
fn line_told<'a>(line: &'a Result<String, AllocError>, refusal: &Refusal) -> &'a str
    ensures whole { IfOk line.now (λ line. result.now ≡ string_bytes line) }
    ensures short { IfErr line.now (λ _. result.now ≡ short_line refusal.now) }
{
    match line {
        Ok(line) => line.as_str(),
        Err(_) => refusal.short_line(),
    }
}
