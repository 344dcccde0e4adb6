// Where a text goes.

ghost use Rattle.std.specs.Prelude.{◌≡◌, ◌<◌, Bool, IfErr, IfOk, List, None, OnErr, OnOk, Option, Some, false, length, true, ℕ};
ghost use Rattle.std.specs.Io.{WritesAtMost};
ghost use Rattle.std.specs.Io.KnownBytes.{Keeps, WriteAppends};
ghost use Rattle.std.specs.declared.io.Error.{Error};
ghost use Rattle.range_command.specs.Outlet.{IsKnown};

use std::io;

/// Where a text goes: to the system, or into memory.
pub trait Outlet {
    /// The bytes that it has taken, where they are known.
    ghost contents: { Self → Option (List ℕ) } = { λ _. None };

    /// Whether it has answered that all of them are out, where that is known.
    ghost is_finished: { Self → Option Bool } = { λ _. None };

    /// Why the last call that failed has failed, where that is known; `None` within where none has.
    ghost last_failure: { Self → Option (Option Error) } = { λ _. None };

    /// Takes the first bytes of a text, one or more if it has any, and says how many.
    fn put(&mut self, text: &[u8]) -> io::Result<usize>
        ensures bound { WritesAtMost result text.now }
        ensures some { IfOk result (λ n. 0 < length text.now → 0 < n) }
        ensures bytes { WriteAppends (contents self.old) (contents self.new) result text.now }
        ensures unfinished { IsKnown false (is_finished self.new) }
        ensures failed { IfErr result (λ error. IsKnown (Some error) (last_failure self.new)) }
        ensures kept { OnOk result (last_failure self.new ≡ last_failure self.old) };

    /// Answers whether all that it took is out.
    fn finish(&mut self) -> io::Result<()>
        ensures bytes { Keeps (contents self.old) (contents self.new) }
        ensures finished { OnOk result (IsKnown true (is_finished self.new)) }
        ensures unfinished { OnErr result (IsKnown false (is_finished self.new)) }
        ensures failed { IfErr result (λ error. IsKnown (Some error) (last_failure self.new)) }
        ensures kept { OnOk result (last_failure self.new ≡ last_failure self.old) };

    /// Why the last call that failed has failed.
    fn failure(&self) -> Option<io::Error>
        ensures { IsKnown result (last_failure self.now) };
}
