// A folder that is made new with files.

ghost use Rattle.std.specs.Prelude.{◌≡◌, [], IfErr, None, OnOk, Option};
ghost use Rattle.std.specs.Option.{option_map};
ghost use Rattle.split_folder.specs.declared.step.Step.TheVariants.{Finish, Make};
ghost use Rattle.split_folder.specs.Folder.{CanBeRemoved, CanGoOn, IsKnown, IsNotRemoved, State, added, begun, failed, finished, not_added, nothing, removed, sound};

use std::io;

/// A folder that is made new, gets files, and is put in its place last: by the system, or in memory. After a call that
/// failed it can only be removed.
pub trait Folder {
    /// What there is of it and which calls have failed, where that is known.
    ghost state: { Self → Option State } = { λ _. None };

    /// Makes it, with no file, where nothing is in its place.
    fn make(&mut self) -> io::Result<()>
        requires { IsKnown (sound nothing) (state self.old) }
        ensures made { OnOk result (IsKnown (sound (begun [])) (state self.new)) }
        ensures failed { IfErr result (λ error.
            state self.new ≡ option_map (failed Make error) (state self.old)) };

    /// Adds a file of this name and this text, which is new.
    fn add(&mut self, name: &str, text: &[u8]) -> io::Result<()>
        requires { CanGoOn (state self.old) }
        ensures added { OnOk result
            (state self.new ≡ option_map (added (name.now, text.now)) (state self.old)) }
        ensures failed { IfErr result (λ error.
            state self.new ≡ option_map (not_added error) (state self.old)) };

    /// Puts it in its place.
    fn finish(&mut self) -> io::Result<()>
        requires { CanGoOn (state self.old) }
        ensures finished { OnOk result (state self.new ≡ option_map finished (state self.old)) }
        ensures failed { IfErr result (λ error.
            state self.new ≡ option_map (failed Finish error) (state self.old)) };

    /// Removes what was made of it.
    fn remove(&mut self) -> io::Result<()>
        requires { CanBeRemoved (state self.old) }
        ensures removed { OnOk result (state self.new ≡ option_map removed (state self.old)) }
        ensures failed { IfErr result (λ error.
            IsNotRemoved error (state self.old) (state self.new)) };
}
