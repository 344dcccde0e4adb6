// Why animals have no names of files.

ghost use Rattle.std.specs.Prelude.{◌≡◌};
ghost use Rattle.split_names.specs.declared.names_fault.NamesFault.TheVariants as faults;

use range_plane::OutOfMemory;
use std::alloc::AllocFailed;

/// Why animals have no names of files. Animals are numbered from 0.
#[derive(Clone, Copy, PartialEq, Eq, Debug)]
pub enum NamesFault {
    /// An allocation failed.
    OutOfMemory,
    /// The files of two animals would have the same name. `second` is the first animal whose clean name an earlier
    /// one has, and `first` is that one.
    Same { first: usize, second: usize },
}

impl From<OutOfMemory> for NamesFault {
    ghost from_gives = { λ _ fault. fault ≡ faults.OutOfMemory };

    fn from(_refused: OutOfMemory) -> NamesFault {
        NamesFault::OutOfMemory
    }
}

impl<T: Drop> From<AllocFailed<T>> for NamesFault {
    ghost from_gives = { λ _ fault. fault ≡ faults.OutOfMemory };

    fn from(_refused: AllocFailed<T>) -> NamesFault {
        NamesFault::OutOfMemory
    }
}
