// Why files have no analysis.

ghost use Rattle.std.specs.Prelude.{◌≡◌, Some};
ghost use Rattle.range_analysis.specs.FaultText.{analyse_text};
ghost use Rattle.range_analysis.specs.declared.analyse_fault.AnalyseFault.TheVariants as faults;

use range_fixes::{Name, ReadFault};
use range_plane::OutOfMemory;
use std::alloc::AllocError;
use std::fmt;
use thiserror::Error;

/// Why files have no analysis. Files are numbered from 0. The text says what is wrong, without the files that it is
/// wrong with, since only who opened them knows what they are called.
#[derive(PartialEq, Eq, Debug, Drop, Error)]
pub enum AnalyseFault {
    /// An allocation failed, or a thread could not be started.
    OutOfMemory,
    /// Not all fixes of a file, and the mark after them, were handed on.
    LineCut {
        file: u32,
    },
    /// A file cannot be read to its end. This is the first such file; the fault is neither out of memory
    /// nor `Gone`.
    File {
        file: u32,
        fault: ReadFault,
    },
    /// Two files have the same animal. `second` is the first file whose animal stands in an earlier one,
    /// `first` is that one, and `animal` the name in both.
    SameAnimal {
        first: u32,
        second: u32,
        animal: Name,
    },
}

impl fmt::Display for AnalyseFault {
    ghost output = { λ fault. Some (analyse_text fault) };

    fn fmt<W: fmt::Write>(&self, f: &mut fmt::Formatter<W>) -> fmt::Result {
        match self {
            AnalyseFault::OutOfMemory => {
                write!(f, "out of memory, or a thread could not be started")
            }
            AnalyseFault::LineCut { .. } => write!(f, "its fixes were not all handed on"),
            AnalyseFault::File { fault, .. } => write!(f, "{fault}"),
            AnalyseFault::SameAnimal { .. } => write!(f, "have the same animal"),
        }
    }
}

impl From<OutOfMemory> for AnalyseFault {
    ghost from_gives = { λ _ fault. fault ≡ faults.OutOfMemory };

    fn from(_refused: OutOfMemory) -> AnalyseFault {
        AnalyseFault::OutOfMemory
    }
}

impl From<AllocError> for AnalyseFault {
    ghost from_gives = { λ _ fault. fault ≡ faults.OutOfMemory };

    fn from(_refused: AllocError) -> AnalyseFault {
        AnalyseFault::OutOfMemory
    }
}
