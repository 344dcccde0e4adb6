// Why nothing is drawn of an animal.

ghost use Rattle.std.specs.Prelude.{◌≡◌};
ghost use Rattle.page_levels.specs.Same.{fault_of};
ghost use Rattle.page_levels.specs.declared.fault.LevelFault.TheVariants as faults;

use range_fixes::ReadFault;
use range_plane::OutOfMemory;
use std::alloc::{AllocError, AllocFailed};

/// Why nothing is drawn of an animal: its track cannot be read, or is not the one of which the report was made.
#[derive(Clone, Copy, PartialEq, Eq, Debug)]
pub enum LevelFault {
    OutOfMemory,
    /// The track cannot be read.
    Unread(ReadFault),
    /// The track is that of another animal.
    OtherAnimal,
    /// The track has not as many fixes as the report.
    OtherCount,
    /// The fixes have another box.
    OtherExtent,
    /// A fix has another row: its second, or the corners or the area of the polygon up to it.
    OtherRow,
    /// The polygon of all fixes has other corners.
    OtherCorner,
    /// The percent polygon at this level keeps another number of fixes, or has other corners or another area.
    OtherPercent { level: u8 },
}

impl From<ReadFault> for LevelFault {
    ghost from_gives = { λ fault own. own ≡ fault_of fault };

    fn from(fault: ReadFault) -> LevelFault {
        match fault {
            ReadFault::OutOfMemory => LevelFault::OutOfMemory,
            other => LevelFault::Unread(other),
        }
    }
}

impl From<OutOfMemory> for LevelFault {
    ghost from_gives = { λ _ fault. fault ≡ faults.OutOfMemory };

    fn from(_refused: OutOfMemory) -> LevelFault {
        LevelFault::OutOfMemory
    }
}

impl From<AllocError> for LevelFault {
    ghost from_gives = { λ _ fault. fault ≡ faults.OutOfMemory };

    fn from(_refused: AllocError) -> LevelFault {
        LevelFault::OutOfMemory
    }
}

impl<T: Drop> From<AllocFailed<T>> for LevelFault {
    ghost from_gives = { λ _ fault. fault ≡ faults.OutOfMemory };

    fn from(_refused: AllocFailed<T>) -> LevelFault {
        LevelFault::OutOfMemory
    }
}
