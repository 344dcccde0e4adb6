// Why records cannot be read.

ghost use Rattle.std.specs.Prelude.{◌≡◌};

use range_plane::OutOfMemory;
use split_clock::NoMoment;
use split_table::TableFault;
use split_times::{NumberFault, TimeFault};

/// What is wrong with a record. Columns are counted from 0.
#[derive(Clone, Copy, PartialEq, Eq, Debug)]
pub enum CellFault {
    /// It has so many fields, and not as many as there are titles.
    FieldCount { count: usize },
    /// A coordinate is no number of up to 12 digits.
    NotNumber { column: usize },
    /// It has coordinates and names no animal.
    NoAnimal,
    /// A mark is neither true nor false.
    NotTruth { column: usize },
    /// Whether the fix is used is missing.
    NoTruth { column: usize },
    /// The time is missing.
    NoTime,
    /// The time has none of the forms, or is no ISO text, or none since 1970.
    Time { fault: TimeFault },
    /// The time is a number that is no second since 1970.
    Number { fault: NumberFault },
    /// The clock has no such time, or it was before 1970.
    Clock { fault: NoMoment },
    /// The second is no number of at most 2^40.
    NotSecond,
    /// The zone is not written as `33N`.
    NotZone { column: usize },
}

/// Why the records of a table cannot be read.
#[derive(Clone, Copy, PartialEq, Eq, Debug)]
pub enum ReadingFault {
    OutOfMemory,
    /// There are 2^32 records or more.
    TooManyRecords,
    /// What is wrong with the first record that has a fault. That below the titles is 1.
    Record { record: u32, fault: CellFault },
}

impl From<OutOfMemory> for ReadingFault {
    ghost use Rattle.split_reading.specs.declared.fault.ReadingFault.TheVariants as faults;

    ghost from_gives = { λ _ fault. fault ≡ faults.OutOfMemory };

    fn from(_refused: OutOfMemory) -> ReadingFault {
        ReadingFault::OutOfMemory
    }
}
