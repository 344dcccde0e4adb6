//! Files with each fault that a reader can have of its bytes or its source, and what names have to be. They
//! are for tests alone.
#![tactic(auto)]

use range_fixes::{Name, ReadFault};
use range_plane::Scale;
use test_doubles::{HEADER, HEADER_WITH_USE, ScriptedSource};

const GOOD: &[u8] = b"A,7,1,2\n";

const USED: &[u8] = b"A,7,1,2,1\n";

const UNUSED: &[u8] = b"A,7,1,2,0\n";

/// For tests alone: a file of the animal `A` that cannot be read to its end.
#[derive(Clone, Copy)]
pub struct BadFile {
    header: &'static [u8],
    record: &'static [u8],
    times: u64,
    rest: &'static [u8],
    /// How many fixes come before the fault, each at the second 7, the easting 1 and the northing 2.
    pub fixes: u32,
    pub fault: ReadFault,
}

impl BadFile {
    /// The file's bytes. For a fault of the source, it fails at each read behind them.
    pub fn source(self) -> ScriptedSource<'static> {
        if self.fault == ReadFault::Read {
            ScriptedSource::broken_off(self.header, self.record, self.times)
        } else {
            ScriptedSource::repeated(self.header, self.record, self.times, self.rest, 8192)
        }
    }
}

// Good records, and one with a fault behind them.
fn narrow(fixes: u32, rest: &'static [u8], fault: ReadFault) -> BadFile {
    BadFile {
        header: HEADER,
        record: GOOD,
        times: u64::from(fixes),
        rest,
        fixes,
        fault,
    }
}

// The same below a header with the column `use`.
fn wide(fixes: u32, rest: &'static [u8], fault: ReadFault) -> BadFile {
    BadFile {
        header: HEADER_WITH_USE,
        record: USED,
        ..narrow(fixes, rest, fault)
    }
}

// A file with no fix, of a header and then a record so many times.
fn without_fix(
    header: &'static [u8],
    record: &'static [u8],
    times: u64,
    fault: ReadFault,
) -> BadFile {
    BadFile {
        header,
        record,
        times,
        rest: b"",
        fixes: 0,
        fault,
    }
}

/// Each fault of a record that has so many good ones before it, or one where the fault needs one, and a source
/// that fails there. The coordinates are in this unit.
pub fn bad_records(fixes: u32, unit: Scale) -> [BadFile; 14] {
    let (rec, some) = (fixes.saturating_add(1), fixes.max(1));
    let wrong = |found, wanted| ReadFault::WrongFieldCount { rec, found, wanted };
    let number = |field| ReadFault::NotNumber { rec, field };
    let large = |field| ReadFault::TooLarge { rec, field, unit };
    let later = some.saturating_add(1);
    let other = ReadFault::OtherAnimal { rec: later };
    let falls = ReadFault::SecondFalls { rec: later };
    [
        narrow(fixes, b"A,7,1\n", wrong(3, 4)),
        narrow(fixes, b"A,7,1,2,1\n", wrong(5, 4)),
        wide(fixes, b"A,7,1,2\n", wrong(4, 5)),
        narrow(fixes, b",7,1,2\n", ReadFault::BadName { rec }),
        narrow(some, b"B,7,1,2\n", other),
        narrow(fixes, b"A,7s,1,2\n", number(1)),
        narrow(fixes, b"A,7,-1,2\n", number(2)),
        narrow(fixes, b"A,7,1,2.5\n", number(3)),
        narrow(fixes, b"A,1099511627777,1,2\n", large(1)),
        narrow(fixes, b"A,7,134217729,2\n", large(2)),
        narrow(fixes, b"A,7,1,134217729\n", large(3)),
        narrow(some, b"A,6,1,2\n", falls),
        wide(fixes, b"A,7,1,2,2\n", ReadFault::BadUse { rec }),
        narrow(fixes, b"", ReadFault::Read),
    ]
}

/// Each fault that no record has but that of too many records.
pub fn files_without_fix() -> [BadFile; 4] {
    [
        without_fix(b"", b"", 0, ReadFault::NoHeader),
        without_fix(b"animal,second\n", GOOD, 1, ReadFault::BadHeader),
        without_fix(HEADER, b"", 0, ReadFault::NoFixes),
        without_fix(HEADER_WITH_USE, UNUSED, 3, ReadFault::NoFixes),
    ]
}

/// Records without end, none of which is used. It takes as long to read as a file of the most fixes.
pub fn too_many_records() -> BadFile {
    let fault = ReadFault::TooManyFixes;
    without_fix(HEADER_WITH_USE, UNUSED, u64::MAX, fault)
}

/// Whether a reader gave this name.
pub fn is_name(read: &Result<Name, ReadFault>, name: &[u8]) -> bool {
    matches!(read, Ok(found) if found.as_slice() == name)
}
