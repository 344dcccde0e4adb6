// The texts of the reader's faults.

use range_fixes::ReadFault;
use range_plane::Scale;
use std::test::Fail;

// Every fault, by its number, and its text.
const TEXTS: [(ReadFault, &str); 19] = [
    (ReadFault::OutOfMemory, "out of memory"),
    (ReadFault::Read, "a read failed"),
    (
        ReadFault::NoHeader,
        "empty where animal,second,easting,northing is wanted",
    ),
    (
        ReadFault::BadHeader,
        "the first line is not animal,second,easting,northing (commas, small letters, this order; plain UTF-8 text), nor that with ,use behind it",
    ),
    (
        ReadFault::WrongFieldCount {
            rec: 5,
            found: 3,
            wanted: 4,
        },
        "record 5: 3 fields where 4 are wanted",
    ),
    (
        ReadFault::WrongFieldCount {
            rec: 2,
            found: 1,
            wanted: 4,
        },
        "record 2: 1 field where 4 are wanted",
    ),
    (
        ReadFault::BadName { rec: 4 },
        "record 4: animal is not a name of 1 to 32 bytes with no comma, double quote or control character",
    ),
    (
        ReadFault::OtherAnimal { rec: 2 },
        "record 2: animal is another than in record 1",
    ),
    (
        ReadFault::NotNumber { rec: 8, field: 1 },
        "record 8: second is not a whole number: no point, sign, space or exponent",
    ),
    (
        ReadFault::NotNumber { rec: 6, field: 2 },
        "record 6: easting is not a whole number: no point, sign, space or exponent",
    ),
    (
        ReadFault::NotNumber { rec: 1, field: 3 },
        "record 1: northing is not a whole number: no point, sign, space or exponent",
    ),
    (
        ReadFault::TooLarge {
            rec: 1,
            field: 1,
            unit: Scale::Metre,
        },
        "record 1: second is past its limit of 1099511627776",
    ),
    (
        ReadFault::TooLarge {
            rec: 1,
            field: 2,
            unit: Scale::Metre,
        },
        "record 1: easting is past its limit of 16777216 metres",
    ),
    (
        ReadFault::TooLarge {
            rec: 4,
            field: 3,
            unit: Scale::Decimetre,
        },
        "record 4: northing is past its limit of 134217728 decimetres",
    ),
    (
        ReadFault::SecondFalls { rec: 3 },
        "record 3: second is less than in the record before: sort the file by time",
    ),
    (
        ReadFault::TooManyFixes,
        "more than 1048576 records after the header",
    ),
    (
        ReadFault::NoFixes,
        "no record after the header, or none that is used",
    ),
    (ReadFault::Gone, "the fixes could not be handed on"),
    (
        ReadFault::BadUse { rec: 7 },
        "record 7: use is neither 0 nor 1",
    ),
];

#[test]
fn every_fault_has_its_text(rt: HostRuntime) -> Result<(), Fail> {
    for (fault, text) in TEXTS {
        let said = format!(in rt.alloc(); "{fault}")?;
        assert!(rt; said.as_str() == text, "{fault}");
    }
    Ok(())
}
