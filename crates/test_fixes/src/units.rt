// The limits of coordinates in metres and in decimetres.

use crate::files::outcome_in;
use range_fixes::ReadFault;
use range_plane::Scale;
use std::test::Fail;
use test_doubles::{HEADER, ScriptedSource};

// What a file with these coordinates gives, however it is cut into reads: its fix, or the field that is past
// the limit of the unit.
#[test]
fn coordinates_are_taken_up_to_the_limit_of_their_unit(rt: HostRuntime) -> Result<(), Fail> {
    let alloc = rt.alloc();
    let (m, dm) = (Scale::Metre, Scale::Decimetre);
    let cases = [
        (b"A,0,16777216,0".as_slice(), m, Ok((16_777_216, 0))),
        (b"A,0,16777217,0", m, Err(2)),
        (b"A,0,0,16777216", m, Ok((0, 16_777_216))),
        (b"A,0,0,16777217", m, Err(3)),
        (b"A,0,16777217,0", dm, Ok((16_777_217, 0))),
        (b"A,0,0,16777217", dm, Ok((0, 16_777_217))),
        (b"A,0,134217728,0", dm, Ok((134_217_728, 0))),
        (b"A,0,134217729,0", dm, Err(2)),
        (b"A,0,0,134217728", dm, Ok((0, 134_217_728))),
        (b"A,0,0,134217729", dm, Err(3)),
        (b"A,0,134217729,x", dm, Err(2)),
        (b"A,1099511627776,0,0", dm, Ok((0, 0))),
        (b"A,1099511627777,0,0", dm, Err(1)),
    ];
    for (record, unit, expected) in cases {
        let mut text = Vec::from_slice(alloc, HEADER)?;
        text.extend_from_slice(record)?;
        let rec = 1;
        let expected = match expected {
            Ok(at) => (1, Some(at), None),
            Err(field) => (0, None, Some(ReadFault::TooLarge { rec, field, unit })),
        };
        for most in [1, 3, 8192] {
            let source = ScriptedSource::new(text.as_slice(), most);
            let found = outcome_in(&rt, alloc, source, unit);
            assert!(rt; found == expected, "by {most} bytes");
        }
    }
    Ok(())
}
