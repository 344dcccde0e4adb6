// What the reader answers to files, whole, cut, hostile and failing.

use range_fixes::{FixReader, ReadFault};
use range_plane::{FIX_LIMIT, Fix, Point, Scale};
use std::alloc::Global;
use std::io::Read;
use std::process::Abort;
use std::test::Fail;
use test_doubles::{FILE_A, HEADER, HEADER_WITH_USE, ScriptedSource};

// What a source gave: how many fixes, the point of the last one, and the fault after them.
pub(crate) type Outcome = (u32, Option<(i64, i64)>, Option<ReadFault>);

// Whether the reader has a name just where it gave a fix.
fn has_name_of_fixes<R: Read + Drop>(reader: &FixReader<R>) -> bool {
    reader.name().is_some() == (reader.count() > 0)
}

// Whether one call more answers the same, and count and name stay.
fn has_ended<R: Read + Drop>(
    reader: &mut FixReader<R>,
    end: &Result<Option<Fix>, ReadFault>,
) -> bool {
    let count = reader.count();
    reader.next() == *end && reader.count() == count && has_name_of_fixes(reader)
}

// A number past its limit in a file in metres.
pub(crate) fn too_large(rec: u32, field: u32) -> ReadFault {
    let unit = Scale::Metre;
    ReadFault::TooLarge { rec, field, unit }
}

// Reads a source in metres to its end.
pub(crate) fn outcome<R: Read + Drop>(rt: &impl Abort, alloc: Global, source: R) -> Outcome {
    outcome_in(rt, alloc, source, Scale::Metre)
}

// Reads a source in this unit to its end.
pub(crate) fn outcome_in<R: Read + Drop>(
    rt: &impl Abort,
    alloc: Global,
    source: R,
    unit: Scale,
) -> Outcome {
    let mut reader = FixReader::new(alloc, source, unit);
    let mut last = None;
    for _ in 0..u64::MAX {
        let answer = reader.next();
        assert!(rt; has_name_of_fixes(&reader));
        match answer {
            Ok(Some(fix)) => last = Some((fix.at.e, fix.at.n)),
            end => {
                assert!(rt; has_ended(&mut reader, &end));
                return (reader.count(), last, end.err());
            }
        }
    }
    (reader.count(), last, None)
}

// Checks what a text gives, however it is cut into reads.
pub(crate) fn expect(rt: &impl Abort, alloc: Global, text: &[u8], expected: Outcome) {
    for most in [1, 3, 8192] {
        let source = ScriptedSource::new(text, most);
        assert!(rt; outcome(rt, alloc, source) == expected);
    }
}

// Checks what these records give under this header.
pub(crate) fn expect_records(
    rt: &impl Abort,
    alloc: Global,
    header: &[u8],
    records: &[u8],
    expected: Outcome,
) -> Result<(), Fail> {
    let mut text = Vec::from_slice(alloc, header)?;
    text.extend_from_slice(records)?;
    expect(rt, alloc, text.as_slice(), expected);
    Ok(())
}

#[test]
fn good_records_are_read(rt: HostRuntime) -> Result<(), Fail> {
    let alloc = rt.alloc();
    expect(&rt, alloc, FILE_A, (5, Some((5, 5)), None));
    let cases = [
        (
            b"A,0,16777216,16777216".as_slice(),
            1,
            (16_777_216, 16_777_216),
        ),
        (b"A,1099511627776,0,0", 1, (0, 0)),
        (b"A,0,00012,0", 1, (12, 0)),
        (b"A,60,0,0\nA,60,0,0\nA,60,0,1\n", 3, (0, 1)),
        (b"\nA,0,0,0\n\n\r\nA,0,3,4\n\n", 2, (3, 4)),
        (b"\"A\",0,\"10\",0\r\n", 1, (10, 0)),
        (b"abcdefghijklmnopqrstuvwxyz012345,0,0,0", 1, (0, 0)),
        (b"\xFF,0,0,0", 1, (0, 0)),
        (b"a name,0,0,0", 1, (0, 0)),
    ];
    for (records, count, last) in cases {
        expect_records(&rt, alloc, HEADER, records, (count, Some(last), None))?;
    }
    Ok(())
}

#[test]
fn a_header_is_taken_only_as_it_is_specified(rt: HostRuntime) {
    let alloc = rt.alloc();
    let bad = (0, None, Some(ReadFault::BadHeader));
    let good = (1, Some((1, 2)), None);
    let cases = [
        (b"".as_slice(), (0, None, Some(ReadFault::NoHeader))),
        (HEADER, (0, None, Some(ReadFault::NoFixes))),
        (b"Animal,second,easting,northing\n", bad),
        (b"animal,second,northing,easting\n", bad),
        (HEADER_WITH_USE, (0, None, Some(ReadFault::NoFixes))),
        (b"animal,second,easting,northing,Use\n", bad),
        (b"animal,second,easting,northing,use,use\n", bad),
        (b"animal,second,easting,use,northing\n", bad),
        (
            b"\xEF\xBB\xBFanimal,second,easting,northing\nA,0,1,2\n",
            good,
        ),
        (
            b"\"animal\",\"second\",\"easting\",\"northing\"\r\n\"A\",0,1,2\r\n",
            good,
        ),
        (
            b"\xEF\xBB\xBF\"animal\",\"second\",\"easting\",\"northing\"\r\n\"A\",0,1,2\r\n",
            good,
        ),
    ];
    for (text, expected) in cases {
        expect(&rt, alloc, text, expected);
    }
}

#[test]
fn a_bad_field_is_told_by_its_fault(rt: HostRuntime) -> Result<(), Fail> {
    let alloc = rt.alloc();
    let name = ReadFault::BadName { rec: 1 };
    let number = ReadFault::NotNumber { rec: 1, field: 2 };
    let cases = [
        (
            b",x,0,0,0".as_slice(),
            ReadFault::WrongFieldCount {
                rec: 1,
                found: 5,
                wanted: 4,
            },
        ),
        (b",x,0,0", name),
        (b"\"A,B\",0,0,0", name),
        (b"\"A\nB\",0,0,0", name),
        (b"abcdefghijklmnopqrstuvwxyz0123456,0,0,0", name),
        (b"\x00,0,0,0", name),
        (b"\x7F,0,0,0", name),
        (b"A,0,+12,0", number),
        (b"A,0,1e+05,0", number),
        (b"A,0,,0", number),
        (b"A,0, 1,0", number),
        (b"A,0,\"1\"\"0\",0", number),
        (b"A,-1,0,0", ReadFault::NotNumber { rec: 1, field: 1 }),
        (b"A,0,0,1.5", ReadFault::NotNumber { rec: 1, field: 3 }),
        (b"A,1099511627777,0,0", too_large(1, 1)),
        (b"A,0,16777217,0", too_large(1, 2)),
        (b"A,0,0,18446744073709551616", too_large(1, 3)),
    ];
    for (records, fault) in cases {
        expect_records(&rt, alloc, HEADER, records, (0, None, Some(fault)))?;
    }
    Ok(())
}

#[test]
fn the_first_fault_in_the_order_of_checks_is_told(rt: HostRuntime) -> Result<(), Fail> {
    let alloc = rt.alloc();
    let cases = [
        (
            b"A,0,x".as_slice(),
            0,
            ReadFault::WrongFieldCount {
                rec: 1,
                found: 3,
                wanted: 4,
            },
        ),
        (
            b"A,0,x,99999999",
            0,
            ReadFault::NotNumber { rec: 1, field: 2 },
        ),
        (b"A,0,99999999,x", 0, too_large(1, 2)),
        (b"A,60,0,0\nB,x,0,0", 1, ReadFault::OtherAnimal { rec: 2 }),
        (b"A,60,0,0\nA,59,0,16777217", 1, too_large(2, 3)),
        (b"A,60,0,0\nA,59,0,0", 1, ReadFault::SecondFalls { rec: 2 }),
        (
            b"A,60,0,0\nA,60,0,0\nA,59,0,0\n",
            2,
            ReadFault::SecondFalls { rec: 3 },
        ),
        (
            b"A,0,0,0\nB,0,0,0\nA,0,0,0\n",
            1,
            ReadFault::OtherAnimal { rec: 2 },
        ),
    ];
    for (records, count, fault) in cases {
        let last = if count > 0 { Some((0, 0)) } else { None };
        expect_records(&rt, alloc, HEADER, records, (count, last, Some(fault)))?;
    }
    Ok(())
}

// The file A, cut after its first bytes: from so many of them to before so many. A cut inside the last
// number is not seen.
#[test]
fn a_cut_file_gives_its_whole_records_and_then_its_fault(rt: HostRuntime) {
    let alloc = rt.alloc();
    let wanted = 4;
    let wrong = |rec, found| Some(ReadFault::WrongFieldCount { rec, found, wanted });
    let empty = |rec| Some(ReadFault::NotNumber { rec, field: 3 });
    let cases = [
        (0, 1, 0, None, Some(ReadFault::NoHeader)),
        (1, 30, 0, None, Some(ReadFault::BadHeader)),
        (30, 32, 0, None, Some(ReadFault::NoFixes)),
        (32, 33, 0, None, wrong(1, 1)),
        (33, 35, 0, None, wrong(1, 2)),
        (35, 37, 0, None, wrong(1, 3)),
        (37, 38, 0, None, empty(1)),
        (38, 40, 1, Some((0, 0)), None),
        (40, 41, 1, Some((0, 0)), wrong(2, 1)),
        (41, 44, 1, Some((0, 0)), wrong(2, 2)),
        (44, 47, 1, Some((0, 0)), wrong(2, 3)),
        (47, 48, 1, Some((0, 0)), empty(2)),
        (48, 50, 2, Some((10, 0)), None),
        (50, 51, 2, Some((10, 0)), wrong(3, 1)),
        (51, 55, 2, Some((10, 0)), wrong(3, 2)),
        (55, 58, 2, Some((10, 0)), wrong(3, 3)),
        (58, 59, 2, Some((10, 0)), empty(3)),
        (59, 60, 3, Some((10, 1)), None),
        (60, 62, 3, Some((10, 10)), None),
        (79, 80, 4, Some((0, 10)), wrong(5, 3)),
        (80, 81, 4, Some((0, 10)), empty(5)),
    ];
    for (first, end, count, last, fault) in cases {
        for length in first..end {
            let text = &FILE_A[..FILE_A.len().min(length)];
            expect(&rt, alloc, text, (count, last, fault));
        }
    }
}

#[test]
fn numbers_of_any_length_are_read_by_their_value(rt: HostRuntime) -> Result<(), Fail> {
    let alloc = rt.alloc();
    let large = too_large(1, 2);
    let cases = [
        (b'0', 1000, (1, Some((7, 0)), None)),
        (b'9', 400, (0, None, Some(large))),
    ];
    for (digit, count, expected) in cases {
        let mut record = Vec::from_slice(alloc, b"A,0,")?;
        for _ in 0..count {
            record.push(digit)?;
        }
        record.extend_from_slice(b"7,0")?;
        expect_records(&rt, alloc, HEADER, record.as_slice(), expected)?;
    }
    Ok(())
}

// As many fixes as a file may have, and one more; one that is malformed, and fixes without end.
#[test]
fn a_fix_more_than_the_most_is_refused(rt: HostRuntime) {
    let most_fixes = u64::from(FIX_LIMIT);
    let many = Some(ReadFault::TooManyFixes);
    let cases = [
        (most_fixes, b"".as_slice(), None),
        (most_fixes, b"A,0,0,0\n", many),
        (most_fixes, b"A,0,x", many),
        (u64::MAX, b"", many),
    ];
    for (times, rest, fault) in cases {
        for most in [1, 3, 8192] {
            let source = ScriptedSource::repeated(HEADER, b"A,0,0,0\n", times, rest, most);
            let found = outcome(&rt, rt.alloc(), source);
            assert!(rt;
                found == (FIX_LIMIT, Some((0, 0)), fault),
                "by {most} bytes"
            );
        }
    }
}

// The points of the fixes of file A.
const POINTS: [(i64, i64); 5] = [(0, 0), (10, 0), (10, 10), (0, 10), (5, 5)];

// How many fixes stand in the whole lines among so many bytes of the file A.
fn whole_fixes(bytes: usize) -> u32 {
    let mut lines = 0u32;
    for &byte in &FILE_A[..FILE_A.len().min(bytes)] {
        if byte == b'\n' {
            lines = lines.saturating_add(1);
        }
    }
    lines.saturating_sub(1)
}

// How many fixes the file A gives, at most so many bytes at a read, where it fails after so many reads;
// `None` where it gives all and does not fail.
fn fixes_before_failure(rt: &impl Abort, alloc: Global, most: usize, reads: usize) -> Option<u32> {
    let source = ScriptedSource::failing(FILE_A, most, reads as u64);
    let (count, last, fault) = outcome(rt, alloc, source);
    if fault.is_none() {
        assert!(rt; (count, last) == (5, Some((5, 5))), "by {most} bytes");
        return None;
    }
    let whole = whole_fixes(reads.saturating_mul(most));
    assert!(rt; fault == Some(ReadFault::Read), "after {reads} reads");
    assert!(rt; count <= whole, "after {reads} reads by {most} bytes");
    assert!(rt; most > 1 || count == whole, "after {reads} bytes");
    let last_index = count.checked_sub(1).map(|index| index as usize);
    let point = last_index.and_then(|index| POINTS.get(index).copied());
    assert!(rt; last == point, "after {reads} reads by {most} bytes");
    Some(count)
}

// A source that fails at each of its reads in turn is no short file: it gives the fixes of whole lines that
// were read, and then `Read`; all of them and then `Read` where the last read fails.
#[test]
fn a_source_that_fails_gives_the_fixes_before_and_is_told(rt: HostRuntime) {
    for most in [1, 3, 8, 8192] {
        let mut before = 0;
        for reads in 0..100 {
            let Some(count) = fixes_before_failure(&rt, rt.alloc(), most, reads) else {
                break;
            };
            assert!(rt; count >= before, "after {reads} reads by {most} bytes");
            before = count;
        }
        assert!(rt; before == 5, "all but the end by {most} bytes");
    }
}

fn fix(second: u64, e: i64, n: i64) -> Result<Fix, Fail> {
    let at = Point::new(e, n).ok_or("no point")?;
    Ok(Fix { second, at })
}

#[test]
fn fixes_come_in_turn_with_name_and_count(rt: HostRuntime) -> Result<(), Fail> {
    let fixes = [
        fix(0, 0, 0)?,
        fix(60, 10, 0)?,
        fix(120, 10, 10)?,
        fix(180, 0, 10)?,
        fix(240, 5, 5)?,
    ];
    for most in [1, 3, 8, 8192] {
        let source = ScriptedSource::new(FILE_A, most);
        let mut reader = FixReader::new(rt.alloc(), source, Scale::Metre);
        assert!(rt; reader.name().is_none() && reader.count() == 0);
        for (index, fix) in fixes.iter().enumerate() {
            assert!(rt;
                reader.next() == Ok(Some(*fix)),
                "fix {index} by {most} bytes"
            );
            assert!(rt; reader.name() == Some(b"A".as_slice()), "the name");
            assert!(rt; reader.count() as usize == index + 1, "so many fixes");
        }
        assert!(rt; reader.next() == Ok(None), "the end");
        assert!(rt;
            reader.name() == Some(b"A".as_slice()),
            "the name in the end"
        );
    }
    Ok(())
}

#[test]
fn a_name_of_each_length_is_kept_whole(rt: HostRuntime) -> Result<(), Fail> {
    let longest = b"abcdefghijklmnopqrstuvwxyz012345";
    for length in 1..=longest.len() {
        let name = &longest[..length];
        let mut text = Vec::from_slice(rt.alloc(), HEADER)?;
        text.extend_from_slice(name)?;
        text.extend_from_slice(b",60,1,2")?;
        let source = ScriptedSource::new(text.as_slice(), 8192);
        let mut reader = FixReader::new(rt.alloc(), source, Scale::Metre);
        assert!(rt; reader.next() == Ok(Some(fix(60, 1, 2)?)), "the fix");
        assert!(rt; reader.name() == Some(name), "a name of {length} bytes");
    }
    Ok(())
}
