// What the reader answers to files that say of each record whether its fix is used.

use crate::files::{expect, expect_records, outcome};
use range_fixes::ReadFault;
use range_plane::FIX_LIMIT;
use std::alloc::Global;
use std::process::Abort;
use std::test::Fail;
use test_doubles::{HEADER_WITH_USE, ScriptedSource};

// Records that are left out at the beginning, at the end and throughout.
#[test]
fn fixes_of_records_that_are_not_used_are_left_out(rt: HostRuntime) -> Result<(), Fail> {
    let alloc = rt.alloc();
    let cases = [
        (
            b"A,0,0,0,1\nA,60,10,0,1\nA,120,99,99,0\nA,180,10,10,1\n".as_slice(),
            3,
            (10, 10),
        ),
        (b"A,0,9,9,0\nA,0,9,8,0\nA,1,1,2,1\n", 1, (1, 2)),
        (b"A,0,1,2,1\nA,1,9,9,0\nA,2,9,8,0\n", 1, (1, 2)),
        (
            b"A,0,9,9,0\nA,0,1,1,1\nA,0,9,9,0\nA,0,2,2,1\nA,0,9,9,0\nA,0,3,4,1\nA,0,9,9,0",
            3,
            (3, 4),
        ),
        (
            b"\"A\",0,\"10\",0,\"1\"\r\n\"A\",0,0,0,\"0\"\r\n",
            1,
            (10, 0),
        ),
    ];
    for (records, count, last) in cases {
        expect_records(
            &rt,
            alloc,
            HEADER_WITH_USE,
            records,
            (count, Some(last), None),
        )?;
    }
    Ok(())
}

// Checks the fault of each of these records, and that so many fixes at one point come before it.
fn expect_faults(
    rt: &impl Abort,
    alloc: Global,
    cases: &[(&[u8], u32, ReadFault)],
) -> Result<(), Fail> {
    for &(records, count, fault) in cases {
        let last = if count > 0 { Some((0, 0)) } else { None };
        expect_records(
            rt,
            alloc,
            HEADER_WITH_USE,
            records,
            (count, last, Some(fault)),
        )?;
    }
    Ok(())
}

// What is wrong with the column itself, and with how many fields there are.
#[test]
fn a_use_that_is_neither_0_nor_1_and_a_wrong_count_of_fields_are_told(
    rt: HostRuntime,
) -> Result<(), Fail> {
    let bad = |rec| ReadFault::BadUse { rec };
    let wanted = 5;
    let wrong = |rec, found| ReadFault::WrongFieldCount { rec, found, wanted };
    let number = |rec, field| ReadFault::NotNumber { rec, field };
    let cases = [
        (b"A,0,0,0,2".as_slice(), 0, bad(1)),
        (b"A,0,0,0,", 0, bad(1)),
        (b"A,0,0,0,01", 0, bad(1)),
        (b"A,0,0,0,10", 0, bad(1)),
        (b"A,0,0,0,true", 0, bad(1)),
        (b"A,0,0,0, 1", 0, bad(1)),
        (b"A,0,0,0,1\nA,0,0,0,x\n", 1, bad(2)),
        (b"A,0,0,0", 0, wrong(1, 4)),
        (b"A,0,0,0,1,1", 0, wrong(1, 6)),
        (b"A,0,0,0,0\nA,0,0,0\n", 0, wrong(2, 4)),
        (b"A,0,x,0,2", 0, number(1, 2)),
    ];
    expect_faults(&rt, rt.alloc(), &cases)
}

// A record that is left out has the next held against it, and is no fix.
#[test]
fn records_that_are_left_out_are_held_against_their_neighbours(
    rt: HostRuntime,
) -> Result<(), Fail> {
    let falls = |rec| ReadFault::SecondFalls { rec };
    let other = |rec| ReadFault::OtherAnimal { rec };
    let cases = [
        (b"A,60,0,0,0\nA,59,0,0,1\n".as_slice(), 0, falls(2)),
        (b"A,60,0,0,1\nA,59,0,0,0\n", 1, falls(2)),
        (b"A,60,0,0,1\nA,59,0,0,2\n", 1, falls(2)),
        (b"A,60,0,0,1\nA,70,0,0,0\nA,69,0,0,1\n", 1, falls(3)),
        (b"A,0,0,0,0\nB,0,0,0,1\n", 0, other(2)),
        (b"A,0,0,0,0", 0, ReadFault::NoFixes),
        (b"A,0,0,0,0\nA,0,0,0,0\n", 0, ReadFault::NoFixes),
    ];
    expect_faults(&rt, rt.alloc(), &cases)
}

const FILE: &[u8] = b"animal,second,easting,northing,use\nA,0,0,0,1\nA,60,10,0,0\nA,120,10,10,1\n";

// A file, cut after its first bytes: from so many of them to before so many. Cut after `northing` it has a
// good header of four fields.
#[test]
fn a_cut_file_gives_its_whole_records_and_then_its_fault(rt: HostRuntime) {
    let alloc = rt.alloc();
    let wanted = 5;
    let wrong = |rec, found| Some(ReadFault::WrongFieldCount { rec, found, wanted });
    let bad = |rec| Some(ReadFault::BadUse { rec });
    let cases = [
        (0, 1, 0, None, Some(ReadFault::NoHeader)),
        (1, 30, 0, None, Some(ReadFault::BadHeader)),
        (30, 31, 0, None, Some(ReadFault::NoFixes)),
        (31, 34, 0, None, Some(ReadFault::BadHeader)),
        (34, 36, 0, None, Some(ReadFault::NoFixes)),
        (36, 37, 0, None, wrong(1, 1)),
        (37, 39, 0, None, wrong(1, 2)),
        (39, 41, 0, None, wrong(1, 3)),
        (41, 43, 0, None, wrong(1, 4)),
        (43, 44, 0, None, bad(1)),
        (44, 46, 1, Some((0, 0)), None),
        (46, 47, 1, Some((0, 0)), wrong(2, 1)),
        (47, 50, 1, Some((0, 0)), wrong(2, 2)),
        (50, 53, 1, Some((0, 0)), wrong(2, 3)),
        (53, 55, 1, Some((0, 0)), wrong(2, 4)),
        (55, 56, 1, Some((0, 0)), bad(2)),
        (56, 58, 1, Some((0, 0)), None),
        (58, 59, 1, Some((0, 0)), wrong(3, 1)),
        (59, 63, 1, Some((0, 0)), wrong(3, 2)),
        (63, 66, 1, Some((0, 0)), wrong(3, 3)),
        (66, 69, 1, Some((0, 0)), wrong(3, 4)),
        (69, 70, 1, Some((0, 0)), bad(3)),
        (70, 72, 2, Some((10, 10)), None),
    ];
    for (first, end, count, last, fault) in cases {
        for length in first..end {
            let text = &FILE[..FILE.len().min(length)];
            expect(&rt, alloc, text, (count, last, fault));
        }
    }
}

// As many records as a file may have, of which the first alone is used, or none, or all; one more, good or
// not; and records without end.
#[test]
fn a_record_more_than_the_most_is_refused_though_it_is_left_out(rt: HostRuntime) {
    let none = HEADER_WITH_USE;
    let one = b"animal,second,easting,northing,use\nA,0,5,6,1\n".as_slice();
    let unused = b"A,0,0,0,0\n".as_slice();
    let used = b"A,0,0,0,1\n".as_slice();
    let limit = u64::from(FIX_LIMIT);
    let many = Some(ReadFault::TooManyFixes);
    let first = Some((5, 6));
    let cases = [
        (one, unused, limit - 1, b"".as_slice(), (1, first, None)),
        (one, unused, limit, b"", (1, first, many)),
        (one, unused, limit - 1, b"x", (1, first, many)),
        (one, unused, u64::MAX, b"", (1, first, many)),
        (
            none,
            unused,
            limit,
            b"",
            (0, None, Some(ReadFault::NoFixes)),
        ),
        (none, unused, u64::MAX, b"", (0, None, many)),
        (none, used, limit, unused, (FIX_LIMIT, Some((0, 0)), many)),
    ];
    for (text, again, times, rest, expected) in cases {
        for most in [1, 3, 8192] {
            let source = ScriptedSource::repeated(text, again, times, rest, most);
            let found = outcome(&rt, rt.alloc(), source);
            assert!(rt; found == expected, "by {most} bytes");
        }
    }
}
