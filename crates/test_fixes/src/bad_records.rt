// A bad record, the first and later ones, in files of both headers.

use crate::files::{expect, too_large};
use range_fixes::ReadFault;
use std::alloc::Global;
use std::process::Abort;
use std::test::Fail;
use test_doubles::{HEADER, HEADER_WITH_USE};

// How a file is written: its header, how many fields that has, a good record, and what stands behind the first
// four fields of a bad one.
#[derive(Clone, Copy)]
struct Form {
    header: &'static [u8],
    fields: u32,
    good: &'static [u8],
    end: &'static [u8],
}

// Records that are bad as the record of this number behind good ones, and why. The first eight are bad also
// where no record comes before them.
fn bad_records(rec: u32, wanted: u32) -> [(&'static [u8], ReadFault); 10] {
    let found = u64::from(wanted) + 1;
    let no_number = |field| ReadFault::NotNumber { rec, field };
    [
        (
            b"A,9,0,0,0".as_slice(),
            ReadFault::WrongFieldCount { rec, found, wanted },
        ),
        (b",9,0,0", ReadFault::BadName { rec }),
        (b"A,x,0,0", no_number(1)),
        (b"A,9,x,0", no_number(2)),
        (b"A,9,0,x", no_number(3)),
        (b"A,1099511627777,0,0", too_large(rec, 1)),
        (b"A,9,16777217,0", too_large(rec, 2)),
        (b"A,9,0,16777217", too_large(rec, 3)),
        (b"B,9,0,0", ReadFault::OtherAnimal { rec }),
        (b"A,8,0,0", ReadFault::SecondFalls { rec }),
    ]
}

// A file with so many good records, this bad one, and a good one.
fn text_of(alloc: Global, form: Form, before: u32, record: &[u8]) -> Result<Vec<u8>, Fail> {
    let mut text = Vec::from_slice(alloc, form.header)?;
    for _ in 0..before {
        text.extend_from_slice(form.good)?;
    }
    text.extend_from_slice(record)?;
    text.extend_from_slice(form.end)?;
    text.extend_from_slice(form.good)?;
    Ok(text)
}

// Checks that each bad record is told by its number, and that the fixes before it are given.
fn expect_bad_records(rt: &impl Abort, alloc: Global, form: Form) -> Result<(), Fail> {
    for before in [0u32, 1, 4] {
        let records = bad_records(before.saturating_add(1), form.fields);
        let count = if before == 0 { 8 } else { records.len() };
        let last = if before == 0 { None } else { Some((0, 0)) };
        for &(record, fault) in &records[..count] {
            let text = text_of(alloc, form, before, record)?;
            expect(rt, alloc, text.as_slice(), (before, last, Some(fault)));
        }
    }
    Ok(())
}

#[test]
fn a_bad_record_is_told_by_its_number(rt: HostRuntime) -> Result<(), Fail> {
    let form = Form {
        header: HEADER,
        fields: 4,
        good: b"A,9,0,0\n",
        end: b"\n",
    };
    expect_bad_records(&rt, rt.alloc(), form)
}

// A record that is left out is checked as one that is used.
#[test]
fn a_bad_record_that_is_left_out_is_told_as_well(rt: HostRuntime) -> Result<(), Fail> {
    let form = Form {
        header: HEADER_WITH_USE,
        fields: 5,
        good: b"A,9,0,0,1\n",
        end: b",0\n",
    };
    expect_bad_records(&rt, rt.alloc(), form)
}
