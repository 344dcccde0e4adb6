// Sentences on what was left out and said, options and checksums, as the makers in Python write them.

use crate::cases::{
    LEFT, NOT_KNOWN, NOTHING_LEFT, OPTIONS, SAID, SAID_OF_FOURTEEN, SAID_OF_NAMED,
    SAID_OF_THIRTEEN, SUMS, SUMS_OF_DATA, UNUSED_LEFT, VERIFY, WITHOUT_RANGE,
    WITHOUT_RANGE_OF_MANY,
};
use page_record::read_record;
use page_sections::{
    Cause, Origin, Source, Sums, Totals, Unused, push_left_out, push_options, push_said, push_sums,
    push_verify, push_without_range,
};
use split_tracks::Reason;
use std::alloc::{AllocError, Global};

const ZEROS: &[u8] = b"0000000000000000000000000000000000000000000000000000000000000000";

const ONES: &[u8] = b"1111111111111111111111111111111111111111111111111111111111111111";

const TWOS: &[u8] = b"2222222222222222222222222222222222222222222222222222222222222222";

// Lines as vectors.
fn lines(alloc: Global, texts: &[&str]) -> Result<Vec<Vec<u8>>, AllocError> {
    let mut lines = Vec::new(alloc);
    for text in texts {
        lines.push(Vec::from_slice(alloc, text.as_bytes())?)?;
    }
    Ok(lines)
}

// What the page says of lines that were said.
fn said(alloc: Global, texts: &[&str]) -> Result<Vec<u8>, AllocError> {
    let lines = lines(alloc, texts)?;
    let mut text = Vec::new(alloc);
    push_said(alloc, &mut text, &lines)?;
    Ok(text)
}

// Whether a text was written, and is this one.
fn is_written(text: Result<Vec<u8>, AllocError>, expected: &str) -> bool {
    match text {
        Ok(text) => text.as_slice() == expected.as_bytes(),
        Err(_no_memory) => false,
    }
}

const SOME: [&str; 6] = [
    "3 records of fox come before an earlier one: sorted by time",
    "columns: a, b",
    "not read: c",
    "zone: 33N",
    "12 fixes of 3 animals are in tracks, in m",
    "<odd> \u{202e} line",
];

// Lines with names that read as the start of others.
const NAMED: [&str; 2] = [
    "2 of 9 fixes of records of fox lie 60 km from the others",
    "animal 'not read: a' is named not read_ a",
];

// Lines on animals, and then others.
const THIRTEEN: [&str; 13] = [
    "1 records of a",
    "2 records of b",
    "line 0",
    "line 1",
    "line 2",
    "line 3",
    "line 4",
    "line 5",
    "line 6",
    "line 7",
    "line 8",
    "line 9",
    "line 10",
];

const FOURTEEN: [&str; 14] = [
    "line 0", "line 1", "line 2", "line 3", "line 4", "line 5", "line 6", "line 7", "line 8",
    "line 9", "line 10", "line 11", "line 12", "line 13",
];

#[test]
fn lines_that_were_said_are_quoted(rt: HostRuntime) {
    assert!(rt; is_written(said(rt.alloc(), &SOME), SAID), "{SAID}");
    assert!(rt;
        is_written(said(rt.alloc(), &FOURTEEN), SAID_OF_FOURTEEN),
        "{SAID_OF_FOURTEEN}"
    );
    assert!(rt;
        is_written(said(rt.alloc(), &SOME[2..3]), ""),
        "lines on columns that were not read are passed"
    );
    assert!(rt;
        is_written(said(rt.alloc(), &THIRTEEN), SAID_OF_THIRTEEN),
        "{SAID_OF_THIRTEEN}"
    );
    assert!(rt;
        is_written(said(rt.alloc(), &NAMED), SAID_OF_NAMED),
        "{SAID_OF_NAMED}"
    );
}

// What is said of fixes of which some were chosen.
const CHOSEN: [&str; 2] = [
    "columns: a, b",
    "the fixes are not as they were read: 3 of them were taken away since, and what was left out before is neither in the folder nor on its page",
];

// What was left out.
fn left_out(
    alloc: Global,
    source: Source,
    records: u64,
    left: &[(Cause, u64)],
    said: &[&str],
) -> Result<Vec<u8>, AllocError> {
    let mut text = Vec::new(alloc);
    let totals = Totals { records, left };
    push_left_out(&mut text, source, Some(&totals), &lines(alloc, said)?)?;
    Ok(text)
}

#[test]
fn what_was_left_out_is_a_sentence(rt: HostRuntime) {
    let left = [
        (Cause::Made(Reason::Zero), 0),
        (Cause::Made(Reason::Outlier), 3),
        (Cause::Made(Reason::Speed), 1_200),
    ];
    let some = left_out(rt.alloc(), Source::Export, 12_345, &left, &CHOSEN);
    assert!(rt; is_written(some, LEFT), "{LEFT}");
    let unused = [(Cause::Use, 2)];
    let some = left_out(rt.alloc(), Source::Data, 10, &unused, &[]);
    assert!(rt; is_written(some, UNUSED_LEFT), "{UNUSED_LEFT}");
    let none = left_out(rt.alloc(), Source::Data, 1, &[], &NAMED);
    assert!(rt; is_written(none, NOTHING_LEFT), "{NOTHING_LEFT}");
    let chosen = left_out(rt.alloc(), Source::Data, 1, &[], &CHOSEN);
    assert!(rt; is_written(chosen, NOT_KNOWN), "{NOT_KNOWN}");
}

// Checksums, and how they are checked.
fn sums(alloc: Global, origin: Origin) -> Result<(Vec<u8>, Vec<u8>), AllocError> {
    let (mut text, mut words) = (Vec::new(alloc), Vec::new(alloc));
    let sums = Sums {
        origin,
        report: Some(ONES),
        program: (b"homerange 1.0.0", TWOS),
    };
    push_sums(&mut text, &sums)?;
    push_verify(&mut words, &sums)?;
    Ok((text, words))
}

#[test]
fn checksums_are_those_that_are_given(rt: HostRuntime) {
    let (Ok(export), Ok(data)) = (
        sums(rt.alloc(), Origin::Export(b"a&b.csv", ZEROS)),
        sums(rt.alloc(), Origin::Data),
    ) else {
        assert!(rt; false, "there is memory");
        return;
    };
    assert!(rt; export.0.as_slice() == SUMS.as_bytes(), "{SUMS}");
    assert!(rt;
        data.0.as_slice() == SUMS_OF_DATA.as_bytes(),
        "{SUMS_OF_DATA}"
    );
    assert!(rt; export.1.as_slice() == VERIFY.0.as_bytes(), "{}", VERIFY.0);
    assert!(rt; data.1.as_slice() == VERIFY.1.as_bytes(), "{}", VERIFY.1);
}

const RECORD: &str = "export,a&b.csv\n\
    sha256,0000000000000000000000000000000000000000000000000000000000000000\n\
    unit,m\nzone,33N\noption,zone,33N\noption,skip-unnamed\noption,na,\ntool,x\n";

#[test]
fn options_are_those_of_the_record(rt: HostRuntime) {
    let Ok(record) = read_record(rt.alloc(), RECORD.as_bytes()) else {
        assert!(rt; false, "it is read");
        return;
    };
    let mut text = Vec::new(rt.alloc());
    let is_told = push_options(&mut text, &record).is_ok();
    assert!(rt;
        is_told && text.as_slice() == OPTIONS.as_bytes(),
        "{OPTIONS}"
    );
}

// A sentence on animals without a range.
fn without_range(alloc: Global, source: Source, animals: &[Unused]) -> Result<Vec<u8>, AllocError> {
    let mut text = Vec::new(alloc);
    push_without_range(&mut text, source, animals)?;
    Ok(text)
}

// So many animals, each with one record more.
fn many(alloc: Global) -> Result<Vec<Vec<u8>>, AllocError> {
    let mut names = Vec::new(alloc);
    for n in 0..23_u64 {
        let name = if n < 10 {
            format!(in alloc; "a0{n}")?
        } else {
            format!(in alloc; "a{n}")?
        };
        names.push(name.into_bytes())?;
    }
    Ok(names)
}

// The sentence on these.
fn of_many(alloc: Global) -> Result<Vec<u8>, AllocError> {
    let names = many(alloc)?;
    let mut animals = Vec::new(alloc);
    for (place, name) in names.iter().enumerate() {
        animals.push(Unused {
            name,
            records: place as u64 + 1,
        })?;
    }
    without_range(alloc, Source::Data, &animals)
}

#[test]
fn animals_without_a_range_are_named(rt: HostRuntime) {
    let two = [
        Unused {
            name: b"b<",
            records: 1,
        },
        Unused {
            name: b"c",
            records: 2_000,
        },
    ];
    let some = without_range(rt.alloc(), Source::Export, &two);
    assert!(rt; is_written(some, WITHOUT_RANGE), "{WITHOUT_RANGE}");
    assert!(rt;
        is_written(of_many(rt.alloc()), WITHOUT_RANGE_OF_MANY),
        "{WITHOUT_RANGE_OF_MANY}"
    );
    assert!(rt;
        is_written(without_range(rt.alloc(), Source::Data, &[]), ""),
        "none"
    );
}
