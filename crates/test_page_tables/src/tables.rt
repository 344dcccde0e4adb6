// Tests of tables. What is expected was written by the makers in Python, as `reports.rt` says.

use crate::reports::{Case, DATES, DECIMETRES, NAMES, NO_AREA, ONE, ONE_FIX, QUOTED, SECONDS, TWO};
use page_facts::{Facts, Growth, facts_of};
use page_report::{ReadFault, Report, read_report};
use page_tables::{Told, push_animals, push_overlaps, push_summary};
use std::alloc::{AllocError, Global};

const CASES: [Case; 8] = [
    ONE, NAMES, ONE_FIX, NO_AREA, DECIMETRES, SECONDS, DATES, QUOTED,
];

// The table of levels.
fn summary(alloc: Global, report: &Report) -> Result<Vec<u8>, AllocError> {
    let mut text = Vec::new(alloc);
    push_summary(&mut text, report)?;
    Ok(text)
}

// The table of shares.
fn overlaps(alloc: Global, report: &Report) -> Result<Vec<u8>, AllocError> {
    let mut text = Vec::new(alloc);
    push_overlaps(&mut text, report)?;
    Ok(text)
}

// What is told of the animals of a report, of which these were left out.
fn told_of(
    alloc: Global,
    report: &Report,
    records: &[u64],
    left: &[&[u64]],
) -> Result<Vec<Told>, AllocError> {
    let mut told = Vec::new(alloc);
    for (place, animal) in report.animals.iter().enumerate() {
        let own = Told {
            facts: facts_of(alloc, animal)?,
            records: records.get(place).copied(),
            left: Vec::from_slice(alloc, left.get(place).copied().unwrap_or(&[]))?,
        };
        told.push(own)?;
    }
    Ok(told)
}

// The table of animals.
fn animals(
    alloc: Global,
    report: &Report,
    reasons: &[&[u8]],
    told: &[Told],
) -> Result<Vec<u8>, AllocError> {
    let mut text = Vec::new(alloc);
    push_animals(&mut text, report, reasons, told)?;
    Ok(text)
}

// The table of animals of whose export nothing is known.
fn plain_animals(alloc: Global, report: &Report) -> Result<Vec<u8>, AllocError> {
    let told = told_of(alloc, report, &[], &[])?;
    animals(alloc, report, &[], &told)
}

// Whether a table was written, and is this one.
fn is_written(table: Result<Vec<u8>, AllocError>, expected: &str) -> bool {
    match table {
        Ok(text) => text.as_slice() == expected.as_bytes(),
        Err(_no_memory) => false,
    }
}

#[test]
fn tables_are_those_of_the_makers_in_python(rt: HostRuntime) {
    for case in &CASES {
        let Ok(report) = read_report(rt.alloc(), case.report.as_bytes()) else {
            assert!(rt; false, "it is not read");
            return;
        };
        assert!(rt;
            is_written(summary(rt.alloc(), &report), case.summary),
            "{}",
            case.summary
        );
        assert!(rt;
            is_written(overlaps(rt.alloc(), &report), case.overlaps),
            "{}",
            case.overlaps
        );
        assert!(rt;
            is_written(plain_animals(rt.alloc(), &report), case.animals),
            "{}",
            case.animals
        );
    }
}

// The table of two animals with what was left out of their export.
fn animals_of_two(alloc: Global) -> Result<Vec<u8>, ReadFault> {
    let report = read_report(alloc, TWO.report.as_bytes())?;
    let reasons: [&[u8]; 3] = [b"outlier", b"no_dop", b"speed"];
    let left: [&[u64]; 2] = [&[1, 0, 3], &[0, 2, 0]];
    let Ok(told) = told_of(alloc, &report, &[8, 5], &left) else {
        return Err(ReadFault::OutOfMemory);
    };
    match animals(alloc, &report, &reasons, &told) {
        Ok(text) => Ok(text),
        Err(_no_memory) => Err(ReadFault::OutOfMemory),
    }
}

#[test]
fn fixes_that_were_left_out_have_columns(rt: HostRuntime) {
    let is_expected = match animals_of_two(rt.alloc()) {
        Ok(text) => text.as_slice() == TWO.animals.as_bytes(),
        Err(_fault) => false,
    };
    assert!(rt; is_expected, "{}", TWO.animals);
    let Ok(report) = read_report(rt.alloc(), TWO.report.as_bytes()) else {
        assert!(rt; false, "it is not read");
        return;
    };
    assert!(rt;
        is_written(summary(rt.alloc(), &report), TWO.summary),
        "{}",
        TWO.summary
    );
    assert!(rt;
        is_written(overlaps(rt.alloc(), &report), TWO.overlaps),
        "{}",
        TWO.overlaps
    );
}

// A report of a fox with 800 fixes, of which 17 lie in the range of an owl.
fn of_many(alloc: Global) -> Result<String, AllocError> {
    let mut text = format!(in alloc; "animal,fox,fixes,800\nbox,fox,1,1,1,1\n")?;
    for number in 1..801 {
        let row = format!(in alloc; "row,fox,{number},{number},1,0\n")?;
        text.push_str(&row)?;
    }
    text.push_str(
        "corner,fox,1,1,1\nanimal,owl,fixes,1\nbox,owl,2,2,2,2\nrow,owl,1,1,1,0\ncorner,owl,1,2,2\n",
    )?;
    text.push_str("overlap,fox,owl,17,800\noverlap,owl,fox,0,1\nend,2\n")?;
    Ok(text)
}

// A share of 212.5 ten thousandths, which a float64 has a little greater.
#[test]
fn shares_are_rounded_as_floats_are(rt: HostRuntime) {
    let Ok(text) = of_many(rt.alloc()) else {
        assert!(rt; false, "there is memory");
        return;
    };
    let Ok(report) = read_report(rt.alloc(), text.as_bytes()) else {
        assert!(rt; false, "it is not read");
        return;
    };
    let expected = "fixes_of,fox,owl\nfox,1.0,0.0213\nowl,0.0,1.0\n";
    assert!(rt;
        is_written(overlaps(rt.alloc(), &report), expected),
        "{expected}"
    );
}

// Doubled areas that fall, of which the last but one is the first from which on all are 95 per cent or more of the last.
const FALLING: &str =
    "animal,fox,fixes,5\nbox,fox,1,1,9,9\nrow,fox,1,9,1,0\nrow,fox,2,19,3,100\nrow,fox,3,30,3,10\nrow,fox,4,33,3,100\nrow,fox,5,40,3,96\n\
    end,1\n";

#[test]
fn growth_is_that_from_which_on_the_area_stayed(rt: HostRuntime) {
    let Ok(report) = read_report(rt.alloc(), FALLING.as_bytes()) else {
        assert!(rt; false, "it is not read");
        return;
    };
    let [fox] = report.animals.as_slice() else {
        assert!(rt; false, "it has one animal");
        return;
    };
    let Ok(facts) = facts_of(rt.alloc(), fox) else {
        assert!(rt; false, "there is memory");
        return;
    };
    let growth = Growth {
        area2: 96,
        within: Some(4),
        tenth: 0,
        quarter: 86,
    };
    let expected = Facts {
        fixes: 5,
        first: Some(9),
        last: Some(40),
        median2: Some(17),
        longest: Some(11),
        growth,
        within_second: Some(33),
    };
    assert!(rt; facts == expected, "{facts:?}");
}
