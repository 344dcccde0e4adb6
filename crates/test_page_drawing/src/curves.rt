// Tests of curves.

use crate::reports::{FIVE, FIVE_CURVES, MANY, MANY_CURVES, ONE, ONE_CURVES, TWO, TWO_CURVES};
use page_curves::push_curves;
use page_facts::{Facts, facts_of};
use page_report::{Report, read_report};
use std::alloc::{AllocError, Global};

// The facts of each animal.
fn all_facts(alloc: Global, report: &Report) -> Result<Vec<Facts>, AllocError> {
    let mut facts = Vec::new(alloc);
    for animal in &report.animals {
        facts.push(facts_of(alloc, animal)?)?;
    }
    Ok(facts)
}

// The curves of a report.
fn curves(alloc: Global, report: &Report) -> Result<Vec<u8>, AllocError> {
    let facts = all_facts(alloc, report)?;
    let mut text = Vec::new(alloc);
    push_curves(&mut text, &report.animals, &facts, report.unit)?;
    Ok(text)
}

// Whether curves were drawn, and are these.
fn is_drawn(curves: Result<Vec<u8>, AllocError>, expected: &str) -> bool {
    match curves {
        Ok(text) => text.as_slice() == expected.as_bytes(),
        Err(_no_memory) => false,
    }
}

#[test]
fn curves_are_those_of_the_maker_in_python(rt: HostRuntime) {
    let cases = [
        (ONE, ONE_CURVES),
        (TWO, TWO_CURVES),
        (FIVE, FIVE_CURVES),
        (MANY, MANY_CURVES),
    ];
    for (report, expected) in cases {
        let Ok(report) = read_report(rt.alloc(), report.as_bytes()) else {
            assert!(rt; false, "it is not read");
            return;
        };
        assert!(rt;
            is_drawn(curves(rt.alloc(), &report), expected),
            "{expected}"
        );
    }
}
