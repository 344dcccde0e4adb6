// Sections of the pages of reports.

use crate::cases::{Case, DECIMETRES, MANY_LEVELS, NAMES, SECONDS, TWO};
use page_basis::{Basis, basis_of, quoted_level};
use page_facts::{are_dates, facts_of};
use page_report::{Report, read_report};
use page_sections::{
    Cause, Shown, Source, push_animals_table, push_method, push_overlap_sentence,
    push_overlap_table, push_sentences,
};
use page_tables::Told;
use range_plane::OutOfMemory;
use split_clock::Clock;
use split_tracks::Reason;
use std::alloc::{AllocError, Global};

const CASES: [Case; 4] = [NAMES, DECIMETRES, SECONDS, MANY_LEVELS];

const CAUSES: [Cause; 3] = [
    Cause::Made(Reason::Outlier),
    Cause::Made(Reason::NoDop),
    Cause::Made(Reason::Speed),
];

const LEFT: [&[u64]; 2] = [&[1, 0, 3], &[0, 2, 0]];

// What is told of the animals of a report, of which these records are known.
pub(crate) fn told_of(
    alloc: Global,
    report: &Report,
    records: &[u64],
    left: &[&[u64]],
) -> Result<Vec<Told>, AllocError> {
    let mut told = Vec::new(alloc);
    for (place, animal) in report.animals.iter().enumerate() {
        told.push(Told {
            facts: facts_of(alloc, animal)?,
            records: records.get(place).copied(),
            left: Vec::from_slice(alloc, left.get(place).copied().unwrap_or(&[]))?,
        })?;
    }
    Ok(told)
}

// What the areas of animals of a report rest on, whose places are not known.
pub(crate) fn basis_by_times(alloc: Global, report: &Report) -> Result<Vec<Basis>, OutOfMemory> {
    let level = quoted_level(report);
    let mut basis = Vec::new(alloc);
    for animal in &report.animals {
        basis.push(basis_of(alloc, animal, level, None)?)?;
    }
    Ok(basis)
}

// The sections of a page, one behind the other.
fn sections(alloc: Global, shown: &Shown) -> Result<Vec<u8>, AllocError> {
    let mut text = Vec::new(alloc);
    push_sentences(alloc, &mut text, shown)?;
    push_animals_table(&mut text, shown)?;
    push_overlap_sentence(alloc, &mut text, shown.report)?;
    push_overlap_table(alloc, &mut text, shown.report)?;
    push_method(
        alloc,
        &mut text,
        shown,
        b"homerange 1.0.0",
        b"EPSG:32633 (WGS 84 / UTM zone 33N)",
    )?;
    Ok(text)
}

// The same of a case.
fn expected(alloc: Global, case: &Case) -> Result<Vec<u8>, AllocError> {
    let mut text = Vec::new(alloc);
    for part in [
        case.sentences,
        case.animals,
        case.overlap,
        case.overlaps,
        case.method,
    ] {
        text.extend_from_slice(part.as_bytes())?;
    }
    Ok(text)
}

// Whether the sections of a report are those that are expected.
fn are_expected(alloc: Global, case: &Case, shown: &Shown) -> bool {
    match (sections(alloc, shown), expected(alloc, case)) {
        (Ok(text), Ok(wanted)) => text.as_slice() == wanted.as_slice(),
        _ => false,
    }
}

#[test]
fn sections_are_those_of_their_reports(rt: HostRuntime) {
    let clock = Clock::utc();
    for case in &CASES {
        let Ok(report) = read_report(rt.alloc(), case.report.as_bytes()) else {
            assert!(rt; false, "it is not read");
            return;
        };
        let Ok(told) = told_of(rt.alloc(), &report, &[], &[]) else {
            assert!(rt; false, "there is memory");
            return;
        };
        let Ok(basis) = basis_by_times(rt.alloc(), &report) else {
            assert!(rt; false, "there is memory");
            return;
        };
        let shown = Shown {
            report: &report,
            told: &told,
            basis: &basis,
            causes: &[],
            source: Source::Data,
            dated: are_dates(&report),
            clock: &clock,
            zone: b"UTC",
        };
        assert!(rt;
            are_expected(rt.alloc(), case, &shown),
            "{}",
            case.sentences
        );
    }
}

#[test]
fn fixes_that_were_left_out_have_columns(rt: HostRuntime) {
    let clock = Clock::utc();
    let Ok(report) = read_report(rt.alloc(), TWO.report.as_bytes()) else {
        assert!(rt; false, "it is not read");
        return;
    };
    let Ok(told) = told_of(rt.alloc(), &report, &[8, 5], &LEFT) else {
        assert!(rt; false, "there is memory");
        return;
    };
    let Ok(basis) = basis_by_times(rt.alloc(), &report) else {
        assert!(rt; false, "there is memory");
        return;
    };
    let shown = Shown {
        report: &report,
        told: &told,
        basis: &basis,
        causes: &CAUSES,
        source: Source::Export,
        dated: are_dates(&report),
        clock: &clock,
        zone: b"UTC",
    };
    assert!(rt; are_expected(rt.alloc(), &TWO, &shown), "{}", TWO.animals);
}
