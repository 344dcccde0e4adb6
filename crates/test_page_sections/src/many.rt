// Pages of many animals, of which those with even numbers meet.

use crate::cases::{PAIRS_OF_FORTY_ONE, PAIRS_OF_THIRTEEN, SENTENCE_OF_FORTY_ONE};
use crate::sections::{basis_by_times, told_of};
use page_report::{Report, read_report};
use page_sections::{Shown, Source, push_overlap_sentence, push_overlap_table, push_sentences};
use range_plane::OutOfMemory;
use split_clock::Clock;
use std::alloc::{AllocError, Global};

// Appends the lines of an animal of three fixes.
fn push_animal(alloc: Global, text: &mut String, n: u32) -> Result<(), AllocError> {
    let side = 2 * u64::from(n) + 2;
    let head = format!(in alloc; "animal,a{n},fixes,3\nbox,a{n},0,0,{side},1\n")?;
    let rows = format!(in alloc;
        "row,a{n},1,1700000000,1,0\nrow,a{n},2,1700000001,2,0\nrow,a{n},3,1700000002,3,{side}\n"
    )?;
    let corners = format!(in alloc;
        "corner,a{n},1,0,0\ncorner,a{n},2,{side},0\ncorner,a{n},3,0,1\npercent,a{n},100,3,3,{side}\n"
    )?;
    text.push_str(&head)?;
    text.push_str(&rows)?;
    text.push_str(&corners)
}

// Appends the overlaps of an animal with all others.
fn push_overlaps(alloc: Global, text: &mut String, a: u32, count: u32) -> Result<(), AllocError> {
    for b in 0..count {
        let meets = a % 2 == 0 && b % 2 == 0;
        let fixes = if meets {
            1 + (u64::from(a) + u64::from(b)) % 3
        } else {
            0
        };
        if a != b {
            let line = format!(in alloc; "overlap,a{a},a{b},{fixes},3\n")?;
            text.push_str(&line)?;
        }
    }
    Ok(())
}

// The report of so many animals.
fn report_text(alloc: Global, count: u32) -> Result<String, AllocError> {
    let mut text = String::new(alloc);
    for n in 0..count {
        push_animal(alloc, &mut text, n)?;
    }
    push_all_overlaps(alloc, &mut text, count)?;
    let end = format!(in alloc; "end,{count}\n")?;
    text.push_str(&end)?;
    Ok(text)
}

// Appends all overlaps.
fn push_all_overlaps(alloc: Global, text: &mut String, count: u32) -> Result<(), AllocError> {
    for a in 0..count {
        push_overlaps(alloc, text, a, count)?;
    }
    Ok(())
}

// The report of so many animals, read; none where it is not.
fn report_of(alloc: Global, count: u32) -> Option<Report> {
    let text = report_text(alloc, count).ok()?;
    read_report(alloc, text.as_bytes()).ok()
}

// The sentence and the table of overlaps.
fn overlaps(alloc: Global, report: &Report) -> Result<(Vec<u8>, Vec<u8>), AllocError> {
    let (mut sentence, mut table) = (Vec::new(alloc), Vec::new(alloc));
    push_overlap_sentence(alloc, &mut sentence, report)?;
    push_overlap_table(alloc, &mut table, report)?;
    Ok((sentence, table))
}

#[test]
fn pairs_of_many_animals_are_a_list(rt: HostRuntime) {
    let Some(report) = report_of(rt.alloc(), 13) else {
        assert!(rt; false, "it is read");
        return;
    };
    let Ok((sentence, table)) = overlaps(rt.alloc(), &report) else {
        assert!(rt; false, "there is memory");
        return;
    };
    assert!(rt;
        sentence.as_slice() == PAIRS_OF_THIRTEEN.0.as_bytes(),
        "{}",
        PAIRS_OF_THIRTEEN.0
    );
    assert!(rt;
        table.as_slice() == PAIRS_OF_THIRTEEN.1.as_bytes(),
        "{}",
        PAIRS_OF_THIRTEEN.1
    );
}

#[test]
fn of_very_many_pairs_the_first_are_shown(rt: HostRuntime) {
    let Some(report) = report_of(rt.alloc(), 41) else {
        assert!(rt; false, "it is read");
        return;
    };
    let Ok((_sentence, table)) = overlaps(rt.alloc(), &report) else {
        assert!(rt; false, "there is memory");
        return;
    };
    assert!(rt;
        table.as_slice().starts_with(PAIRS_OF_FORTY_ONE.as_bytes()),
        "{PAIRS_OF_FORTY_ONE}"
    );
}

// One sentence for many animals.
fn sentence(alloc: Global, report: &Report) -> Result<Vec<u8>, OutOfMemory> {
    let told = told_of(alloc, report, &[], &[])?;
    let basis = basis_by_times(alloc, report)?;
    let clock = Clock::utc();
    let shown = Shown {
        report,
        told: &told,
        basis: &basis,
        causes: &[],
        source: Source::Data,
        dated: true,
        clock: &clock,
        zone: b"UTC",
    };
    let mut text = Vec::new(alloc);
    push_sentences(alloc, &mut text, &shown)?;
    Ok(text)
}

#[test]
fn many_animals_have_one_sentence(rt: HostRuntime) {
    let Some(report) = report_of(rt.alloc(), 41) else {
        assert!(rt; false, "it is read");
        return;
    };
    let Ok(text) = sentence(rt.alloc(), &report) else {
        assert!(rt; false, "there is memory");
        return;
    };
    assert!(rt;
        text.as_slice() == SENTENCE_OF_FORTY_ONE.as_bytes(),
        "{SENTENCE_OF_FORTY_ONE}"
    );
}
