// The sections of the page.

use crate::page::Page;
use crate::template::{
    BEFORE_ANIMALS, BEFORE_CHECKSUMS, BEFORE_CURVES, BEFORE_GROUND, BEFORE_KEY, BEFORE_MAPS,
    BEFORE_METHOD, BEFORE_NOTES, BEFORE_OVERLAP, BEFORE_OVERLAPS, BEFORE_SENTENCES, BEFORE_SIZE,
    BEFORE_TENTH, BEFORE_VERIFY, BEHIND_VERIFY, TENTH,
};
use page_curves::push_curves;
use page_facts::Facts;
use page_ground::{push_ground, push_key};
use page_map::draw_maps;
use page_sections::{
    Origin, Shown, Sums, push_animals_table, push_growth_table, push_left_out, push_method,
    push_options, push_overlap_sentence, push_overlap_table, push_said, push_sampling_table,
    push_sentences, push_sums, push_verify, push_without_range,
};
use range_plane::Scale;
use std::alloc::{AllocError, Global};

// The most animals whose curves are kept on one sheet.
const FEW: usize = 3;

// Appends the sentences and the table of animals.
fn push_ranges(alloc: Global, text: &mut Vec<u8>, page: &Page) -> Result<(), AllocError> {
    text.extend_from_slice(BEFORE_SENTENCES)?;
    push_sentences(alloc, text, &page.shown)?;
    text.extend_from_slice(BEFORE_ANIMALS)?;
    push_animals_table(text, &page.shown)?;
    push_growth_table(text, &page.shown)?;
    push_sampling_table(text, &page.shown)?;
    text.extend_from_slice(BEFORE_NOTES)?;
    push_without_range(text, page.shown.source, page.unused)
}

// Appends the maps, and what is said of them.
fn push_maps(alloc: Global, text: &mut Vec<u8>, page: &Page) -> Result<(), AllocError> {
    let maps = draw_maps(
        alloc,
        page.shapes,
        page.plane,
        page.boundary.unwrap_or(&[]),
        page.system,
    )?;
    let name = page.words.boundary.unwrap_or(b"boundary");
    let boundary = page.boundary.map(|_rings| name);
    text.extend_from_slice(BEFORE_MAPS)?;
    text.extend_from_slice(&maps.drawings)?;
    text.extend_from_slice(BEFORE_KEY)?;
    push_key(text, page.levels, boundary, &page.shown.report.animals)?;
    text.extend_from_slice(BEFORE_GROUND)?;
    push_ground(
        text,
        page.differences,
        &maps,
        page.has_fixes,
        boundary.is_some(),
    )
}

// The facts of animals.
fn facts_of_all(alloc: Global, shown: &Shown) -> Result<Vec<Facts>, AllocError> {
    let mut facts = Vec::new(alloc);
    for own in shown.told {
        facts.push(own.facts)?;
    }
    Ok(facts)
}

// Appends the curves.
fn push_all_curves(alloc: Global, text: &mut Vec<u8>, page: &Page) -> Result<(), AllocError> {
    let animals = &page.shown.report.animals;
    text.extend_from_slice(BEFORE_SIZE)?;
    text.extend_from_slice(if animals.len() <= FEW {
        b"whole"
    } else {
        b"long"
    })?;
    text.extend_from_slice(BEFORE_CURVES)?;
    let facts = facts_of_all(alloc, &page.shown)?;
    push_curves(text, animals, &facts, page.shown.report.unit)
}

// Appends the overlaps.
fn push_overlaps(alloc: Global, text: &mut Vec<u8>, page: &Page) -> Result<(), AllocError> {
    text.extend_from_slice(BEFORE_OVERLAP)?;
    push_overlap_sentence(alloc, text, page.shown.report)?;
    text.extend_from_slice(BEFORE_OVERLAPS)?;
    push_overlap_table(alloc, text, page.shown.report)
}

// What was said when the fixes were read.
fn said_of<'a>(page: &Page<'a>) -> &'a [Vec<u8>] {
    match page.record {
        Some(record) => &record.said,
        None => &[],
    }
}

// Appends the words that a reader may not know.
fn push_words(text: &mut Vec<u8>, unit: Scale) -> Result<(), AllocError> {
    text.extend_from_slice(BEFORE_TENTH)?;
    match unit {
        Scale::Metre => Ok(()),
        Scale::Decimetre => text.extend_from_slice(TENTH),
    }
}

// Appends the method, with what was left out and what was said.
fn push_all_method(alloc: Global, text: &mut Vec<u8>, page: &Page) -> Result<(), AllocError> {
    text.extend_from_slice(BEFORE_METHOD)?;
    push_method(alloc, text, &page.shown, page.made.version, page.system)?;
    text.extend_from_slice(b" ")?;
    push_left_out(text, page.shown.source, page.totals.as_ref(), said_of(page))?;
    match page.record {
        Some(record) => {
            push_options(text, record)?;
            push_said(alloc, text, &record.said)
        }
        None => Ok(()),
    }
}

// What the tracks were made of.
fn origin_of<'a>(page: &Page<'a>) -> Origin<'a> {
    let Some(record) = page.record else {
        return Origin::Unknown;
    };
    match (&record.export, &record.sum) {
        (Some(name), Some(sum)) => Origin::Export(name, sum),
        _ => Origin::Data,
    }
}

// Appends the checksums.
fn push_all_sums(text: &mut Vec<u8>, page: &Page) -> Result<(), AllocError> {
    let sum = page
        .made
        .sum
        .unwrap_or(b"not known, since the program was not found");
    let sums = Sums {
        origin: origin_of(page),
        report: page.report_sum,
        program: (page.made.version, sum),
    };
    text.extend_from_slice(BEFORE_CHECKSUMS)?;
    push_sums(text, &sums)?;
    text.extend_from_slice(BEFORE_VERIFY)?;
    push_verify(text, &sums)?;
    text.extend_from_slice(BEHIND_VERIFY)
}

// Appends the sections of the page.
pub(crate) fn push_body(alloc: Global, text: &mut Vec<u8>, page: &Page) -> Result<(), AllocError> {
    push_ranges(alloc, text, page)?;
    push_maps(alloc, text, page)?;
    push_all_curves(alloc, text, page)?;
    push_overlaps(alloc, text, page)?;
    push_words(text, page.shown.report.unit)?;
    push_all_method(alloc, text, page)?;
    push_all_sums(text, page)
}
