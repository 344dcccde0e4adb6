// Overlaps: how many fixes of animals lie in the polygons of all fixes of others.

use crate::cells::{NOTHING, push_count};
use crate::pairs::{Meeting, count, meetings_of, pairs_of};
use page_drawing::push_colour;
use page_report::Report;
use page_text::{push_attribute, push_count_with_share, push_fixes, push_named};
use std::alloc::{AllocError, Global};

// Of how many animals overlaps are a square table, and how many pairs the table of more has.
const MOST_ANIMALS: usize = 12;

const MOST_PAIRS: usize = 60;

// The name of the animal at a place.
fn name_at(report: &Report, place: usize) -> &[u8] {
    match report.animals.get(place) {
        Some(animal) => &animal.name,
        None => b"",
    }
}

// Appends how many fixes of an animal lie in the range of another, with their share.
fn push_text(
    text: &mut Vec<u8>,
    report: &Report,
    animal: usize,
    range: usize,
) -> Result<(), AllocError> {
    let fixes = count(report, animal, animal).max(1);
    push_count_with_share(text, count(report, animal, range), fixes)
}

// Appends the cell of a pair.
fn push_pair(
    text: &mut Vec<u8>,
    report: &Report,
    animal: usize,
    range: usize,
) -> Result<(), AllocError> {
    text.extend_from_slice(b"<td data-animal=\"")?;
    push_attribute(text, name_at(report, animal))?;
    text.extend_from_slice(b"\" data-other=\"")?;
    push_attribute(text, name_at(report, range))?;
    text.extend_from_slice(b"\">")?;
    push_text(text, report, animal, range)?;
    text.extend_from_slice(b"</td>")
}

// Appends the number and the name of an animal.
fn push_animal(text: &mut Vec<u8>, report: &Report, place: usize) -> Result<(), AllocError> {
    let number = (place as u64).saturating_add(1);
    text.extend_from_slice(b"<td class=\"")?;
    push_colour(text, number)?;
    text.extend_from_slice(b" n\">")?;
    push_count(text, number)?;
    text.extend_from_slice(b"</td><th scope=\"row\">")?;
    push_named(text, name_at(report, place))?;
    text.extend_from_slice(b"</th>")
}

// Appends the cells of an animal in the square table.
fn push_square_cells(text: &mut Vec<u8>, report: &Report, animal: usize) -> Result<(), AllocError> {
    for range in 0..report.animals.len() {
        if range == animal {
            text.extend_from_slice(b"<td>")?;
            text.extend_from_slice(NOTHING)?;
            text.extend_from_slice(b"</td>")?;
        } else {
            push_pair(text, report, animal, range)?;
        }
    }
    Ok(())
}

// Appends the lines of the square table.
fn push_square_lines(text: &mut Vec<u8>, report: &Report) -> Result<(), AllocError> {
    for animal in 0..report.animals.len() {
        text.extend_from_slice(b"<tr>")?;
        push_animal(text, report, animal)?;
        push_square_cells(text, report, animal)?;
        text.extend_from_slice(b"</tr>\n")?;
    }
    Ok(())
}

// Appends the number of each animal as a heading.
fn push_numbers(text: &mut Vec<u8>, report: &Report) -> Result<(), AllocError> {
    for place in 0..report.animals.len() {
        let number = (place as u64).saturating_add(1);
        text.extend_from_slice(b"<th scope=\"col\" class=\"")?;
        push_colour(text, number)?;
        text.extend_from_slice(b"\">")?;
        push_count(text, number)?;
        text.extend_from_slice(b"</th>")?;
    }
    Ok(())
}

// Appends the square table: whose fixes in the rows, and in whose ranges in the columns.
fn push_square(text: &mut Vec<u8>, report: &Report) -> Result<(), AllocError> {
    text.extend_from_slice(
        b"<p class=\"note\">Rows: whose fixes. Columns: in the range of the animal with this number.</p>\n",
    )?;
    text.extend_from_slice(
        b"<table id=\"overlaps\"><caption class=\"hidden\">Fixes of one animal in the range of another</caption>\
        <thead><tr><th></th><th scope=\"col\" class=\"name\">Fixes of</th>",
    )?;
    push_numbers(text, report)?;
    text.extend_from_slice(b"</tr></thead>\n<tbody>\n")?;
    push_square_lines(text, report)?;
    text.extend_from_slice(b"</tbody></table>")
}

// Appends the lines of pairs.
fn push_lines(text: &mut Vec<u8>, report: &Report, pairs: &[Meeting]) -> Result<(), AllocError> {
    for pair in pairs {
        text.extend_from_slice(b"<tr>")?;
        push_animal(text, report, pair.one)?;
        push_animal(text, report, pair.other)?;
        push_pair(text, report, pair.one, pair.other)?;
        push_pair(text, report, pair.other, pair.one)?;
        text.extend_from_slice(b"</tr>\n")?;
    }
    Ok(())
}

// Appends the table of the pairs that meet, those with the greatest shares first.
fn push_pairs(text: &mut Vec<u8>, report: &Report, pairs: &[Meeting]) -> Result<(), AllocError> {
    text.extend_from_slice(b"<p class=\"note\">Pairs are sorted by the greater of both shares.")?;
    if pairs.len() > MOST_PAIRS {
        text.extend_from_slice(b" The ")?;
        push_count(text, MOST_PAIRS as u64)?;
        text.extend_from_slice(b" pairs with the greatest shares are here.")?;
    }
    text.extend_from_slice(
        b"</p>\n<table id=\"overlaps\"><caption class=\"hidden\">Fixes of one animal in the range of another</caption>\
        <thead><tr><th></th><th scope=\"col\" class=\"name\">A</th><th></th>",
    )?;
    text.extend_from_slice(
        b"<th scope=\"col\" class=\"name\">B</th><th scope=\"col\">fixes of A in the range of B</th>",
    )?;
    text.extend_from_slice(
        b"<th scope=\"col\">fixes of B in the range of A</th></tr></thead>\n<tbody>\n",
    )?;
    push_lines(text, report, &pairs[..pairs.len().min(MOST_PAIRS)])?;
    text.extend_from_slice(b"</tbody></table>")
}

/// Appends the table of overlaps: a square of few animals, the pairs that meet of many, and nothing where none do.
///
/// # Errors
///
/// Memory ran out.
pub fn push_overlap_table(
    alloc: Global,
    text: &mut Vec<u8>,
    report: &Report,
) -> Result<(), AllocError> {
    let pairs = meetings_of(alloc, report)?;
    if pairs.is_empty() {
        Ok(())
    } else if report.animals.len() <= MOST_ANIMALS {
        push_square(text, report)
    } else {
        push_pairs(text, report, &pairs)
    }
}

// Whether the second of a pair has the greater share of its fixes in the range of the first.
fn is_second(report: &Report, pair: Meeting) -> bool {
    let (one, other) = (pair.one, pair.other);
    let first = u128::from(count(report, one, other)) * u128::from(count(report, other, other));
    let second = u128::from(count(report, other, one)) * u128::from(count(report, one, one));
    first < second
}

// Appends which pair meets most.
fn push_most(text: &mut Vec<u8>, report: &Report, pair: Meeting) -> Result<(), AllocError> {
    let (animal, range) = if is_second(report, pair) {
        (pair.other, pair.one)
    } else {
        (pair.one, pair.other)
    };
    push_named(text, name_at(report, animal))?;
    text.extend_from_slice(b": ")?;
    push_text(text, report, animal, range)?;
    text.extend_from_slice(b" of its ")?;
    push_fixes(text, count(report, animal, animal))?;
    text.extend_from_slice(b" in the range of ")?;
    push_named(text, name_at(report, range))?;
    text.extend_from_slice(b".")
}

// Appends that no pair meets.
fn push_none(text: &mut Vec<u8>, pairs: u64) -> Result<(), AllocError> {
    let word: &[u8] = if pairs == 1 { b" pair)." } else { b" pairs)." };
    text.extend_from_slice(b"No animal has a fix in the range of another (")?;
    push_count(text, pairs)?;
    text.extend_from_slice(word)
}

// Appends how many pairs meet, and which of them most.
fn push_some(
    text: &mut Vec<u8>,
    report: &Report,
    meetings: u64,
    first: Meeting,
) -> Result<(), AllocError> {
    text.extend_from_slice(b"Pairs of animals that meet: ")?;
    push_count(text, meetings)?;
    text.extend_from_slice(b" of ")?;
    push_count(text, pairs_of(report.animals.len()))?;
    text.extend_from_slice(
        b" (a fix of one lies in the 100 % polygon of the other, its edges included). Most of all ",
    )?;
    push_most(text, report, first)
}

/// Appends the sentence on what all pairs come to, and which meet most.
///
/// # Errors
///
/// Memory ran out.
pub fn push_overlap_sentence(
    alloc: Global,
    text: &mut Vec<u8>,
    report: &Report,
) -> Result<(), AllocError> {
    if report.animals.len() == 1 {
        return text.extend_from_slice(b"There is one animal, and so no overlap.");
    }
    let pairs = meetings_of(alloc, report)?;
    match pairs.first() {
        Some(first) => push_some(text, report, pairs.len() as u64, *first),
        None => push_none(text, pairs_of(report.animals.len())),
    }
}
