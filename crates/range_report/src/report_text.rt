// The report of an analysis.

ghost use Rattle.std.specs.Prelude.{◌≡◌, ◌+◌, ◌^◌, ◌++◌, ◌<◌, IfOk, OnOk, drop, length, take};
ghost use Rattle.std.specs.List.{AllZip, flat_map};
ghost use Rattle.range_report.specs.Parts.{part_lines, tail_text, text_of};
ghost use Rattle.range_report.specs.Report.{animal_text, report_text, unit_line};

use crate::parts::{Lines, PART_LINES, Part, parts_of};
use crate::report_lines::{
    push_box, push_corners, push_end, push_head, push_overlaps, push_percents, push_rows,
};
use range_analysis::{Analysis, Animal};
use range_plane::{OutOfMemory, Scale};
use range_pump::ThreadAllocator;
use rayon::prelude::*;
use std::alloc::{AllocError, Allocator};
use std::thread::Threads;

// How many bytes a line of one animal has at most beside its name.
const LINE_ROOM: usize = 56;

// How many bytes a line of an overlap, or the last line, has at most.
const OVERLAP_ROOM: usize = 96;

// How many rows animals have, taken together, whose lines several threads make before the animals are let go. The last
// of them may have more.
const ROUND_ROWS: usize = 1 << 17;

// How many bytes two texts have at most of which one is made.
const JOINED_BYTES: usize = 1 << 17;

// The first line of a report, which one in metres does not have.
fn head_of(unit: Scale) -> &'static [u8]
    ensures { result.now ≡ unit_line unit }
{
    match unit {
        Scale::Metre => b"",
        Scale::Decimetre => b"unit,dm\n",
    }
}

// How many lines a part has.
fn line_count(part: &Part<'_>) -> usize {
    let animal = part.animal;
    match part.lines {
        Lines::Head => 2,
        Lines::Rows => some_of(animal.rows.as_slice(), part.from).len(),
        Lines::Corners => some_of(animal.polygon.corners(), part.from).len(),
        Lines::Percents => animal.percents.as_slice().len(),
    }
}

// How many bytes the lines of a part have, or some more.
fn room_of(part: &Part<'_>) -> usize {
    let name = part.animal.name.as_slice().len();
    line_count(part).saturating_mul(name.saturating_add(LINE_ROOM))
}

// How many parts a thread takes at least: all of them, where they have no more lines than one part may have.
fn least_parts(parts: &[Part<'_>]) -> usize {
    let mut lines: usize = 0;
    for part in parts {
        lines = lines.saturating_add(line_count(part));
    }
    if lines > PART_LINES { 1 } else { parts.len() }
}

// The rows or corners of a part that begins at this index.
fn some_of<T>(members: &[T], from: usize) -> &[T]
    ensures members { result.now ≡ take part_lines (drop from members.now) }
    ensures count { from + length result.now < 2 ^ 64 }
{
    let rest = &members[from.min(members.len())..];
    &rest[..PART_LINES.min(rest.len())]
}

// The lines of a part.
fn part_text<A: Allocator + Copy>(alloc: A, part: &Part<'_>) -> Result<Vec<u8, A>, AllocError>
    ensures { IfOk result (λ text. text.items ≡ text_of part.now) }
{
    let mut text = Vec::with_capacity(alloc, room_of(part))?;
    let Part {
        animal,
        lines,
        from,
    } = *part;
    let name = animal.name.as_slice();
    let rows = animal.rows.as_slice();
    match lines {
        Lines::Head => {
            push_head(&mut text, name, rows.len())?;
            push_box(&mut text, name, animal.extent)?;
        }
        Lines::Rows => push_rows(&mut text, name, from, some_of(rows, from))?,
        Lines::Corners => {
            let corners = some_of(animal.polygon.corners(), from);
            push_corners(&mut text, name, from, corners)?;
        }
        Lines::Percents => push_percents(&mut text, name, animal.percents.as_slice())?,
    }
    Ok(text)
}

// The lines of each part. Several are written at once, where there are many lines.
fn part_texts<R: Threads + Sync, A: ThreadAllocator + Copy>(
    rt: &R,
    alloc: A,
    parts: &[Part<'_>],
) -> Result<Vec<Vec<u8, A>, A>, AllocError>
    ensures { IfOk result (λ texts. AllZip (λ part text. text.items
        ≡ text_of part) parts.now texts.items) }
{
    parts
        .par_iter()
        .with_min_len(least_parts(parts))
        .map(
            |part: &Part<'_>| -> Result<Vec<u8, A>, AllocError>
                ensures { IfOk result (λ text. text.items ≡ text_of part.now) }
            { part_text(alloc, part) },
        )
        .collect::<Result<Vec<Vec<u8, A>, A>, AllocError>>(rt, alloc)?
}

// The lines of animals, in parts that several threads write.
fn animal_texts<R: Threads + Sync, A: ThreadAllocator + Copy>(
    rt: &R,
    alloc: A,
    animals: &[Animal],
) -> Result<Vec<Vec<u8, A>, A>, AllocError>
    ensures { IfOk result (λ texts. flat_map (λ text. text.items) texts.items
        ≡ flat_map animal_text animals.now) }
{
    let parts = parts_of(alloc, animals)?;
    part_texts(rt, alloc, &parts)
}

// Appends a text: to the one before, where they are short.
fn push_text<A: Allocator>(
    texts: &mut Vec<Vec<u8, A>, A>,
    text: Vec<u8, A>,
) -> Result<(), AllocError>
    ensures { OnOk result (flat_map (λ text. text.items) texts.new.items
        ≡ flat_map (λ text. text.items) texts.old.items ++ text.items) }
{
    if let Some(mut last) = texts.pop() {
        if last.len().saturating_add(text.len()) <= JOINED_BYTES {
            last.extend_from_slice(&text)?;
            texts.push(last)?;
            return Ok(());
        }
        texts.push(last)?;
    }
    texts.push(text)?;
    Ok(())
}

// Appends the lines of animals that are taken at once.
fn push_round<R: Threads + Sync, A: ThreadAllocator + Copy>(
    rt: &R,
    alloc: A,
    texts: &mut Vec<Vec<u8, A>, A>,
    animals: &[Animal],
) -> Result<(), AllocError>
    ensures { OnOk result (flat_map (λ text. text.items) texts.new.items
        ≡ flat_map (λ text. text.items) texts.old.items ++ flat_map animal_text animals.now) }
{
    for text in animal_texts(rt, alloc, animals)? {
        push_text(texts, text)?;
    }
    Ok(())
}

// Appends the lines of animals. Some at a time are let go, once their lines are there.
fn push_animals<R: Threads + Sync, A: ThreadAllocator + Copy>(
    rt: &R,
    alloc: A,
    texts: &mut Vec<Vec<u8, A>, A>,
    animals: Vec<Animal>,
) -> Result<(), AllocError>
    ensures { OnOk result (flat_map (λ text. text.items) texts.new.items
        ≡ flat_map (λ text. text.items) texts.old.items ++ flat_map animal_text animals.items) }
{
    let mut round = Vec::new(alloc);
    let mut rows: usize = 0;
    for animal in animals {
        rows = rows.saturating_add(animal.rows.as_slice().len());
        round.push(animal)?;
        if rows >= ROUND_ROWS {
            push_round(rt, alloc, texts, &round)?;
            round.clear();
            rows = 0;
        }
    }
    push_round(rt, alloc, texts, &round)
}

// The lines of overlaps, and the last line.
fn tail_of<A: Allocator>(alloc: A, analysis: &Analysis) -> Result<Vec<u8, A>, AllocError>
    ensures { IfOk result (λ text. text.items ≡ tail_text analysis.now) }
{
    let animals = analysis.animals.as_slice();
    let overlaps = analysis.overlaps.as_slice();
    let room = overlaps
        .len()
        .saturating_add(1)
        .saturating_mul(OVERLAP_ROOM);
    let mut text = Vec::with_capacity(alloc, room)?;
    push_overlaps(&mut text, animals, overlaps)?;
    push_end(&mut text, animals.len())?;
    Ok(text)
}

// Appends the texts, one after the other. Each is let go as soon as it is there.
fn push_texts<A: Allocator>(
    text: &mut Vec<u8, A>,
    texts: Vec<Vec<u8, A>, A>,
) -> Result<(), AllocError>
    ensures { OnOk result (text.new.items ≡ text.old.items
        ++ flat_map (λ part. part.items) texts.items) }
{
    for part in texts {
        text.extend_from_slice(&part)?;
    }
    Ok(())
}

/// The report of an analysis in parts: one after the other, they are what [`report`] gives. A short report is one part.
/// Several threads make them. Animals are let go once their lines are there, some at a time, so that memory never
/// holds all rows of many beside all text.
///
/// # Errors
///
/// `OutOfMemory`, where an allocation failed.
#[tactic(auto, unfolding(crate::specs::Report::report_text))]
pub fn report_parts<R: Threads + Sync, A: ThreadAllocator + Copy>(
    rt: &R,
    alloc: A,
    analysis: Analysis,
) -> Result<Vec<Vec<u8, A>, A>, OutOfMemory>
    ensures { IfOk result (λ parts. flat_map (λ part. part.items) parts.items
        ≡ report_text analysis) }
{
    let head = Vec::from_slice(alloc, head_of(analysis.unit))?;
    let tail = tail_of(alloc, &analysis)?;
    let Analysis { animals, .. } = analysis;
    let mut texts = Vec::new(alloc);
    texts.push(head)?;
    push_animals(rt, alloc, &mut texts, animals.into_vec())?;
    push_text(&mut texts, tail)?;
    Ok(texts)
}

/// The report of an analysis, in ASCII but for the animals' names. Each line ends with a line feed; numbers
/// are decimal, coordinates in the unit of the analysis and doubled areas in its squares.
///
/// - First, where the unit is the decimetre, `unit,dm`.
/// - For each animal, in the order of the files: `animal,NAME,fixes,N`, and `box,NAME,minE,minN,maxE,maxN`;
///   for each n from 1 to N `row,NAME,n,second,corners,area2`, the row of the first n fixes; for each i from
///   1 `corner,NAME,i,easting,northing`, the corners of the polygon of all fixes; and for each level, in the
///   order they were given, `percent,NAME,level,kept,corners,area2`.
/// - Then, for each ordered pair of different animals, `overlap,A,B,count,fixes`: how many of A's fixes lie
///   in B's polygon, and how many fixes A has.
/// - Last `end,ANIMALS`, the number of animals.
#[tactic(auto, unfolding(crate::specs::Report::report_text))]
pub fn report<R: Threads + Sync, A: ThreadAllocator + Copy>(
    rt: &R,
    alloc: A,
    analysis: &Analysis,
) -> Result<Vec<u8, A>, OutOfMemory>
    ensures { IfOk result (λ text. text.items ≡ report_text analysis.now) }
{
    let mut text = Vec::from_slice(alloc, head_of(analysis.unit))?;
    push_texts(
        &mut text,
        animal_texts(rt, alloc, analysis.animals.as_slice())?,
    )?;
    text.extend_from_slice(&tail_of(alloc, analysis)?)?;
    Ok(text)
}
