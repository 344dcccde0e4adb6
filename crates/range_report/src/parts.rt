// The parts of a report, which several threads write.

ghost use Rattle.std.specs.Prelude.{◌≡◌, ◌++◌, ◌*◌, IfOk, OnOk};
ghost use Rattle.std.specs.List.{flat_map, range_with_len};
ghost use Rattle.range_report.specs.Parts.{part_count, part_text, text_of};
ghost use Rattle.range_report.specs.Report.{animal_text};

use range_analysis::Animal;
use std::alloc::{AllocError, Allocator};

/// How many rows or corners a part has at most.
pub(crate) const PART_LINES: usize = 8192;

// Which lines of an animal a part has.
#[derive(Clone, Copy)]
pub(crate) enum Lines {
    // Its number of fixes, and its box.
    Head,
    // Rows.
    Rows,
    // Corners.
    Corners,
    // Its percent polygons.
    Percents,
}

// Lines that one thread writes.
#[derive(Clone, Copy)]
pub(crate) struct Part<'a> {
    pub(crate) animal: &'a Animal,
    pub(crate) lines: Lines,
    // The index of the first of its rows or corners.
    pub(crate) from: usize,
}

// Appends parts for `count` rows or corners.
fn push_numbered<'a, A: Allocator>(
    parts: &mut Vec<Part<'a>, A>,
    animal: &'a Animal,
    lines: Lines,
    count: usize,
) -> Result<(), AllocError>
    ensures { OnOk result (flat_map text_of parts.new.items ≡ flat_map text_of parts.old.items
        ++ flat_map
        (λ i. part_text lines (i * PART_LINES) animal.now) (range_with_len 0 (part_count count))) }
{
    for i in 0..count.div_ceil(PART_LINES) {
        let from = i * PART_LINES;
        parts.push(Part {
            animal,
            lines,
            from,
        })?;
    }
    Ok(())
}

// Appends the parts of an animal, in the order of its lines.
fn push_parts<'a, A: Allocator>(
    parts: &mut Vec<Part<'a>, A>,
    animal: &'a Animal,
) -> Result<(), AllocError>
    ensures { OnOk result (flat_map text_of parts.new.items ≡ flat_map text_of parts.old.items
        ++ animal_text animal.now) }
{
    let head = Part {
        animal,
        lines: Lines::Head,
        from: 0,
    };
    parts.push(head)?;
    push_numbered(parts, animal, Lines::Rows, animal.rows.as_slice().len())?;
    let corners = animal.polygon.corners().len();
    push_numbered(parts, animal, Lines::Corners, corners)?;
    parts.push(Part {
        lines: Lines::Percents,
        ..head
    })?;
    Ok(())
}

// The parts of animals, one after the other.
pub(crate) fn parts_of<A: Allocator>(
    alloc: A,
    animals: &[Animal],
) -> Result<Vec<Part<'_>, A>, AllocError>
    ensures { IfOk result (λ parts. flat_map text_of parts.items
        ≡ flat_map animal_text animals.now) }
{
    let mut parts = Vec::new(alloc);
    for animal in animals {
        push_parts(&mut parts, animal)?;
    }
    Ok(parts)
}
