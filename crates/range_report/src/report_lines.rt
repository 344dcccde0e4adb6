// The lines of a report.

ghost use Rattle.std.specs.Prelude.{◌≡◌, ◌+◌, ◌-◌, ◌++◌, ◌<◌, ◌^◌, All, IfOk, IfSome, OnOk, codes, decimal, length, map};
ghost use Rattle.std.specs.List.{flat_map};
ghost use Rattle.range_analysis.specs.Names.{name_at};
ghost use Rattle.range_report.specs.Report.{animal_line, box_line, corner_line, end_line, field, lines_from, overlap_line, percent_line, point_text, row_head, row_line, row_tail};

use itoa::{Buffer, Integer};
use range_analysis::{Animal, OverlapRow};
use range_estimator::Row;
use range_lanes::Extent;
use range_plane::Point;
use range_stats::PercentRow;
use std::alloc::{AllocError, Allocator};

// Appends a number.
fn push_number<A: Allocator, I: Integer>(text: &mut Vec<u8, A>, n: I) -> Result<(), AllocError>
    ensures { OnOk result (text.new.items ≡ text.old.items ++ I.text n) }
{
    let mut buffer = Buffer::new();
    text.extend_from_slice(buffer.format(n).as_bytes())
}

// Appends a number behind a comma.
fn push_field<A: Allocator, I: Integer>(text: &mut Vec<u8, A>, n: I) -> Result<(), AllocError>
    ensures { OnOk result (text.new.items ≡ text.old.items ++ (codes "," ++ I.text n)) }
{
    text.extend_from_slice(b",")?;
    push_number(text, n)
}

// Appends a doubled area behind a comma: most fit in 64 bits, whose digits are made in fewer steps.
fn push_area<A: Allocator>(text: &mut Vec<u8, A>, area2: u128) -> Result<(), AllocError>
    ensures { OnOk result (text.new.items ≡ text.old.items ++ field area2) }
{
    match u64::try_from(area2) {
        Ok(area2) => push_field(text, area2),
        Err(_) => push_field(text, area2),
    }
}

// Appends the line of an animal and the number of its fixes.
pub(crate) fn push_head<A: Allocator>(
    text: &mut Vec<u8, A>,
    name: &[u8],
    fixes: usize,
) -> Result<(), AllocError>
    ensures { OnOk result (text.new.items ≡ text.old.items ++ animal_line name.now fixes) }
{
    text.extend_from_slice(b"animal,")?;
    text.extend_from_slice(name)?;
    text.extend_from_slice(b",fixes,")?;
    push_number(text, fixes)?;
    text.extend_from_slice(b"\n")
}

// Appends an easting and a northing, each behind a comma.
#[tactic(auto, unfolding(crate::specs::Report::point_text))]
fn push_point<A: Allocator>(
    text: &mut Vec<u8, A>,
    easting: i64,
    northing: i64,
) -> Result<(), AllocError>
    ensures { OnOk result (text.new.items ≡ text.old.items ++ point_text easting northing) }
{
    push_field(text, easting)?;
    push_field(text, northing)
}

// Appends the line of a box.
pub(crate) fn push_box<A: Allocator>(
    text: &mut Vec<u8, A>,
    name: &[u8],
    extent: Extent,
) -> Result<(), AllocError>
    ensures { OnOk result (text.new.items ≡ text.old.items ++ box_line name.now extent) }
{
    text.extend_from_slice(b"box,")?;
    text.extend_from_slice(name)?;
    push_point(text, extent.min_e, extent.min_n)?;
    push_point(text, extent.max_e, extent.max_n)?;
    text.extend_from_slice(b"\n")?;
    Ok(())
}

// What the line of each row of an animal begins with.
fn row_head<A: Allocator>(alloc: A, name: &[u8]) -> Result<Vec<u8, A>, AllocError>
    ensures { IfOk result (λ head. head.items ≡ row_head name.now) }
{
    let mut head = Vec::new(alloc);
    head.extend_from_slice(b"row,")?;
    head.extend_from_slice(name)?;
    head.extend_from_slice(b",")?;
    Ok(head)
}

// Makes the end of a row's line, unless it is that of the row before: most fixes change no polygon.
fn set_tail<A: Allocator>(
    tail: &mut Vec<u8, A>,
    before: Option<Row>,
    row: Row,
) -> Result<(), AllocError>
    requires { IfSome before (λ other. tail.old.items ≡ row_tail other) }
    ensures { OnOk result (tail.new.items ≡ row_tail row) }
{
    if let Some(other) = before
        && other.corners == row.corners
        && other.area2 == row.area2
    {
        return Ok(());
    }
    tail.clear();
    push_field(tail, row.corners)?;
    push_area(tail, row.area2)?;
    tail.extend_from_slice(b"\n")
}

// Appends the number of a row, and the comma behind it.
fn push_row_number<A: Allocator>(start: &mut Vec<u8, A>, n: usize) -> Result<(), AllocError>
    ensures { OnOk result (start.new.items ≡ start.old.items ++ decimal n ++ codes ",") }
{
    push_number(start, n)?;
    start.extend_from_slice(b",")
}

// Makes what a row's line begins with, up to the comma behind its number, from that of the row before: most
// often the last digit alone changes.
fn set_row_number<A: Allocator>(
    start: &mut Vec<u8, A>,
    head: &[u8],
    n: usize,
) -> Result<(), AllocError>
    requires { start.old.items ≡ head.now ++ decimal (n - 1) ++ codes "," }
    ensures { OnOk result (start.new.items ≡ head.now ++ decimal n ++ codes ",") }
{
    if n % 10 != 0 {
        let last = start.len() - 2;
        start[last] = b'0' + (n % 10) as u8;
        return Ok(());
    }
    start.truncate(head.len());
    push_row_number(start, n)
}

// Appends the line of a row of this second, which begins and ends so.
fn push_row<A: Allocator>(
    text: &mut Vec<u8, A>,
    start: &[u8],
    second: u64,
    tail: &[u8],
) -> Result<(), AllocError>
    ensures { OnOk result (text.new.items
        ≡ text.old.items ++ start.now ++ decimal second ++ tail.now) }
{
    text.extend_from_slice(start)?;
    push_number(text, second)?;
    text.extend_from_slice(tail)
}

// Appends the lines of rows, of which the first stands at this index, counted from 0.
pub(crate) fn push_rows<A: Allocator + Copy>(
    text: &mut Vec<u8, A>,
    name: &[u8],
    from: usize,
    rows: &[Row],
) -> Result<(), AllocError>
    requires { from + length rows.now < 2 ^ 64 }
    ensures { OnOk result (text.new.items ≡ text.old.items
        ++ lines_from (row_line name.now) (from + 1) rows.now) }
{
    let alloc = *text.allocator();
    let head = row_head(alloc, name)?;
    // What the line of a row before the first would begin with.
    let mut start = Vec::from_slice(alloc, &head)?;
    push_row_number(&mut start, from)?;
    let mut tail = Vec::new(alloc);
    let mut before = None;
    for (i, row) in rows.iter().enumerate() {
        set_row_number(&mut start, &head, from + i + 1)?;
        set_tail(&mut tail, before, *row)?;
        push_row(text, &start, row.second, &tail)?;
        before = Some(*row);
    }
    Ok(())
}

// Appends the line of a corner.
fn push_corner<A: Allocator>(
    text: &mut Vec<u8, A>,
    name: &[u8],
    number: usize,
    corner: Point,
) -> Result<(), AllocError>
    ensures { OnOk result (text.new.items ≡ text.old.items ++ corner_line name.now number corner) }
{
    text.extend_from_slice(b"corner,")?;
    text.extend_from_slice(name)?;
    push_field(text, number)?;
    push_point(text, corner.e, corner.n)?;
    text.extend_from_slice(b"\n")?;
    Ok(())
}

// Appends the lines of corners, of which the first stands at this index, counted from 0.
pub(crate) fn push_corners<A: Allocator>(
    text: &mut Vec<u8, A>,
    name: &[u8],
    from: usize,
    corners: &[Point],
) -> Result<(), AllocError>
    requires { from + length corners.now < 2 ^ 64 }
    ensures { OnOk result (text.new.items ≡ text.old.items
        ++ lines_from (corner_line name.now) (from + 1) corners.now) }
{
    for (i, corner) in corners.iter().enumerate() {
        push_corner(text, name, from + i + 1, *corner)?;
    }
    Ok(())
}

// Appends the line of a percent polygon.
fn push_percent<A: Allocator>(
    text: &mut Vec<u8, A>,
    name: &[u8],
    row: PercentRow,
) -> Result<(), AllocError>
    ensures { OnOk result (text.new.items ≡ text.old.items ++ percent_line name.now row) }
{
    text.extend_from_slice(b"percent,")?;
    text.extend_from_slice(name)?;
    push_field(text, row.level)?;
    push_field(text, row.kept)?;
    push_field(text, row.corners)?;
    push_area(text, row.area2)?;
    text.extend_from_slice(b"\n")?;
    Ok(())
}

// Appends the lines of percent polygons.
pub(crate) fn push_percents<A: Allocator>(
    text: &mut Vec<u8, A>,
    name: &[u8],
    rows: &[PercentRow],
) -> Result<(), AllocError>
    ensures { OnOk result (text.new.items ≡ text.old.items
        ++ flat_map (percent_line name.now) rows.now) }
{
    for row in rows {
        push_percent(text, name, *row)?;
    }
    Ok(())
}

// Appends the name of the animal at an index.
fn push_name<A: Allocator>(
    text: &mut Vec<u8, A>,
    animals: &[Animal],
    index: u32,
) -> Result<(), AllocError>
    requires { index < length animals.now }
    ensures { OnOk result (text.new.items ≡ text.old.items
        ++ name_at (map (λ a. a.name) animals.now) index) }
{
    text.extend_from_slice(animals[index as usize].name.as_slice())
}

// Appends the line of an overlap.
fn push_overlap<A: Allocator>(
    text: &mut Vec<u8, A>,
    animals: &[Animal],
    row: OverlapRow,
) -> Result<(), AllocError>
    requires { (row.animal < length animals.now) × (row.range < length animals.now) }
    ensures { OnOk result (text.new.items ≡ text.old.items
        ++ overlap_line (map (λ a. a.name) animals.now) row) }
{
    text.extend_from_slice(b"overlap,")?;
    push_name(text, animals, row.animal)?;
    text.extend_from_slice(b",")?;
    push_name(text, animals, row.range)?;
    push_field(text, row.count)?;
    push_field(text, row.fixes)?;
    text.extend_from_slice(b"\n")?;
    Ok(())
}

// Appends the lines of overlaps.
pub(crate) fn push_overlaps<A: Allocator>(
    text: &mut Vec<u8, A>,
    animals: &[Animal],
    rows: &[OverlapRow],
) -> Result<(), AllocError>
    requires { All (λ row. (row.animal < length animals.now)
        × (row.range < length animals.now)) rows.now }
    ensures { OnOk result (text.new.items ≡ text.old.items
        ++ flat_map (overlap_line (map (λ a. a.name) animals.now)) rows.now) }
{
    for row in rows {
        push_overlap(text, animals, *row)?;
    }
    Ok(())
}

// Appends the last line.
pub(crate) fn push_end<A: Allocator>(
    text: &mut Vec<u8, A>,
    animals: usize,
) -> Result<(), AllocError>
    ensures { OnOk result (text.new.items ≡ text.old.items ++ end_line animals) }
{
    text.extend_from_slice(b"end,")?;
    push_number(text, animals)?;
    text.extend_from_slice(b"\n")
}
