// The text of a track.

ghost use Rattle.std.specs.Prelude.{◌≡◌, ◌++◌, IfOk, OnOk, codes};
ghost use Rattle.split_files.specs.TrackText.{behind_comma, line_text, mark_of, place_text, text_of, title_line};

use itoa::{Buffer, Integer};
use range_plane::{Fix, OutOfMemory};
use std::alloc::{AllocError, Allocator};

/// A fix of a track, and whether it is used.
#[derive(Clone, Copy, PartialEq, Eq, Debug)]
pub struct MarkedFix {
    pub fix: Fix,
    pub is_used: bool,
}

// The first line, with a column of marks or without.
fn title_line(has_marks: bool) -> &'static [u8]
    ensures { result.now ≡ title_line has_marks }
{
    if has_marks {
        b"animal,second,easting,northing,use\n"
    } else {
        b"animal,second,easting,northing\n"
    }
}

// What a line says of whether its fix is used, where the track has marks.
fn mark_of(has_marks: bool, is_used: bool) -> &'static [u8]
    ensures { result.now ≡ mark_of has_marks is_used }
{
    match (has_marks, is_used) {
        (false, _) => b"",
        (true, true) => b",1",
        (true, false) => b",0",
    }
}

// Appends a number behind a comma.
fn push_number<A: Allocator, I: Integer>(text: &mut Vec<u8, A>, n: I) -> Result<(), AllocError>
    ensures { OnOk result (text.new.items ≡ text.old.items ++ behind_comma (I.text n)) }
{
    text.extend_from_slice(b",")?;
    let mut buffer = Buffer::new();
    text.extend_from_slice(buffer.format(n).as_bytes())
}

// Appends an easting and a northing, each behind a comma.
#[tactic(auto, unfolding(crate::specs::TrackText::place_text))]
fn push_place<A: Allocator>(
    text: &mut Vec<u8, A>,
    easting: i64,
    northing: i64,
) -> Result<(), AllocError>
    ensures { OnOk result (text.new.items ≡ text.old.items ++ place_text easting northing) }
{
    push_number(text, easting)?;
    push_number(text, northing)
}

// Appends the line of a fix.
fn push_line<A: Allocator>(
    text: &mut Vec<u8, A>,
    name: &[u8],
    second: u64,
    easting: i64,
    northing: i64,
    mark: &[u8],
) -> Result<(), AllocError>
    ensures { OnOk result (text.new.items
        ≡ text.old.items ++ line_text name.now second easting northing mark.now) }
{
    text.extend_from_slice(name)?;
    push_number(text, second)?;
    push_place(text, easting, northing)?;
    text.extend_from_slice(mark)?;
    text.extend_from_slice(b"\n")?;
    Ok(())
}

/// The text of the track of an animal of this name: a line of titles, and one for each fix, with its second, its
/// easting and its northing, and where the track has marks with 1 or 0 for whether it is used.
///
/// # Errors
///
/// Memory ran out.
#[tactic(auto, unfolding(crate::specs::TrackText::text_of))]
pub fn track_text<A: Allocator>(
    alloc: A,
    has_marks: bool,
    name: &[u8],
    fixes: &[MarkedFix],
) -> Result<Vec<u8, A>, OutOfMemory>
    ensures { IfOk result (λ text. text.items ≡ text_of has_marks name.now fixes.now) }
{
    let mut text = Vec::new(alloc);
    text.extend_from_slice(title_line(has_marks))?;
    for one in fixes {
        let mark = mark_of(has_marks, one.is_used);
        push_line(
            &mut text,
            name,
            one.fix.second,
            one.fix.at.e,
            one.fix.at.n,
            mark,
        )?;
    }
    Ok(text)
}
