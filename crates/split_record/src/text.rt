// The text of a record of tracks.

ghost use Rattle.std.specs.Prelude.{◌≡◌, ◌++◌, IfOk, OnOk, map};
ghost use Rattle.split_record.specs.Lines.{head_lines, left_line, lines_of_exports, option_line, record_text, said_line, text_of_all, track_line};

use crate::lines::{
    push_export_lines, push_left, push_option, push_said, push_shift, push_tool, push_track,
    push_unit, push_zone,
};
use crate::record::{ExportRead, Left, OptionGiven, Record, TrackMade};
use range_plane::OutOfMemory;
use std::alloc::{AllocError, Allocator};

// Appends the lines of all exports.
fn push_exports<A: Allocator>(
    text: &mut Vec<u8, A>,
    exports: &[ExportRead<'_>],
) -> Result<(), AllocError>
    ensures { OnOk result (text.new.items ≡ text.old.items ++ text_of_all (lines_of_exports exports.now)) }
{
    for export in exports {
        push_export_lines(text, export)?;
    }
    Ok(())
}

// Appends the lines before those of options: what the tracks were made of, the unit, the zone and the shift.
fn push_head<A: Allocator + Copy>(
    alloc: A,
    text: &mut Vec<u8, A>,
    record: &Record<'_>,
) -> Result<(), OutOfMemory>
    ensures { OnOk result (text.new.items ≡ text.old.items ++ text_of_all (head_lines «record».now)) }
{
    push_exports(text, record.exports)?;
    push_unit(text, record.unit)?;
    push_zone(alloc, text, record.zone)?;
    push_shift(text, record)?;
    Ok(())
}

// Appends a line for each option.
fn push_options<A: Allocator + Copy>(
    alloc: A,
    text: &mut Vec<u8, A>,
    options: &[OptionGiven<'_>],
) -> Result<(), OutOfMemory>
    ensures { OnOk result (text.new.items
        ≡ text.old.items ++ text_of_all (map option_line options.now)) }
{
    for given in options {
        push_option(alloc, text, given)?;
    }
    Ok(())
}

// Appends the lines said.
fn push_all_said<A: Allocator>(text: &mut Vec<u8, A>, said: &[&[u8]]) -> Result<(), AllocError>
    ensures { OnOk result (text.new.items
        ≡ text.old.items ++ text_of_all (map (λ line. said_line line.now) said.now)) }
{
    for line in said {
        push_said(text, line)?;
    }
    Ok(())
}

// Appends a line for all that was left out of an animal for one reason.
fn push_all_left<A: Allocator>(text: &mut Vec<u8, A>, left: &[Left<'_>]) -> Result<(), AllocError>
    ensures { OnOk result (text.new.items
        ≡ text.old.items ++ text_of_all (map left_line left.now)) }
{
    for one in left {
        push_left(text, one)?;
    }
    Ok(())
}

// Appends a line for each track.
fn push_tracks<A: Allocator>(
    text: &mut Vec<u8, A>,
    tracks: &[TrackMade<'_>],
) -> Result<(), AllocError>
    ensures { OnOk result (text.new.items
        ≡ text.old.items ++ text_of_all (map track_line tracks.now)) }
{
    for track in tracks {
        push_track(text, track)?;
    }
    Ok(())
}

/// The text of a record of tracks. Each of its lines stands in the order in which it is given; control characters and
/// separators of lines are escaped in all of it, as `\x1b` and `\u2028`, and a backslash in values of options, as `\\`.
///
/// # Errors
///
/// Memory ran out.
pub fn record_text<A: Allocator + Copy>(
    alloc: A,
    record: &Record<'_>,
) -> Result<Vec<u8, A>, OutOfMemory>
    ensures { IfOk result (λ text. text.items ≡ record_text «record».now) }
{
    let mut text = Vec::new(alloc);
    push_head(alloc, &mut text, record)?;
    push_options(alloc, &mut text, record.options)?;
    push_all_said(&mut text, record.said)?;
    push_all_left(&mut text, record.left)?;
    push_tracks(&mut text, record.tracks)?;
    push_tool(&mut text, record.tool)?;
    Ok(text)
}
