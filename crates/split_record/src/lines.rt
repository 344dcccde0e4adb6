// The lines of a record of tracks.

ghost use Rattle.std.specs.Prelude.{◌≡◌, ◌++◌, IfOk, OnOk, option_map};
ghost use Rattle.std.specs.List.{flat_map};
ghost use Rattle.split_record.specs.Lines.{export_line, export_lines, field_text, hemisphere, left_line, option_line, said_line, shift_line, shift_lines, sum_line, text_of_all, text_of_line, tool_line, track_line, unit_line, unit_word, value_fields, zone_line, zone_word};

use crate::one_line::{doubled, push_one_line};
use crate::reasons::reason_words;
use crate::record::{ExportRead, Left, OptionGiven, Record, TrackMade};
use itoa::{Buffer, Integer};
use range_plane::{OutOfMemory, Scale};
use split_reading::Zone;
use std::alloc::{AllocError, Allocator};

// Appends a field behind a comma.
pub(crate) fn push_field<A: Allocator>(
    text: &mut Vec<u8, A>,
    field: &[u8],
) -> Result<(), AllocError>
    ensures { OnOk result (text.new.items ≡ text.old.items ++ field_text field.now) }
{
    text.extend_from_slice(b",")?;
    push_one_line(text, field)
}

// Appends a number behind a comma.
pub(crate) fn push_number<A: Allocator, I: Integer>(
    text: &mut Vec<u8, A>,
    n: I,
) -> Result<(), AllocError>
    ensures { OnOk result (text.new.items ≡ text.old.items ++ field_text (I.text n)) }
{
    let mut buffer = Buffer::new();
    push_field(text, buffer.format(n).as_bytes())
}

// Appends the line of an export.
fn push_export<A: Allocator>(text: &mut Vec<u8, A>, export: &[u8]) -> Result<(), AllocError>
    ensures { OnOk result (text.new.items ≡ text.old.items ++ text_of_line (export_line export.now)) }
{
    push_one_line(text, b"export")?;
    push_field(text, export)?;
    text.extend_from_slice(b"\n")
}

// Appends the line of an export's checksum.
fn push_sum<A: Allocator>(text: &mut Vec<u8, A>, sum: &[u8]) -> Result<(), AllocError>
    ensures { OnOk result (text.new.items ≡ text.old.items ++ text_of_line (sum_line sum.now)) }
{
    push_one_line(text, b"sha256")?;
    push_field(text, sum)?;
    text.extend_from_slice(b"\n")
}

// Appends the lines of an export.
pub(crate) fn push_export_lines<A: Allocator>(
    text: &mut Vec<u8, A>,
    export: &ExportRead<'_>,
) -> Result<(), AllocError>
    ensures { OnOk result (text.new.items ≡ text.old.items ++ text_of_all (export_lines export.now)) }
{
    push_export(text, export.name)?;
    push_sum(text, &export.sum)
}

// What a unit is called.
fn unit_word(unit: Scale) -> &'static [u8]
    ensures { result.now ≡ unit_word unit }
{
    match unit {
        Scale::Metre => b"m",
        Scale::Decimetre => b"dm",
    }
}

// Appends the line of the unit.
pub(crate) fn push_unit<A: Allocator>(text: &mut Vec<u8, A>, unit: Scale) -> Result<(), AllocError>
    ensures { OnOk result (text.new.items ≡ text.old.items ++ text_of_line (unit_line unit)) }
{
    push_one_line(text, b"unit")?;
    push_field(text, unit_word(unit))?;
    text.extend_from_slice(b"\n")
}

// The hemisphere of a zone.
fn hemisphere(is_south: bool) -> &'static [u8]
    ensures { result.now ≡ hemisphere is_south }
{
    if is_south { b"S" } else { b"N" }
}

// What a zone is called, where it is known.
fn zone_word<A: Allocator>(alloc: A, zone: Option<Zone>) -> Result<Vec<u8, A>, OutOfMemory>
    ensures { IfOk result (λ word. word.items ≡ zone_word zone) }
{
    let mut word = Vec::new(alloc);
    let Some(zone) = zone else {
        word.extend_from_slice(b"none")?;
        return Ok(word);
    };
    let mut number = Buffer::new();
    word.extend_from_slice(number.format(zone.number).as_bytes())?;
    word.extend_from_slice(hemisphere(zone.is_south))?;
    Ok(word)
}

// Appends the line of the zone.
pub(crate) fn push_zone<A: Allocator + Copy>(
    alloc: A,
    text: &mut Vec<u8, A>,
    zone: Option<Zone>,
) -> Result<(), OutOfMemory>
    ensures { OnOk result (text.new.items ≡ text.old.items ++ text_of_line (zone_line zone)) }
{
    let word = zone_word(alloc, zone)?;
    push_one_line(text, b"zone")?;
    push_field(text, &word)?;
    text.extend_from_slice(b"\n")?;
    Ok(())
}

// Appends the line of a shift.
fn push_shift_line<A: Allocator>(
    text: &mut Vec<u8, A>,
    east: i64,
    north: i64,
) -> Result<(), AllocError>
    ensures { OnOk result (text.new.items ≡ text.old.items ++ text_of_line (shift_line east north)) }
{
    push_one_line(text, b"shift")?;
    push_number(text, east)?;
    push_number(text, north)?;
    text.extend_from_slice(b"\n")?;
    Ok(())
}

// Appends the line of the shift, where there was one.
pub(crate) fn push_shift<A: Allocator>(
    text: &mut Vec<u8, A>,
    record: &Record<'_>,
) -> Result<(), AllocError>
    ensures { OnOk result (text.new.items
        ≡ text.old.items ++ text_of_all (shift_lines «record».now.shift.0 «record».now.shift.1)) }
{
    let (east, north) = record.shift;
    if east != 0 || north != 0 {
        push_shift_line(text, east, north)?;
    }
    Ok(())
}

// Appends what an option has behind its name.
fn push_value<A: Allocator + Copy>(
    alloc: A,
    text: &mut Vec<u8, A>,
    value: Option<&[u8]>,
) -> Result<(), OutOfMemory>
    ensures { OnOk result (text.new.items ≡ text.old.items ++ flat_map field_text (value_fields (option_map (λ own. own.now) value.entry))) }
{
    if let Some(own) = value {
        push_field(text, &doubled(alloc, own)?)?;
    }
    Ok(())
}

// Appends the line of an option.
pub(crate) fn push_option<A: Allocator + Copy>(
    alloc: A,
    text: &mut Vec<u8, A>,
    given: &OptionGiven<'_>,
) -> Result<(), OutOfMemory>
    ensures { OnOk result (text.new.items ≡ text.old.items ++ text_of_line (option_line given.now)) }
{
    push_one_line(text, b"option")?;
    push_field(text, given.name)?;
    push_value(alloc, text, given.value)?;
    text.extend_from_slice(b"\n")?;
    Ok(())
}

// Appends a line said.
pub(crate) fn push_said<A: Allocator>(text: &mut Vec<u8, A>, said: &[u8]) -> Result<(), AllocError>
    ensures { OnOk result (text.new.items ≡ text.old.items ++ text_of_line (said_line said.now)) }
{
    push_one_line(text, b"said")?;
    push_field(text, said)?;
    text.extend_from_slice(b"\n")
}

// Appends the line of what was left out of an animal for a reason.
pub(crate) fn push_left<A: Allocator>(
    text: &mut Vec<u8, A>,
    left: &Left<'_>,
) -> Result<(), AllocError>
    ensures { OnOk result (text.new.items ≡ text.old.items ++ text_of_line (left_line left.now)) }
{
    push_one_line(text, b"left")?;
    push_field(text, left.name)?;
    push_number(text, left.count)?;
    push_field(text, reason_words(left.reason))?;
    text.extend_from_slice(b"\n")
}

// Appends the line of a track.
pub(crate) fn push_track<A: Allocator>(
    text: &mut Vec<u8, A>,
    track: &TrackMade<'_>,
) -> Result<(), AllocError>
    ensures { OnOk result (text.new.items ≡ text.old.items ++ text_of_line (track_line track.now)) }
{
    push_one_line(text, b"track")?;
    push_field(text, track.name)?;
    push_number(text, track.records)?;
    push_number(text, track.used)?;
    push_field(text, &track.sum)?;
    text.extend_from_slice(b"\n")
}

// Appends the line of what made the tracks.
pub(crate) fn push_tool<A: Allocator>(text: &mut Vec<u8, A>, tool: &[u8]) -> Result<(), AllocError>
    ensures { OnOk result (text.new.items ≡ text.old.items ++ text_of_line (tool_line tool.now)) }
{
    push_one_line(text, b"tool")?;
    push_field(text, tool)?;
    text.extend_from_slice(b"\n")
}
