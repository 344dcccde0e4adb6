// A record with what one more line says.

ghost use Rattle.std.specs.Prelude.{◌≡◌, ◌++◌, ◌∷◌, [], IfErr, IfOk, None, Ok, OnOk, Some, false, map, option_map};
ghost use Rattle.page_record.specs.Reading.{IsFaultOf, has_track, left_of, left_with, made_of, option_by, option_of, option_seen, put_line, read, shift_of, track_of, track_seen, track_with, unit_of};
ghost use Rattle.page_record.specs.Unescaped.{unescaped};

use crate::fault::{LineFault, Wrong};
use crate::fields::{counted, cut, is_file_name, reason_of, sum_of, whole_of};
use crate::kind::Kind;
use crate::record::{Given, LeftOut, Made, Record};
use crate::unescaped::unescaped;
use crate::zone::zone_of;
use indexmap::IndexMap;
use range_plane::Scale;
use split_tracks::Reason;
use std::alloc::Global;

// That this is wrong with a line.
pub(crate) fn is_wrong(wrong: Wrong) -> LineFault
    ensures { result ≡ LineFault.Wrong wrong }
{
    LineFault::Wrong { wrong }
}

// A text once more.
fn copy_of(alloc: Global, text: &[u8]) -> Result<Vec<u8>, LineFault>
    ensures copy { IfOk result (λ copy. copy.items ≡ text.now) }
    ensures fault { IfErr result (λ fault. fault ≡ LineFault.OutOfMemory) }
{
    match Vec::from_slice(alloc, text) {
        Ok(copy) => Ok(copy),
        Err(_no_memory) => Err(LineFault::OutOfMemory),
    }
}

// Puts one behind others.
fn push<T: Drop>(items: &mut Vec<T>, item: T) -> Result<(), LineFault>
    ensures items { OnOk result (items.new.items ≡ items.old.items ++ item ∷ []) }
    ensures fault { IfErr result (λ fault. fault ≡ LineFault.OutOfMemory) }
{
    match items.push(item) {
        Ok(()) => Ok(()),
        Err(_no_memory) => Err(LineFault::OutOfMemory),
    }
}

// The unit of coordinates.
#[tactic(auto, unfolding(crate::specs::Reading::unit_of))]
fn unit_of(text: &[u8]) -> Option<Scale>
    ensures { result ≡ unit_of text.now }
{
    if text == b"m".as_slice() {
        Some(Scale::Metre)
    } else if text == b"dm".as_slice() {
        Some(Scale::Decimetre)
    } else {
        None
    }
}

// By how much coordinates were shifted.
#[tactic(auto, unfolding(crate::specs::Reading::shift_of))]
fn shift_of(text: &[u8]) -> Option<(i64, i64)>
    ensures { result ≡ shift_of text.now }
{
    let (east, north) = cut(text, b',')?;
    Some((whole_of(east)?, whole_of(north)?))
}

// The value of an option.
fn value_of(alloc: Global, text: &[u8]) -> Result<Option<Vec<u8>>, LineFault>
    ensures value { IfOk result (λ value. option_map (λ own. own.items) value ≡ unescaped text.now) }
    ensures fault { IfErr result (λ fault. fault ≡ LineFault.OutOfMemory) }
{
    match unescaped(alloc, text) {
        Ok(value) => Ok(value),
        Err(_no_memory) => Err(LineFault::OutOfMemory),
    }
}

// An option of this name, and of what stands behind its comma.
fn option_with(alloc: Global, name: &[u8], text: &[u8]) -> Result<Option<Given>, LineFault>
    ensures given { IfOk result (λ given. option_map option_seen given ≡ option_by name.now (Some (name.now, text.now))) }
    ensures fault { IfErr result (λ fault. fault ≡ LineFault.OutOfMemory) }
{
    let Some(value) = value_of(alloc, text)? else {
        return Ok(None);
    };
    let name = copy_of(alloc, name)?;
    Ok(Some(Given {
        name,
        value: Some(value),
    }))
}

// An option of this name alone.
fn option_named(alloc: Global, name: &[u8]) -> Result<Option<Given>, LineFault>
    ensures given { IfOk result (λ given. option_map option_seen given ≡ option_by name.now None) }
    ensures fault { IfErr result (λ fault. fault ≡ LineFault.OutOfMemory) }
{
    let name = copy_of(alloc, name)?;
    Ok(Some(Given { name, value: None }))
}

// An option; none where its value has a backslash that begins no escape.
#[tactic(auto, unfolding(crate::specs::Reading::option_of))]
fn option_of(alloc: Global, text: &[u8]) -> Result<Option<Given>, LineFault>
    ensures given { IfOk result (λ given. option_map option_seen given ≡ option_of text.now) }
    ensures fault { IfErr result (λ fault. fault ≡ LineFault.OutOfMemory) }
{
    match cut(text, b',') {
        Some((name, value)) => option_with(alloc, name, value),
        None => option_named(alloc, text),
    }
}

// What was left out of an animal.
#[tactic(auto, unfolding(crate::specs::Reading::left_of))]
fn left_of(text: &[u8]) -> Option<(&[u8], u32, Reason)>
    ensures { option_map (λ own. left_with own.0.now own.1 own.2) result ≡ left_of text.now }
{
    let (name, text) = cut(text, b',')?;
    let (count, text) = counted(text)?;
    Some((name, count, reason_of(text)?))
}

// What is told of a track.
#[tactic(auto, unfolding(crate::specs::Reading::made_of))]
fn made_of(text: &[u8]) -> Option<Made>
    ensures { result ≡ made_of text.now }
{
    let (records, text) = counted(text)?;
    let (used, text) = counted(text)?;
    let sum = sum_of(text)?;
    if used <= records {
        Some(Made { records, used, sum })
    } else {
        None
    }
}

// The track of an animal.
#[tactic(auto, unfolding(crate::specs::Reading::track_of))]
fn track_of(text: &[u8]) -> Option<(&[u8], Made)>
    ensures { option_map (λ own. track_with own.0.now own.1) result ≡ track_of text.now }
{
    let (name, text) = cut(text, b',')?;
    Some((name, made_of(text)?))
}

// Puts the export into a record.
fn put_export(alloc: Global, so_far: &mut Record, text: &[u8]) -> Result<(), LineFault>
    ensures found { OnOk result (put_line Kind.Export text.now (read so_far.old) ≡ Ok (read so_far.new)) }
    ensures fault { IfErr result (IsFaultOf (put_line Kind.Export text.now (read so_far.old))) }
{
    if !is_file_name(text) {
        return Err(is_wrong(Wrong::Export));
    }
    so_far.export = Some(copy_of(alloc, text)?);
    Ok(())
}

// Puts the checksum of the export into a record.
fn put_sum(so_far: &mut Record, text: &[u8]) -> Result<(), LineFault>
    ensures found { OnOk result (put_line Kind.Sum text.now (read so_far.old) ≡ Ok (read so_far.new)) }
    ensures fault { IfErr result (IsFaultOf (put_line Kind.Sum text.now (read so_far.old))) }
{
    let Some(sum) = sum_of(text) else {
        return Err(is_wrong(Wrong::Sum));
    };
    so_far.sum = Some(sum);
    Ok(())
}

// Puts the unit into a record.
fn put_unit(so_far: &mut Record, text: &[u8]) -> Result<(), LineFault>
    ensures found { OnOk result (put_line Kind.Scale text.now (read so_far.old) ≡ Ok (read so_far.new)) }
    ensures fault { IfErr result (IsFaultOf (put_line Kind.Scale text.now (read so_far.old))) }
{
    let Some(unit) = unit_of(text) else {
        return Err(is_wrong(Wrong::Scale));
    };
    so_far.unit = unit;
    Ok(())
}

// Puts the zone into a record.
fn put_zone(so_far: &mut Record, text: &[u8]) -> Result<(), LineFault>
    ensures found { OnOk result (put_line Kind.Zone text.now (read so_far.old) ≡ Ok (read so_far.new)) }
    ensures fault { IfErr result (IsFaultOf (put_line Kind.Zone text.now (read so_far.old))) }
{
    let Some(zone) = zone_of(text) else {
        return Err(is_wrong(Wrong::Zone));
    };
    so_far.zone = zone;
    Ok(())
}

// Puts the shift into a record.
fn put_shift(so_far: &mut Record, text: &[u8]) -> Result<(), LineFault>
    ensures found { OnOk result (put_line Kind.Shift text.now (read so_far.old) ≡ Ok (read so_far.new)) }
    ensures fault { IfErr result (IsFaultOf (put_line Kind.Shift text.now (read so_far.old))) }
{
    let Some(shift) = shift_of(text) else {
        return Err(is_wrong(Wrong::Shift));
    };
    so_far.shift = shift;
    Ok(())
}

// Puts an option behind the others of a record.
fn put_option(alloc: Global, so_far: &mut Record, text: &[u8]) -> Result<(), LineFault>
    ensures found { OnOk result (put_line Kind.Given text.now (read so_far.old) ≡ Ok (read so_far.new)) }
    ensures fault { IfErr result (IsFaultOf (put_line Kind.Given text.now (read so_far.old))) }
{
    let Some(given) = option_of(alloc, text)? else {
        return Err(is_wrong(Wrong::Escape));
    };
    push(&mut so_far.options, given)
}

// Puts a line said behind the others of a record.
fn put_said(alloc: Global, so_far: &mut Record, text: &[u8]) -> Result<(), LineFault>
    ensures found { OnOk result (put_line Kind.Said text.now (read so_far.old) ≡ Ok (read so_far.new)) }
    ensures fault { IfErr result (IsFaultOf (put_line Kind.Said text.now (read so_far.old))) }
{
    let line = copy_of(alloc, text)?;
    push(&mut so_far.said, line)
}

// Puts what was left out of an animal behind the others of a record.
fn put_left(alloc: Global, so_far: &mut Record, text: &[u8]) -> Result<(), LineFault>
    ensures found { OnOk result (put_line Kind.Left text.now (read so_far.old) ≡ Ok (read so_far.new)) }
    ensures fault { IfErr result (IsFaultOf (put_line Kind.Left text.now (read so_far.old))) }
{
    let Some((name, count, reason)) = left_of(text) else {
        return Err(is_wrong(Wrong::Left));
    };
    let left = LeftOut {
        name: copy_of(alloc, name)?,
        count,
        reason,
    };
    push(&mut so_far.left, left)
}

// Whether an animal has a track.
fn has_track(tracks: &IndexMap<Vec<u8>, Made>, name: &[u8]) -> bool
    ensures { result ≡ has_track name.now (map track_seen tracks.now.entries) }
{
    tracks.contains_key(name)
}

// Puts a new track behind others.
fn push_track(
    tracks: &mut IndexMap<Vec<u8>, Made>,
    name: Vec<u8>,
    made: Made,
) -> Result<(), LineFault>
    requires { has_track name.items (map track_seen tracks.old.entries) ≡ false }
    ensures tracks { OnOk result (map track_seen tracks.new.entries
        ≡ map track_seen tracks.old.entries ++ track_with name.items made ∷ []) }
    ensures fault { IfErr result (λ fault. fault ≡ LineFault.OutOfMemory) }
{
    match tracks.insert(name, made) {
        Ok(_none) => Ok(()),
        Err(_no_memory) => Err(LineFault::OutOfMemory),
    }
}

// Puts a track behind the others of a record.
fn put_track(alloc: Global, so_far: &mut Record, text: &[u8]) -> Result<(), LineFault>
    ensures found { OnOk result (put_line Kind.Track text.now (read so_far.old) ≡ Ok (read so_far.new)) }
    ensures fault { IfErr result (IsFaultOf (put_line Kind.Track text.now (read so_far.old))) }
{
    let Some((name, made)) = track_of(text) else {
        return Err(is_wrong(Wrong::Track));
    };
    if has_track(&so_far.tracks, name) {
        return Err(is_wrong(Wrong::Again));
    }
    let name = copy_of(alloc, name)?;
    push_track(&mut so_far.tracks, name, made)
}

// Puts what made the tracks into a record.
fn put_tool(alloc: Global, so_far: &mut Record, text: &[u8]) -> Result<(), LineFault>
    ensures found { OnOk result (put_line Kind.Tool text.now (read so_far.old) ≡ Ok (read so_far.new)) }
    ensures fault { IfErr result (IsFaultOf (put_line Kind.Tool text.now (read so_far.old))) }
{
    let tool = copy_of(alloc, text)?;
    push(&mut so_far.tools, tool)
}

// Puts what stands behind the kind of a line into a record.
pub(crate) fn put_line(
    alloc: Global,
    so_far: &mut Record,
    kind: Kind,
    text: &[u8],
) -> Result<(), LineFault>
    ensures found { OnOk result (put_line kind text.now (read so_far.old) ≡ Ok (read so_far.new)) }
    ensures fault { IfErr result (IsFaultOf (put_line kind text.now (read so_far.old))) }
{
    match kind {
        Kind::Export => put_export(alloc, so_far, text),
        Kind::Sum => put_sum(so_far, text),
        Kind::Scale => put_unit(so_far, text),
        Kind::Zone => put_zone(so_far, text),
        Kind::Shift => put_shift(so_far, text),
        Kind::Given => put_option(alloc, so_far, text),
        Kind::Said => put_said(alloc, so_far, text),
        Kind::Left => put_left(alloc, so_far, text),
        Kind::Track => put_track(alloc, so_far, text),
        Kind::Tool => put_tool(alloc, so_far, text),
    }
}
