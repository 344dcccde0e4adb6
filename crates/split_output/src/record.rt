// The record of the tracks of a split.

ghost use Rattle.std.specs.Prelude.{◌≡◌, IfOk, map};
ghost use Rattle.split_export.specs.Export.{bytes_of};
ghost use Rattle.split_export.specs.Files.{filed};
ghost use Rattle.split_output.specs.Record.{IsTextOf, track_of, track_seen};

use crate::left::all_left;
use crate::origin::Origin;
use crate::tracks::tracks_of;
use range_plane::OutOfMemory;
use split_chain::Split;
use split_export::TrackFile;
use split_record::{Record, TrackMade, record_text, sum_of};
use std::alloc::Global;

// The line of a file.
fn made_of(file: &TrackFile) -> TrackMade<'_>
    ensures { track_seen result ≡ track_of (filed file.now) }
{
    TrackMade {
        name: &file.name,
        records: file.records,
        used: file.used,
        sum: sum_of(&file.text),
    }
}

// The lines of files.
fn all_made<'a>(alloc: Global, tracks: &[&'a TrackFile]) -> Result<Vec<TrackMade<'a>>, OutOfMemory>
    ensures { IfOk result (λ made. map track_seen made.items ≡ map (λ track. track_of (filed track.now)) tracks.now) }
{
    let mut made = Vec::new(alloc);
    for track in tracks {
        made.push(made_of(track))?;
    }
    Ok(made)
}

// The lines that are said.
fn all_said<'a>(alloc: Global, lines: &'a [Vec<u8>]) -> Result<Vec<&'a [u8]>, OutOfMemory>
    ensures { IfOk result (λ said. map (λ line. line.now) said.items ≡ bytes_of lines.now) }
{
    let mut said: Vec<&[u8]> = Vec::new(alloc);
    for line in lines {
        said.push(line.as_slice())?;
    }
    Ok(said)
}

/// The text of the record of tracks of a split, which were made of this.
///
/// # Errors
///
/// Memory ran out.
pub fn record_of_split(
    alloc: Global,
    origin: &Origin<'_>,
    split: &Split,
) -> Result<Vec<u8>, OutOfMemory>
    ensures { IfOk result (λ text. IsTextOf origin.now split.now text.items) }
{
    let said = all_said(alloc, &split.said.lines)?;
    let left = all_left(alloc, split)?;
    let tracks = tracks_of(alloc, split)?;
    let made = all_made(alloc, &tracks)?;
    let record = Record {
        exports: origin.exports,
        unit: origin.unit,
        zone: split.grid.zone,
        shift: split.grid.shift,
        options: origin.options,
        said: &said,
        left: &left,
        tracks: &made,
        tool: origin.tool,
    };
    record_text(alloc, &record)
}
