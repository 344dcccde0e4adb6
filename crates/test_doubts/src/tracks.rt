// Tracks of worked fixes.

use range_plane::OutOfMemory;
use split_times::Moment;
use split_tracks::Entry;
use std::alloc::Global;

/// The number of a record, easting, northing, and whether the fix is used.
pub(crate) type Row = (u32, i64, i64, bool);

/// The track of fixes, of which each is a second behind the one before.
pub(crate) fn track_of(alloc: Global, rows: &[Row]) -> Result<Vec<Entry>, OutOfMemory> {
    let mut track = Vec::new(alloc);
    for (second, (record, easting, northing, is_used)) in rows.iter().enumerate() {
        track.push(Entry {
            record: *record,
            moment: Moment {
                second: second as u64,
                nanosecond: 0,
            },
            easting: *easting,
            northing: *northing,
            is_used: *is_used,
        })?;
    }
    Ok(track)
}

/// The tracks of some fixes each.
pub(crate) fn tracks_of(alloc: Global, all: &[&[Row]]) -> Result<Vec<Vec<Entry>>, OutOfMemory> {
    let mut tracks = Vec::new(alloc);
    for rows in all {
        tracks.push(track_of(alloc, rows)?)?;
    }
    Ok(tracks)
}
