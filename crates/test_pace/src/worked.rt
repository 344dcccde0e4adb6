// Records of worked tracks, and what is left of them.

use range_plane::OutOfMemory;
use split_pace::{Filter, leave_out};
use split_times::Moment;
use split_tracks::{Entry, Fate, Reason};
use std::alloc::{AllocFailed, Allocator};

/// A record: its number, its animal, its second and the rest of it in nanoseconds, its easting and its northing, and whether
/// it is used.
pub type Row = (u32, u32, u64, u32, i64, i64, bool);

// Its fate, where it is in a track.
fn in_track(row: &Row) -> Fate {
    let (record, animal, second, nanosecond, easting, northing, is_used) = *row;
    Fate::InTrack {
        animal,
        entry: Entry {
            record,
            moment: Moment { second, nanosecond },
            easting,
            northing,
            is_used,
        },
    }
}

/// The fates of records of which some are left out.
pub fn fates_of<A: Allocator>(
    alloc: A,
    rows: &[Row],
    left: &[u32],
    reason: Reason,
) -> Result<Vec<Fate, A>, AllocFailed<Fate>> {
    let mut fates = Vec::new(alloc);
    for row in rows {
        if left.contains(&row.0) {
            fates.push(Fate::LeftOut {
                animal: Some(row.1),
                reason,
            })?;
        } else {
            fates.push(in_track(row))?;
        }
    }
    Ok(fates)
}

/// Whether a filter leaves out these records of two animals, and no others.
pub fn leaves_out<A: Allocator + Copy>(
    alloc: A,
    rows: &[Row],
    filter: Filter<'_>,
    left: &[u32],
    reason: Reason,
) -> Result<bool, OutOfMemory> {
    let mut fates = fates_of(alloc, rows, &[], reason)?;
    leave_out(alloc, &mut fates, 2, filter)?;
    let expected = fates_of(alloc, rows, left, reason)?;
    Ok(fates.as_slice() == expected.as_slice())
}
