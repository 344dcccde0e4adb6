// The box of the used fixes of tracks.

ghost use Rattle.std.specs.Prelude.{◌≡◌, None, map};
ghost use Rattle.split_doubts.specs.Boxes.{ends, extent_of_tracks, great_axis, is_great, is_small_box, span, with_entry, with_track};

use crate::axis::{Axis, units_per_metre};
use range_plane::Scale;
use split_fates::{Extent, widened};
use split_tracks::Entry;
use std::alloc::Allocator;

/// A small box of fewer fixes is not asked about.
pub const LEAST_FIXES: usize = 10;

// A small box is narrower than so many metres.
const SMALL: u64 = 20;

// How many metres coordinates may lie from 0 and from one another.
const GREAT: u64 = 100_000_000;

// The extent of fixes, and of one more if it is used.
fn with_entry(extent: Option<Extent>, entry: &Entry) -> Option<Extent>
    ensures { result ≡ with_entry extent entry.now }
{
    if entry.is_used {
        widened(extent, (entry.easting, entry.northing))
    } else {
        extent
    }
}

// The same of a track.
fn with_track(extent: Option<Extent>, track: &[Entry]) -> Option<Extent>
    ensures { result ≡ with_track extent track.now }
{
    let mut whole = extent;
    for entry in track {
        whole = with_entry(whole, entry);
    }
    whole
}

/// The extent of the used fixes of a track; none where no fix is used.
pub fn extent_of_track(track: &[Entry]) -> Option<Extent>
    ensures { result ≡ with_track None track.now }
{
    with_track(None, track)
}

/// The extent of the used fixes of tracks; none where no fix is used.
pub fn extent_of_tracks<A: Allocator>(tracks: &[Vec<Entry, A>]) -> Option<Extent>
    ensures { result ≡ extent_of_tracks (map (λ track. track.items) tracks.now) }
{
    let mut extent = None;
    for track in tracks {
        extent = with_track(extent, track);
    }
    extent
}

/// The least and the greatest coordinate of an extent along an axis.
pub fn ends(axis: Axis, extent: &Extent) -> (i64, i64)
    ensures { result ≡ ends axis extent.now }
{
    match axis {
        Axis::Easting => (extent.least.0, extent.most.0),
        Axis::Northing => (extent.least.1, extent.most.1),
    }
}

/// How many units an extent is wide along an axis.
pub fn span(axis: Axis, extent: &Extent) -> u64
    ensures { result ≡ span axis extent.now }
{
    let (least, most) = ends(axis, extent);
    most.abs_diff(least)
}

/// Whether at least 10 fixes, of which there are so many, lie within a box of less than 20 by 20 m.
pub fn is_small_box(fixes: usize, extent: &Extent, unit: Scale) -> bool
    ensures { result ≡ is_small_box fixes extent.now unit }
{
    let least = SMALL * units_per_metre(unit);
    LEAST_FIXES <= fixes
        && span(Axis::Easting, extent) < least
        && span(Axis::Northing, extent) < least
}

// Whether coordinates lie farther than 100,000 km from 0 or from one another.
fn is_great(axis: Axis, extent: &Extent, unit: Scale) -> bool
    ensures { result ≡ is_great axis extent.now unit }
{
    let (least, most) = ends(axis, extent);
    let limit = GREAT * units_per_metre(unit);
    limit < least.unsigned_abs() || limit < most.unsigned_abs() || limit < span(axis, extent)
}

/// The first axis along which coordinates lie farther than 100,000 km from 0 or from one another; none where they do along none.
pub fn great_axis(extent: &Extent, unit: Scale) -> Option<Axis>
    ensures { result ≡ great_axis extent.now unit }
{
    if is_great(Axis::Easting, extent, unit) {
        Some(Axis::Easting)
    } else if is_great(Axis::Northing, extent, unit) {
        Some(Axis::Northing)
    } else {
        None
    }
}
