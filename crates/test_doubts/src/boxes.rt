// Tests of the boxes of tracks. What is expected was worked out by hand.

use crate::tracks::tracks_of;
use range_plane::Scale;
use split_doubts::{Axis, ends, extent_of_tracks, great_axis, is_small_box, span};
use split_fates::Extent;
use std::test::Fail;

// The extent from the least to the greatest easting and northing.
fn extent(west: i64, east: i64, south: i64, north: i64) -> Extent {
    Extent {
        least: (west, south),
        most: (east, north),
    }
}

#[test]
fn the_extent_is_that_of_used_fixes_of_all_tracks(rt: HostRuntime) -> Result<(), Fail> {
    let alloc = rt.alloc();
    let one = [(1, 5, -7, true), (2, 900, 900, false), (3, 2, 4, true)];
    let other = [(4, -900, -900, false), (5, 3, 11, true)];
    let tracks = tracks_of(alloc, &[&one, &[], &other])?;
    let found = extent_of_tracks(&tracks);
    assert!(&rt; found == Some(extent(2, 5, -7, 11)), "two tracks");
    let tracks = tracks_of(alloc, &[&[(1, 5, 5, false)], &[]])?;
    assert!(&rt; extent_of_tracks(&tracks) == None, "no used fix");
    Ok(())
}

#[test]
fn an_axis_has_two_ends(rt: HostRuntime) {
    let whole = extent(i64::MIN, i64::MAX, -3, 4);
    assert!(&rt;
        ends(Axis::Easting, &whole) == (i64::MIN, i64::MAX),
        "eastings"
    );
    assert!(&rt; ends(Axis::Northing, &whole) == (-3, 4), "northings");
    assert!(&rt; span(Axis::Easting, &whole) == u64::MAX, "eastings");
    assert!(&rt; span(Axis::Northing, &whole) == 7, "northings");
}

#[test]
fn a_small_box_has_ten_fixes_in_less_than_twenty_metres(rt: HostRuntime) {
    for (fixes, east, north, unit, is_small) in [
        (10, 119, 219, Scale::Metre, true),
        (9, 119, 219, Scale::Metre, false),
        (10, 120, 219, Scale::Metre, false),
        (10, 119, 220, Scale::Metre, false),
        (usize::MAX, 100, 200, Scale::Metre, true),
        (10, 299, 399, Scale::Decimetre, true),
        (10, 300, 399, Scale::Decimetre, false),
        (10, 299, 400, Scale::Decimetre, false),
    ] {
        let whole = extent(100, east, 200, north);
        assert!(&rt;
            is_small_box(fixes, &whole, unit) == is_small,
            "{fixes}, {east}, {north}"
        );
    }
}

#[test]
fn a_great_box_is_past_a_hundred_million_metres(rt: HostRuntime) {
    let easting = Some(Axis::Easting);
    let northing = Some(Axis::Northing);
    for (whole, unit, great) in [
        (extent(0, 100_000_000, -100_000_000, 0), Scale::Metre, None),
        (extent(0, 100_000_001, 0, 0), Scale::Metre, easting),
        (extent(-100_000_001, 0, 0, 0), Scale::Metre, easting),
        (extent(-50_000_000, 50_000_001, 0, 0), Scale::Metre, easting),
        (extent(-50_000_000, 50_000_000, 0, 0), Scale::Metre, None),
        (
            extent(0, 0, 500_000_000, 500_000_009),
            Scale::Metre,
            northing,
        ),
        (
            extent(0, 100_000_001, 0, 100_000_001),
            Scale::Metre,
            easting,
        ),
        (
            extent(0, 0, 500_000_000, 500_000_009),
            Scale::Decimetre,
            None,
        ),
        (extent(0, 1_000_000_000, 0, 0), Scale::Decimetre, None),
        (extent(0, 0, 0, 1_000_000_001), Scale::Decimetre, northing),
        (extent(i64::MIN, i64::MAX, 0, 0), Scale::Decimetre, easting),
    ] {
        assert!(&rt; great_axis(&whole, unit) == great, "{whole:?}");
    }
}
