// Tests of cover flags by a hull's polygon, of points that are added to the hull after that.

use crate::points::{columns_of, hull_at, hull_of, parabola, point};
use range_cover::{CoverCache, add_point};
use range_hull::OnlineHull;
use range_plane::FIX_LIMIT;
use std::process::Abort;
use std::test::Fail;

const POSITIONS: [(i64, i64); 5] = [(5, 5), (10, 5), (11, 5), (0, 0), (5, 12)];

// Flags the points there, adds each to the hull, whose polygon covers those with these flags, and flags them again.
fn expect_added(
    rt: &(impl Abort + AllocGlobal),
    hull: &mut OnlineHull,
    expected: [bool; 5],
) -> Result<(), Fail> {
    let cols = columns_of(rt.alloc(), &POSITIONS)?;
    let mut cache = CoverCache::new(rt.alloc());
    cache.flag(hull, &cols)?;
    assert!(rt; cache.flags() == expected.as_slice(), "flags");
    for (position, covered) in POSITIONS.iter().zip(expected) {
        let p = point(*position)?;
        hull.reserve(1)?;
        assert!(rt; hull.points() < FIX_LIMIT, "few");
        assert!(rt; !covered || hull.covers(p), "covered");
        add_point(hull, p, covered);
    }
    cache.forget();
    cache.flag(hull, &cols)?;
    assert!(rt; cache.flags().iter().all(|flag| *flag), "all");
    Ok(())
}

#[test]
fn points_outside_alone_are_inserted_and_covered_from_then_on(rt: HostRuntime) -> Result<(), Fail> {
    let square = [(0, 0), (10, 0), (10, 10), (0, 10)];
    let mut hull = hull_at(&rt, rt.alloc(), &square)?;
    expect_added(&rt, &mut hull, [true, true, false, true, false])?;
    assert!(rt; hull.inserted() == 6 && hull.points() == 9);
    expect_added(&rt, &mut hull, [true; 5])?;
    assert!(rt; hull.inserted() == 6 && hull.points() == 14);
    Ok(())
}

// A polygon of so many corners that it is not copied for a few points.
#[test]
fn a_hull_of_many_corners_flags_points_itself(rt: HostRuntime) -> Result<(), Fail> {
    let hull = hull_of(&rt, rt.alloc(), &parabola(rt.alloc(), 90)?)?;
    let cols = columns_of(rt.alloc(), &[(4, 16), (4, 15), (4, 356), (4, 357)])?;
    let mut cache = CoverCache::new(rt.alloc());
    cache.flag(&hull, &cols)?;
    assert!(rt; cache.flags() == [true, false, true, false].as_slice());
    Ok(())
}
