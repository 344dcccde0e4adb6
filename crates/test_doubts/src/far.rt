// Tests of fixes that lie far from the others. What is expected was worked out by hand and, of the three longer tracks, by
// Python over all pairs of coordinates, by the rule: of the used fixes the widest strip between two coordinates in which no other
// lies counts, if it is wider than half of the extent and than 1 km; the fixes on the side of it that has fewer are far, of equal
// sides those of the lower one.

use crate::tracks::{Row, track_of};
use range_plane::{OutOfMemory, Scale};
use split_doubts::{Axis, FarFixes, far_fixes};
use std::alloc::{Allocator, Global};
use std::process::Abort;
use std::test::Fail;
use test_doubles::Refusing;

// How many fixes are used, how many metres off the far ones are, and their records.
type Far = (usize, u64, &'static [u32]);

const FIRST: [Row; 18] = [
    (52, 411_036, 5_000_707, true),
    (17, 410_591, 5_000_749, true),
    (21, 410_066, 5_002_187, true),
    (13, 409_819, 4_995_294, false),
    (16, 400_408, 5_000_868, true),
    (56, 401_889, 4_993_324, false),
    (53, 401_113, 5_001_821, true),
    (8, 401_439, 5_002_169, true),
    (19, 402_385, 5_002_480, true),
    (31, 409_566, 5_001_574, true),
    (36, 402_590, 4_993_161, true),
    (40, 401_048, 5_002_064, false),
    (55, 401_931, 4_993_389, true),
    (10, 401_988, 4_994_445, false),
    (49, 400_254, 5_001_971, true),
    (41, 402_871, 5_000_033, true),
    (43, 401_598, 5_001_949, true),
    (33, 400_859, 4_993_352, true),
];

const SECOND: [Row; 18] = [
    (10, 402_546, 4_994_699, true),
    (2, 409_774, 5_000_074, true),
    (4, 409_578, 4_993_036, true),
    (56, 402_780, 5_000_340, true),
    (15, 410_574, 5_001_162, true),
    (43, 401_647, 5_000_794, false),
    (33, 401_161, 5_000_352, false),
    (50, 401_151, 5_001_508, true),
    (25, 402_684, 5_002_148, true),
    (37, 401_044, 5_001_550, false),
    (46, 402_698, 5_001_266, false),
    (47, 409_563, 4_994_472, false),
    (39, 402_411, 4_995_297, true),
    (27, 402_951, 5_002_402, true),
    (32, 400_659, 4_994_405, true),
    (53, 401_543, 5_000_354, false),
    (18, 402_650, 5_000_020, true),
    (48, 401_657, 4_995_183, false),
];

const THIRD: [Row; 18] = [
    (5, 411_988, 5_001_589, true),
    (28, 409_835, 5_002_217, true),
    (1, 400_940, 5_000_777, true),
    (8, 402_700, 5_002_280, true),
    (3, 402_514, 4_994_256, true),
    (25, 401_758, 5_000_783, true),
    (50, 401_041, 5_001_452, true),
    (9, 400_596, 5_001_085, true),
    (55, 400_980, 5_000_385, true),
    (41, 400_708, 5_000_037, false),
    (17, 402_150, 5_001_730, true),
    (39, 402_814, 5_001_803, true),
    (49, 401_567, 5_000_694, true),
    (53, 401_069, 5_000_099, false),
    (12, 402_093, 5_001_809, true),
    (35, 410_354, 4_994_528, true),
    (43, 401_434, 5_001_459, true),
    (6, 400_677, 5_000_196, true),
];

// Checks which fixes of a track are far along an axis.
fn expect_far(
    rt: &impl Abort,
    alloc: Global,
    rows: &[Row],
    axis: Axis,
    unit: Scale,
    expected: Far,
) -> Result<(), Fail> {
    let (fixes, metres, records) = expected;
    let track = track_of(alloc, rows)?;
    match far_fixes(alloc, axis, &track, unit)? {
        Some(far) => {
            assert!(rt;
                far.fixes == fixes && far.metres == metres,
                "{fixes}, {metres} m"
            );
            assert!(rt; far.records.as_slice() == records, "{metres} m");
        }
        None => {
            assert!(rt; false, "none, {metres} m");
        }
    }
    Ok(())
}

// Checks that no fixes of a track are far.
fn expect_none(rt: &impl Abort, alloc: Global, rows: &[Row], unit: Scale) -> Result<(), Fail> {
    let track = track_of(alloc, rows)?;
    for axis in [Axis::Easting, Axis::Northing] {
        let found = far_fixes(alloc, axis, &track, unit)?;
        assert!(rt; found.is_none(), "{axis:?}");
    }
    Ok(())
}

#[test]
fn longer_tracks_have_far_fixes(rt: HostRuntime) -> Result<(), Fail> {
    let alloc = rt.alloc();
    expect_far(
        &rt,
        alloc,
        &FIRST,
        Axis::Easting,
        Scale::Metre,
        (14, 6_695, &[17, 21, 31, 52]),
    )?;
    expect_far(
        &rt,
        alloc,
        &FIRST,
        Axis::Northing,
        Scale::Metre,
        (14, 6_644, &[33, 36, 55]),
    )?;
    expect_none(&rt, alloc, &FIRST, Scale::Decimetre)?;
    expect_far(
        &rt,
        alloc,
        &SECOND,
        Axis::Easting,
        Scale::Metre,
        (11, 6_627, &[2, 4, 15]),
    )?;
    expect_far(
        &rt,
        alloc,
        &SECOND,
        Axis::Northing,
        Scale::Metre,
        (11, 4_723, &[4, 10, 32, 39]),
    )?;
    expect_none(&rt, alloc, &SECOND, Scale::Decimetre)?;
    expect_far(
        &rt,
        alloc,
        &THIRD,
        Axis::Easting,
        Scale::Metre,
        (16, 7_021, &[5, 28, 35]),
    )?;
    expect_far(
        &rt,
        alloc,
        &THIRD,
        Axis::Northing,
        Scale::Metre,
        (16, 5_668, &[3, 35]),
    )?;
    expect_none(&rt, alloc, &THIRD, Scale::Decimetre)?;
    Ok(())
}

#[test]
fn few_fixes_are_not_far(rt: HostRuntime) -> Result<(), Fail> {
    let alloc = rt.alloc();
    expect_none(&rt, alloc, &[], Scale::Metre)?;
    expect_none(&rt, alloc, &[(1, 0, 0, true)], Scale::Metre)?;
    expect_none(
        &rt,
        alloc,
        &[(1, 7, 7, true), (2, 7, 7, true)],
        Scale::Metre,
    )?;
    expect_none(
        &rt,
        alloc,
        &[(1, 0, 0, false), (2, 9000, 9000, false)],
        Scale::Metre,
    )?;
    expect_none(
        &rt,
        alloc,
        &[(1, 0, 0, true), (2, 9000, 9000, false)],
        Scale::Metre,
    )?;
    Ok(())
}

#[test]
fn of_two_fixes_the_lower_is_far(rt: HostRuntime) -> Result<(), Fail> {
    let alloc = rt.alloc();
    let rows = [(1, 7000, 50, true), (2, 2000, 60, true)];
    expect_far(
        &rt,
        alloc,
        &rows,
        Axis::Easting,
        Scale::Metre,
        (2, 5000, &[2]),
    )?;
    let rows = [(1, 50, 2000, true), (2, 60, 7000, true)];
    expect_far(
        &rt,
        alloc,
        &rows,
        Axis::Northing,
        Scale::Metre,
        (2, 5000, &[1]),
    )
}

#[test]
fn a_gap_is_wider_than_half_and_than_a_kilometre(rt: HostRuntime) -> Result<(), Fail> {
    let alloc = rt.alloc();
    let half = [(1, 0, 0, true), (2, 2000, 0, true), (3, 4000, 0, true)];
    expect_none(&rt, alloc, &half, Scale::Metre)?;
    let more = [(1, 0, 0, true), (2, 2001, 0, true), (3, 4000, 0, true)];
    expect_far(
        &rt,
        alloc,
        &more,
        Axis::Easting,
        Scale::Metre,
        (3, 2001, &[1]),
    )?;
    let upper = [(1, 0, 0, true), (2, 1999, 0, true), (3, 4000, 0, true)];
    expect_far(
        &rt,
        alloc,
        &upper,
        Axis::Easting,
        Scale::Metre,
        (3, 2001, &[3]),
    )?;
    let thousand = [(1, 0, 0, true), (2, 1000, 0, true)];
    expect_none(&rt, alloc, &thousand, Scale::Metre)?;
    let next = [(1, 0, 0, true), (2, 1001, 0, true)];
    expect_far(
        &rt,
        alloc,
        &next,
        Axis::Easting,
        Scale::Metre,
        (2, 1001, &[1]),
    )
}

#[test]
fn decimetres_are_ten_to_a_metre(rt: HostRuntime) -> Result<(), Fail> {
    let alloc = rt.alloc();
    let thousand = [(1, 0, -5000, true), (2, 0, 5000, true)];
    expect_none(&rt, alloc, &thousand, Scale::Decimetre)?;
    let more = [(1, 0, -5000, true), (2, 0, 5019, true)];
    expect_far(
        &rt,
        alloc,
        &more,
        Axis::Northing,
        Scale::Decimetre,
        (2, 1001, &[1]),
    )
}

#[test]
fn fixes_that_are_not_used_are_passed_over(rt: HostRuntime) -> Result<(), Fail> {
    let alloc = rt.alloc();
    let rows = [
        (9, 0, 0, true),
        (8, 100, 0, true),
        (7, 2500, 0, false),
        (6, 5100, 0, true),
        (5, 5200, 0, false),
        (4, 90_000, 0, false),
        (3, 5200, 0, true),
        (2, 5150, 0, true),
    ];
    expect_far(
        &rt,
        alloc,
        &rows,
        Axis::Easting,
        Scale::Metre,
        (5, 5000, &[8, 9]),
    )
}

#[test]
fn of_equal_sides_the_lower_is_far(rt: HostRuntime) -> Result<(), Fail> {
    let alloc = rt.alloc();
    let rows = [
        (4, 5100, 0, true),
        (3, 100, 0, true),
        (2, 5000, 0, true),
        (1, 0, 0, true),
    ];
    expect_far(
        &rt,
        alloc,
        &rows,
        Axis::Easting,
        Scale::Metre,
        (4, 4900, &[1, 3]),
    )
}

#[test]
fn the_greatest_numbers_are_told_apart(rt: HostRuntime) -> Result<(), Fail> {
    let alloc = rt.alloc();
    let rows = [(1, i64::MIN, 0, true), (2, i64::MAX, 0, true)];
    let metres = 18_446_744_073_709_551_615;
    expect_far(
        &rt,
        alloc,
        &rows,
        Axis::Easting,
        Scale::Metre,
        (2, metres, &[1]),
    )?;
    let metres = 1_844_674_407_370_955_161;
    expect_far(
        &rt,
        alloc,
        &rows,
        Axis::Easting,
        Scale::Decimetre,
        (2, metres, &[1]),
    )
}

// Whether what was found is right, or memory ran out.
fn is_right<A: Allocator>(found: &Result<Option<FarFixes<A>>, OutOfMemory>, expected: Far) -> bool {
    let (fixes, metres, records) = expected;
    match found {
        Ok(Some(far)) => {
            far.fixes == fixes && far.metres == metres && far.records.as_slice() == records
        }
        Ok(None) => false,
        Err(_refused) => true,
    }
}

// A vector may ask again for less where an allocation fails, and then the answer is the same.
#[test]
fn each_allocation_may_fail(rt: HostRuntime) -> Result<(), Fail> {
    let track = track_of(rt.alloc(), &FIRST)?;
    for number in 1..100 {
        let refusing = Refusing::new(rt.alloc(), number);
        let found = far_fixes(&refusing, Axis::Easting, &track, Scale::Metre);
        assert!(&rt; is_right(&found, (14, 6695, &[17, 21, 31, 52])), "{number}");
        if !refusing.has_refused() {
            assert!(&rt; found.is_ok(), "with memory");
            return Ok(());
        }
    }
    assert!(&rt; false, "more allocations than it makes");
    Ok(())
}
