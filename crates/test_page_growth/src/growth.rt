// Tests of how areas at a level grew. What is expected comes from the definition in Python, each prefix of the fixes anew
// (`tools/tests/crate_numbers.py`).

use crate::tracks::{Track, fixes_in, fixes_of};
use page_growth::{LevelGrowth, PARTS, growth_at};
use range_estimator::Estimator;
use range_plane::{Fix, Point};
use std::alloc::{AllocError, Global};
use std::test::Fail;

// A track, and of each level the doubled areas of all fixes, of the first three quarters of the fixes, and of those of the time;
// and from when on the last one stayed.
const CASES: [(Track, [(u8, u128, u128, u128, Option<u64>); 3]); 5] = [
    (
        Track::DenseFirst,
        [
            (50, 13200966, 12521325, 12966093, Some(340572)),
            (95, 25981756, 25282267, 25312807, Some(261978)),
            (100, 28086096, 27454341, 27762291, Some(261978)),
        ],
    ),
    (
        Track::Drift,
        [
            (50, 1323000, 903000, 903000, Some(3242160)),
            (95, 2604000, 1890000, 1890000, Some(3412800)),
            (100, 2688000, 1953000, 1953000, Some(3412800)),
        ],
    ),
    (
        Track::FarFirst,
        [
            (50, 64382, 62396, 62396, Some(534600)),
            (95, 116693, 112589, 112589, Some(463320)),
            (100, 48598549, 46195904, 46195904, Some(392040)),
        ],
    ),
    (
        Track::Corners,
        [
            (50, 20000, 20000, 20000, Some(682560)),
            (95, 20000, 20000, 20000, Some(341280)),
            (100, 20000, 20000, 20000, Some(341280)),
        ],
    ),
    (
        Track::One,
        [
            (50, 0, 0, 0, None),
            (95, 0, 0, 0, None),
            (100, 0, 0, 0, None),
        ],
    ),
];

// The points of fixes.
fn points_of(alloc: Global, fixes: &[Fix]) -> Result<Vec<Point>, AllocError> {
    fixes.iter().map(|fix| fix.at).collect(alloc)
}

// How the area of a track grew at a level.
fn grown(alloc: Global, track: Track, level: u8) -> Result<LevelGrowth, Fail> {
    let fixes = fixes_of(alloc, track)?;
    let points = points_of(alloc, &fixes)?;
    let mut estimator = Estimator::new(alloc);
    if fixes.len() > 1_000 {
        return Err(Fail::from("too many"));
    }
    estimator.take_block(&fixes)?;
    Ok(growth_at(alloc, level, estimator.rows(), &points)?.ok_or("there are fixes")?)
}

#[test]
fn areas_grew_as_the_definition_says(rt: HostRuntime) -> Result<(), Fail> {
    for (track, levels) in &CASES {
        for expected in levels {
            let own = grown(rt.alloc(), *track, expected.0)?;
            let found = (own.level, own.area2, own.by_fixes, own.by_days, own.since);
            assert!(&rt;
                found == *expected,
                "{} fixes at {} %",
                fixes_in(*track),
                expected.0
            );
        }
    }
    Ok(())
}

#[test]
fn of_no_fix_nothing_is_said(rt: HostRuntime) -> Result<(), Fail> {
    assert!(&rt; growth_at(rt.alloc(), 95, &[], &[])?.is_none(), "nothing");
    Ok(())
}

#[test]
fn the_time_has_so_many_parts(rt: HostRuntime) {
    assert!(rt; PARTS == 20, "parts");
}
