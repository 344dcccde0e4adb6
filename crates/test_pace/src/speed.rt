// Tests of the greatest speed. What is expected was computed by Python's `fractions` and whole numbers, by the definition:
// of the used fixes of an animal, in the order of time, the first is kept, and each other one whose squared distance from the
// last that is kept is at most the square of the speed in units times the whole seconds between them.

use crate::worked::{Row, fates_of, leaves_out};
use range_plane::{OutOfMemory, Scale};
use split_pace::{Filter, Speed, leave_out};
use split_tracks::Reason;
use std::test::Fail;
use test_doubles::Refusing;

// Records of two animals: some are just at 50 units a second, and some just above.
const ROWS: [Row; 13] = [
    (1, 0, 100, 0, 0, 0, true),
    (2, 0, 110, 0, 300, 400, true),
    (3, 0, 120, 0, 300, 901, true),
    (4, 0, 130, 0, 300, 1400, true),
    (5, 0, 130, 500_000_000, 301, 1400, true),
    (6, 0, 130, 600_000_000, 300, 1400, true),
    (7, 0, 131, 0, 9000, 9000, false),
    (8, 0, 131, 900_000_000, 340, 1430, true),
    (9, 1, 0, 0, 0, 0, false),
    (10, 1, 5, 0, 1_000_000, 1_000_000, true),
    (11, 1, 6, 0, 1_000_030, 999_960, true),
    (12, 1, 7, 0, 1_000_030, 999_909, true),
    (13, 0, 99, 0, -50, 1, true),
];

// The filter of so many millionths of a metre a second.
fn at_most(unit: Scale, millionths: u64) -> Filter<'static> {
    Filter::MaxSpeed {
        unit,
        speed: Speed { millionths },
    }
}

#[test]
fn fixes_are_reached_from_the_last_that_is_kept(rt: HostRuntime) -> Result<(), Fail> {
    for (unit, millionths, left) in [
        (Scale::Metre, 50_000_000, [1, 3, 5, 12].as_slice()),
        (Scale::Decimetre, 5_000_000, &[1, 3, 5, 12]),
        (Scale::Metre, 49_999_999, &[1, 3, 4, 5, 6, 11]),
        (Scale::Metre, 50_000_001, &[1, 3, 5, 12]),
        (Scale::Decimetre, 50_000_000, &[5]),
        (Scale::Metre, 0, &[1, 2, 3, 4, 5, 6, 8, 11, 12]),
        (Scale::Decimetre, 0, &[1, 2, 3, 4, 5, 6, 8, 11, 12]),
        (Scale::Metre, u64::MAX, &[5]),
    ] {
        let filter = at_most(unit, millionths);
        assert!(&rt;
            leaves_out(rt.alloc(), &ROWS, filter, left, Reason::Speed)?,
            "{unit:?}, {millionths}"
        );
    }
    Ok(())
}

#[test]
fn the_widest_grid_is_exact(rt: HostRuntime) -> Result<(), Fail> {
    for (seconds, least) in [
        (u64::MAX, 1_414_214),
        (1 << 50, 23_170_475_006),
        (1 << 45, 741_455_200_190),
        (1 << 40, 23_726_566_406_063),
    ] {
        let rows = [
            (1, 0, 0, 0, i64::MIN, i64::MIN, true),
            (2, 0, seconds, 0, i64::MAX, i64::MAX, true),
        ];
        for (millionths, left) in [(least, [].as_slice()), (least - 1, &[2])] {
            let filter = at_most(Scale::Metre, millionths);
            assert!(&rt;
                leaves_out(rt.alloc(), &rows, filter, left, Reason::Speed)?,
                "{seconds}, {millionths}"
            );
        }
    }
    Ok(())
}

#[test]
fn after_a_failure_all_fates_stay(rt: HostRuntime) -> Result<(), Fail> {
    let before = fates_of(rt.alloc(), &ROWS, &[], Reason::Speed)?;
    for number in 1..100 {
        let refusing = Refusing::new(rt.alloc(), number);
        let mut fates = fates_of(rt.alloc(), &ROWS, &[], Reason::Speed)?;
        let done = leave_out(&refusing, &mut fates, 2, at_most(Scale::Metre, 0));
        if !refusing.has_refused() {
            assert!(&rt; done.is_ok(), "with memory");
            return Ok(());
        }
        assert!(&rt;
            done == Err(OutOfMemory) && fates.as_slice() == before.as_slice(),
            "{number}"
        );
    }
    assert!(&rt; false, "more allocations than it makes");
    Ok(())
}
