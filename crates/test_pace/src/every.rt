// Tests of one fix in each piece of time. What is expected was computed by Python's whole numbers and its zoneinfo, by the
// definition: of the used fixes of an animal, in the order of time, each is left out whose second by the clock, divided by the
// length and rounded down, is that of a used one before it.

use crate::worked::{Row, fates_of, leaves_out};
use crate::zones::{FIVE_BEHIND, PYONGYANG};
use range_plane::OutOfMemory;
use split_clock::Clock;
use split_pace::{Filter, leave_out};
use split_tracks::Reason;
use std::alloc::AllocGlobal;
use std::process::Abort;
use std::test::Fail;
use test_doubles::Refusing;

// Records of two animals, at the ends of hours and in the same seconds.
const ROWS: [Row; 12] = [
    (1, 0, 0, 0, 0, 0, true),
    (2, 0, 3599, 999_999_999, 0, 0, true),
    (3, 0, 3600, 0, 0, 0, false),
    (4, 0, 3600, 1, 0, 0, true),
    (5, 0, 3601, 0, 0, 0, true),
    (6, 0, 7199, 0, 0, 0, true),
    (7, 0, 10_800, 0, 0, 0, true),
    (8, 1, 3600, 0, 0, 0, true),
    (9, 1, 1, 0, 0, 0, true),
    (10, 1, 3599, 0, 0, 0, true),
    (11, 1, 2, 0, 0, 0, false),
    (12, 1, 7200, 0, 0, 0, true),
];

// Records of one animal: about midnight of 1 January 1970 by a clock five hours behind UTC, and where the clock of Pyongyang
// was set back and ahead by half an hour.
const BY_CLOCK: [Row; 12] = [
    (1, 0, 0, 0, 0, 0, true),
    (2, 0, 17_999, 0, 0, 0, true),
    (3, 0, 18_000, 0, 0, 0, true),
    (4, 0, 21_600, 0, 0, 0, true),
    (5, 0, 1_439_564_399, 0, 0, 0, true),
    (6, 0, 1_439_564_400, 0, 0, 0, true),
    (7, 0, 1_439_566_199, 0, 0, 0, true),
    (8, 0, 1_439_566_200, 0, 0, 0, true),
    (9, 0, 1_525_442_400, 0, 0, 0, true),
    (10, 0, 1_525_445_999, 0, 0, 0, true),
    (11, 0, 1_525_446_000, 0, 0, 0, true),
    (12, 0, 1_525_449_599, 0, 0, 0, true),
];

// Checks which of these records are left out by the clock of a zone in hexadecimal digits.
fn expect_by(
    rt: &(impl Abort + AllocGlobal),
    zone: &str,
    cases: &[(u64, &[u32])],
) -> Result<(), Fail> {
    let alloc = rt.alloc();
    let bytes = hex::decode(alloc, zone.as_bytes())?;
    let Ok(clock) = Clock::read(alloc, &bytes) else {
        panic!(rt; "no clock");
    };
    for (length, left) in cases {
        let filter = Filter::Every {
            length: *length,
            clock: &clock,
        };
        assert!(rt;
            leaves_out(alloc, &BY_CLOCK, filter, left, Reason::Every)?,
            "{length}"
        );
    }
    Ok(())
}

#[test]
fn pieces_are_counted_by_the_clock(rt: HostRuntime) -> Result<(), Fail> {
    expect_by(
        &rt,
        PYONGYANG,
        &[
            (0, &[2, 3, 4, 5, 6, 7, 8, 9, 10, 11, 12]),
            (1, &[7]),
            (1_800, &[6, 7]),
            (3_600, &[6, 7, 12]),
            (7_200, &[4, 6, 7, 10, 12]),
            (86_400, &[2, 3, 4, 6, 7, 10, 12]),
        ],
    )?;
    expect_by(
        &rt,
        FIVE_BEHIND,
        &[
            (0, &[2, 3, 4, 5, 6, 7, 8, 9, 10, 11, 12]),
            (1, &[]),
            (3_600, &[7, 8, 10, 12]),
            (7_200, &[4, 7, 8, 10, 12]),
            (86_400, &[2, 4, 6, 7, 8, 10, 11, 12]),
        ],
    )
}

#[test]
fn the_first_of_each_piece_is_kept(rt: HostRuntime) -> Result<(), Fail> {
    let clock = &Clock::utc();
    for (length, left) in [
        (0, [2, 4, 5, 6, 7, 8, 10, 12].as_slice()),
        (1, &[]),
        (60, &[5]),
        (3600, &[2, 5, 6, 10]),
        (7200, &[2, 4, 5, 6, 8, 10]),
        ((1 << 40) - 1, &[2, 4, 5, 6, 7, 8, 10, 12]),
    ] {
        let filter = Filter::Every { length, clock };
        assert!(&rt;
            leaves_out(rt.alloc(), &ROWS, filter, left, Reason::Every)?,
            "{length}"
        );
    }
    Ok(())
}

#[test]
fn other_animals_stay(rt: HostRuntime) -> Result<(), Fail> {
    let clock = &Clock::utc();
    let rows = [
        (1, 2, 0, 0, 0, 0, true),
        (2, 2, 0, 0, 0, 0, true),
        (3, u32::MAX, 0, 0, 0, 0, true),
        (4, u32::MAX, 0, 0, 0, 0, true),
    ];
    let filter = Filter::Every { length: 60, clock };
    assert!(&rt;
        leaves_out(rt.alloc(), &rows, filter, &[], Reason::Every)?,
        "those that were not counted"
    );
    Ok(())
}

#[test]
fn numbers_of_no_record_leave_nothing_out(rt: HostRuntime) -> Result<(), Fail> {
    let clock = &Clock::utc();
    let rows = [
        (1, 0, 0, 0, 0, 0, true),
        (0, 0, 0, 0, 0, 0, true),
        (u32::MAX, 0, 0, 0, 0, 0, true),
    ];
    let filter = Filter::Every { length: 60, clock };
    assert!(&rt;
        leaves_out(rt.alloc(), &rows, filter, &[], Reason::Every)?,
        "0 and 2^32 - 1 of three records"
    );
    Ok(())
}

#[test]
fn after_a_failure_all_fates_stay(rt: HostRuntime) -> Result<(), Fail> {
    let clock = &Clock::utc();
    let before = fates_of(rt.alloc(), &ROWS, &[], Reason::Every)?;
    for number in 1..100 {
        let refusing = Refusing::new(rt.alloc(), number);
        let mut fates = fates_of(rt.alloc(), &ROWS, &[], Reason::Every)?;
        let filter = Filter::Every {
            length: 3600,
            clock,
        };
        let done = leave_out(&refusing, &mut fates, 2, filter);
        if !refusing.has_refused() {
            assert!(&rt; done.is_ok(), "with memory");
            return Ok(());
        }
        assert!(&rt;
            done == Err(OutOfMemory) && fates.as_slice() == before.as_slice(),
            "{number}"
        );
    }
    assert!(&rt; false, "more allocations than it makes");
    Ok(())
}
