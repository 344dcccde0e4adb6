// Tests of the hour that comes twice. What is expected is told by hand from docs/TABLES.md, "Local time".

use split_clock::{ClockMoment, Moments, NoMoment, moment_by};
use split_times::Moment;
use std::process::Abort;

// A moment of half a second.
fn half(second: u64) -> Moment {
    Moment {
        second,
        nanosecond: 500_000_000,
    }
}

// Checks what moments come to behind a record of the same animal.
fn expect(
    rt: &impl Abort,
    moments: Moments,
    before: Option<Moment>,
    expected: Result<(u64, bool), NoMoment>,
) {
    let expected = expected.map(|(second, is_twice)| ClockMoment {
        moment: half(second),
        is_local: true,
        is_twice,
    });
    let found = moment_by(moments, 500_000_000, before);
    assert!(rt; found == expected, "{moments:?} behind {before:?}");
}

#[test]
fn the_first_of_two_moments_counts_unless_the_record_before_is_later(rt: HostRuntime) {
    let two = Moments::Two(1_000, 4_600);
    let earlier = Moment {
        second: 1_000,
        nanosecond: 499_999_999,
    };
    let later = Moment {
        second: 1_000,
        nanosecond: 500_000_001,
    };
    expect(&rt, two, None, Ok((1_000, true)));
    expect(&rt, two, Some(earlier), Ok((1_000, true)));
    expect(&rt, two, Some(half(1_000)), Ok((1_000, true)));
    expect(&rt, two, Some(later), Ok((4_600, true)));
    expect(&rt, two, Some(half(4_000)), Ok((4_600, true)));
    expect(&rt, two, Some(half(9_000)), Ok((4_600, true)));
}

#[test]
fn one_moment_counts_whatever_stands_before(rt: HostRuntime) {
    expect(&rt, Moments::One(1_000), None, Ok((1_000, false)));
    expect(
        &rt,
        Moments::One(1_000),
        Some(half(9_000)),
        Ok((1_000, false)),
    );
    expect(&rt, Moments::One(0), None, Ok((0, false)));
}

#[test]
fn no_moment_and_one_before_1970_are_refused(rt: HostRuntime) {
    expect(&rt, Moments::None, None, Err(NoMoment::PassedOver));
    expect(&rt, Moments::One(-1), None, Err(NoMoment::Before1970));
    expect(
        &rt,
        Moments::Two(-1, 3_599),
        None,
        Err(NoMoment::Before1970),
    );
}
