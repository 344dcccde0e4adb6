// Tests of the clocks of time zones. Expected moments are those at which datetime and zoneinfo in Python show the text: of
// both values of `fold`, those that come back to the text. Expected first moments of days are the least seconds at which
// datetime.fromtimestamp shows the day's midnight or later.

use crate::zones::{APIA, CASABLANCA, KATHMANDU, LJUBLJANA, LORD_HOWE, SAO_PAULO, ST_JOHNS};
use split_clock::{Clock, ClockFault, Moments, ZONE_LIMIT, is_zone_name};
use split_times::{TextTime, iso_time};
use std::alloc::Global;
use std::process::Abort;
use std::test::Fail;

// The clock of a zone in hexadecimal digits.
fn clock_of(rt: &impl Abort, alloc: Global, zone: &str) -> Result<Clock, Fail> {
    let bytes = hex::decode(alloc, zone.as_bytes())?;
    match Clock::read(alloc, &bytes) {
        Ok(clock) => Ok(clock),
        Err(fault) => panic!(rt; "{fault:?}"),
    }
}

// The moments at which a clock showed a time.
fn moments_in(clock: &Clock, text: &str) -> Option<Moments> {
    match iso_time(text.as_bytes()) {
        Ok(TextTime::Local(time)) => Some(clock.moments_of(time.second)),
        _ => None,
    }
}

// The moment at which a day begins.
fn begin_of(clock: &Clock, day: &str) -> Option<i64> {
    match iso_time(day.as_bytes()) {
        Ok(TextTime::Local(time)) => Some(clock.day_begins(time.second)),
        _ => None,
    }
}

// Checks when the clock of a zone showed times.
fn expect(
    rt: &impl Abort,
    alloc: Global,
    zone: &str,
    cases: &[(&str, Moments)],
) -> Result<(), Fail> {
    let clock = clock_of(rt, alloc, zone)?;
    for (text, expected) in cases {
        assert!(rt; moments_in(&clock, text) == Some(*expected), "{text}");
    }
    Ok(())
}

// Checks when days begin by the clock of a zone.
fn expect_days(
    rt: &impl Abort,
    alloc: Global,
    zone: &str,
    cases: &[(&str, i64)],
) -> Result<(), Fail> {
    let clock = clock_of(rt, alloc, zone)?;
    for (day, expected) in cases {
        assert!(rt; begin_of(&clock, day) == Some(*expected), "{day}");
    }
    Ok(())
}

// Checks by how much the clock of a zone is ahead of UTC.
fn expect_ahead(
    rt: &impl Abort,
    alloc: Global,
    zone: &str,
    cases: &[(u64, i64)],
) -> Result<(), Fail> {
    let clock = clock_of(rt, alloc, zone)?;
    for (second, expected) in cases {
        assert!(rt; clock.offset_at(*second) == *expected, "{second}");
    }
    Ok(())
}

#[test]
fn an_hour_is_passed_over_in_spring_and_comes_twice_in_autumn(rt: HostRuntime) -> Result<(), Fail> {
    expect(
        &rt,
        rt.alloc(),
        LJUBLJANA,
        &[
            ("2024-03-31 01:59:59", Moments::One(1_711_846_799)),
            ("2024-03-31 02:00", Moments::None),
            ("2024-03-31 02:59:59", Moments::None),
            ("2024-03-31 03:00", Moments::One(1_711_846_800)),
            ("2024-10-27 01:59:59", Moments::One(1_729_987_199)),
            (
                "2024-10-27 02:00",
                Moments::Two(1_729_987_200, 1_729_990_800),
            ),
            (
                "2024-10-27 02:59:59",
                Moments::Two(1_729_990_799, 1_729_994_399),
            ),
            ("2024-10-27 03:00", Moments::One(1_729_994_400)),
            ("2050-07-01", Moments::One(2_540_239_200)),
            ("1970-01-01 00:30", Moments::One(-1_800)),
        ],
    )
}

#[test]
fn clocks_are_moved_at_other_times_and_by_other_steps(rt: HostRuntime) -> Result<(), Fail> {
    expect(
        &rt,
        rt.alloc(),
        ST_JOHNS,
        &[
            ("2024-03-10 02:00", Moments::None),
            ("2024-03-10 03:00", Moments::One(1_710_048_600)),
            (
                "2024-11-03 01:00",
                Moments::Two(1_730_604_600, 1_730_608_200),
            ),
            ("2024-11-03 02:00", Moments::One(1_730_611_800)),
            ("1988-04-03 00:01", Moments::None),
            ("1988-04-03 02:00:59", Moments::None),
            ("1988-10-29 22:01", Moments::Two(594_171_060, 594_178_260)),
            ("2006-10-29 00:01", Moments::One(1_162_092_660)),
        ],
    )?;
    expect(
        &rt,
        rt.alloc(),
        LORD_HOWE,
        &[
            ("2024-04-07 01:29:59", Moments::One(1_712_413_799)),
            (
                "2024-04-07 01:30",
                Moments::Two(1_712_413_800, 1_712_415_600),
            ),
            (
                "2024-04-07 01:59:59",
                Moments::Two(1_712_415_599, 1_712_417_399),
            ),
            ("2024-04-07 02:00", Moments::One(1_712_417_400)),
            ("2024-10-06 02:00", Moments::None),
            ("2024-10-06 02:29:59", Moments::None),
            ("2024-10-06 02:30", Moments::One(1_728_142_200)),
        ],
    )
}

#[test]
fn clocks_go_back_for_a_month_in_casablanca(rt: HostRuntime) -> Result<(), Fail> {
    expect(
        &rt,
        rt.alloc(),
        CASABLANCA,
        &[
            (
                "2024-03-10 02:30",
                Moments::Two(1_710_034_200, 1_710_037_800),
            ),
            ("2024-03-10 03:00", Moments::One(1_710_039_600)),
            ("2024-04-14 02:00", Moments::None),
            ("2024-04-14 02:59:59", Moments::None),
            ("2024-04-14 03:00", Moments::One(1_713_060_000)),
            ("2024-07-01", Moments::One(1_719_788_400)),
            ("2018-10-28 02:30", Moments::One(1_540_690_200)),
        ],
    )
}

#[test]
fn days_and_midnights_are_passed_over(rt: HostRuntime) -> Result<(), Fail> {
    expect(
        &rt,
        rt.alloc(),
        APIA,
        &[
            ("2011-12-29 23:59:59", Moments::One(1_325_239_199)),
            ("2011-12-30", Moments::None),
            ("2011-12-30 23:59:59", Moments::None),
            ("2011-12-31", Moments::One(1_325_239_200)),
            (
                "2012-04-01 03:30",
                Moments::Two(1_333_200_600, 1_333_204_200),
            ),
        ],
    )?;
    expect(
        &rt,
        rt.alloc(),
        SAO_PAULO,
        &[
            ("2018-11-03 23:59:59", Moments::One(1_541_300_399)),
            ("2018-11-04", Moments::None),
            ("2018-11-04 00:59:59", Moments::None),
            ("2018-11-04 01:00", Moments::One(1_541_300_400)),
            (
                "2019-02-16 23:00",
                Moments::Two(1_550_365_200, 1_550_368_800),
            ),
            (
                "2019-02-16 23:59:59",
                Moments::Two(1_550_368_799, 1_550_372_399),
            ),
            ("2019-02-17", Moments::One(1_550_372_400)),
            ("2024-01-01", Moments::One(1_704_078_000)),
        ],
    )
}

#[test]
fn a_quarter_of_an_hour_is_passed_over_in_kathmandu(rt: HostRuntime) -> Result<(), Fail> {
    let alloc = rt.alloc();
    expect(
        &rt,
        alloc,
        KATHMANDU,
        &[
            ("1970-01-01", Moments::One(-19_800)),
            ("1985-12-31 23:59:59", Moments::One(504_901_799)),
            ("1986-01-01", Moments::None),
            ("1986-01-01 00:14:59", Moments::None),
            ("1986-01-01 00:15", Moments::One(504_901_800)),
            ("2024-05-01 12:00:04", Moments::One(1_714_544_104)),
        ],
    )?;
    expect_days(
        &rt,
        alloc,
        KATHMANDU,
        &[
            ("1986-01-01", 504_901_800),
            ("1986-01-02", 504_987_300),
            ("2024-05-01", 1_714_500_900),
        ],
    )?;
    expect_ahead(
        &rt,
        alloc,
        KATHMANDU,
        &[
            (0, 19_800),
            (504_901_799, 19_800),
            (504_901_800, 20_700),
            (1_714_523_404, 20_700),
        ],
    )
}

#[test]
fn a_day_begins_with_its_first_moment(rt: HostRuntime) -> Result<(), Fail> {
    let alloc = rt.alloc();
    expect_days(
        &rt,
        alloc,
        LJUBLJANA,
        &[("2024-03-31", 1_711_839_600), ("2024-10-27", 1_729_980_000)],
    )?;
    expect_days(
        &rt,
        alloc,
        APIA,
        &[
            ("2011-12-29", 1_325_152_800),
            ("2011-12-30", 1_325_239_200),
            ("2011-12-31", 1_325_239_200),
        ],
    )?;
    expect_days(
        &rt,
        alloc,
        SAO_PAULO,
        &[
            ("2018-11-04", 1_541_300_400),
            ("2018-11-05", 1_541_383_200),
            ("2019-02-17", 1_550_372_400),
        ],
    )?;
    expect_days(&rt, alloc, ST_JOHNS, &[("2006-10-29", 1_162_089_000)])?;
    expect_days(&rt, alloc, CASABLANCA, &[("2024-03-10", 1_710_025_200)])
}

#[test]
fn clocks_are_ahead_of_utc_or_behind(rt: HostRuntime) -> Result<(), Fail> {
    let alloc = rt.alloc();
    expect_ahead(
        &rt,
        alloc,
        LJUBLJANA,
        &[
            (0, 3_600),
            (1_711_846_799, 3_600),
            (1_711_846_800, 7_200),
            (1_729_990_799, 7_200),
            (1_729_990_800, 3_600),
            (4_102_444_800, 3_600),
        ],
    )?;
    expect_ahead(
        &rt,
        alloc,
        LORD_HOWE,
        &[(1_712_415_599, 39_600), (1_712_415_600, 37_800)],
    )?;
    expect_ahead(
        &rt,
        alloc,
        ST_JOHNS,
        &[(0, -12_600), (1_720_000_000, -9_000)],
    )?;
    // Past the year 9999 it is as at its end, which Python does not have.
    expect_ahead(
        &rt,
        alloc,
        APIA,
        &[(1_325_239_199, -36_000), (1 << 40, 46_800)],
    )
}

#[test]
fn the_clock_of_utc_is_utc(rt: HostRuntime) {
    let clock = Clock::utc();
    let moments = moments_in(&clock, "2024-05-01 00:30:04");
    assert!(&rt; moments == Some(Moments::One(1_714_523_404)), "a moment");
    assert!(&rt;
        begin_of(&clock, "2024-05-01") == Some(1_714_521_600),
        "a day"
    );
    assert!(&rt; clock.offset_at(1_714_523_404) == 0, "an offset");
}

#[test]
fn other_bytes_are_no_zone(rt: HostRuntime) -> Result<(), Fail> {
    let alloc = rt.alloc();
    let zone = hex::decode(alloc, LJUBLJANA.as_bytes())?;
    let front = zone.get(..400).unwrap_or(&[]);
    let back = zone.get(1..).unwrap_or(&[]);
    for bytes in [&[], b"TZif2".as_slice(), front, back] {
        let is_refused = matches!(Clock::read(alloc, bytes), Err(ClockFault::NotZone));
        assert!(&rt; is_refused, "{} bytes", bytes.len());
    }
    let mut long = Vec::new(alloc);
    long.resize(ZONE_LIMIT + 1, 0)?;
    let is_refused = matches!(Clock::read(alloc, &long), Err(ClockFault::TooLong));
    assert!(&rt; is_refused, "many bytes");
    Ok(())
}

#[test]
fn names_of_zones_lead_below_their_folder(rt: HostRuntime) {
    for name in [
        "UTC",
        "Europe/Ljubljana",
        "America/Argentina/Buenos_Aires",
        "Etc/GMT+1",
        "America/Port-au-Prince",
        "0123456789012345678901234567890123456789012345678901234567890123",
    ] {
        assert!(&rt; is_zone_name(name.as_bytes()), "{name}");
    }
    for name in [
        "",
        "/",
        "/etc/passwd",
        "Europe/",
        "Europe//Ljubljana",
        "..",
        "../Europe",
        "Europe/../../etc/passwd",
        "zone.tab",
        "Europe\\Ljubljana",
        "Europe/Ljubljana ",
        "Europe/Ljublj\u{e1}na",
        "Europe/Ljubljana\0",
        "C:zone",
        "right/Europe/Ljubljana",
        "posix/Europe/Ljubljana",
        "localtime",
        "posixrules",
        "Factory",
        "01234567890123456789012345678901234567890123456789012345678901234",
    ] {
        assert!(&rt; !is_zone_name(name.as_bytes()), "{name:?}");
    }
}
