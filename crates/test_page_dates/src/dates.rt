// Dates by the calendar, by a clock and by the files' own start. Seconds were computed by Python's datetime.

use page_dates::{END_OF_DAYS, date_of_day, push_date, push_period};
use split_clock::Clock;
use std::alloc::{AllocError, Global};

// The zone Etc/GMT-14, which is 14 hours ahead of UTC, as the time zone database has it, in hexadecimal digits.
const AHEAD: &str =
    "545a6966320000000000000000000000000000000000000000000000000000000000000000000001000000040000c4e000002b3134\
    00545a6966320000000000000000000000000000000000000000000000000000000000000000000001000000040000c4e000002b3134\
    000a3c2b31343e2d31340a";

// The date of a second.
fn date(alloc: Global, clock: &Clock, dated: bool, second: u64) -> Result<Vec<u8>, AllocError> {
    let mut text = Vec::new(alloc);
    push_date(&mut text, clock, dated, second)?;
    Ok(text)
}

// Two seconds as a period.
fn period(
    alloc: Global,
    clock: &Clock,
    dated: bool,
    first: u64,
    last: u64,
) -> Result<Vec<u8>, AllocError> {
    let mut text = Vec::new(alloc);
    push_period(&mut text, clock, dated, first, last)?;
    Ok(text)
}

// Whether a text was written, and is this one.
fn is_written(text: Result<Vec<u8>, AllocError>, expected: &str) -> bool {
    match text {
        Ok(text) => text.as_slice() == expected.as_bytes(),
        Err(_no_memory) => false,
    }
}

// Seconds with their dates in UTC.
const DATES: [(u64, &str); 5] = [
    (1_726_822_800, "20 Sep 2024"),
    (1_709_247_600, "29 Feb 2024"),
    (1_709_251_200, "1 Mar 2024"),
    (1_704_024_000, "31 Dec 2023"),
    (9_223_369_200, "11 Apr 2262"),
];

#[test]
fn seconds_have_dates(rt: HostRuntime) {
    let clock = Clock::utc();
    for (second, expected) in &DATES {
        assert!(rt;
            is_written(date(rt.alloc(), &clock, true, *second), expected),
            "{expected}"
        );
    }
}

#[test]
fn dates_are_those_of_the_clock(rt: HostRuntime) {
    let Ok(bytes) = hex::decode(rt.alloc(), AHEAD.as_bytes()) else {
        assert!(rt; false, "it is hexadecimal");
        return;
    };
    let Ok(clock) = Clock::read(rt.alloc(), &bytes) else {
        assert!(rt; false, "it is a zone");
        return;
    };
    assert!(rt;
        is_written(date(rt.alloc(), &clock, true, 1_709_247_600), "1 Mar 2024"),
        "a day later"
    );
    assert!(rt;
        is_written(date(rt.alloc(), &clock, false, 90_000), "day 2"),
        "a start has no clock"
    );
}

// Periods in UTC.
const PERIODS: [(u64, u64, &str); 6] = [
    (1_726_822_800, 1_726_822_801, "20 Sep 2024"),
    (1_725_321_600, 1_726_822_800, "3 to 20 Sep 2024"),
    (1_709_247_600, 1_709_251_200, "29 Feb to 1 Mar 2024"),
    (1_704_024_000, 1_709_251_200, "31 Dec 2023 to 1 Mar 2024"),
    (100_000_800, 1_709_251_200, "3 Mar 1973 to 1 Mar 2024"),
    (1_725_321_600, 9_223_369_200, "3 Sep 2024 to 11 Apr 2262"),
];

#[test]
fn periods_have_once_what_is_the_same(rt: HostRuntime) {
    let clock = Clock::utc();
    for (first, last, expected) in &PERIODS {
        assert!(rt;
            is_written(period(rt.alloc(), &clock, true, *first, *last), expected),
            "{expected}"
        );
    }
}

#[test]
fn seconds_without_a_date_are_counted(rt: HostRuntime) {
    let clock = Clock::utc();
    assert!(rt;
        is_written(date(rt.alloc(), &clock, false, 0), "day 1"),
        "the first"
    );
    assert!(rt;
        is_written(date(rt.alloc(), &clock, false, 172_800), "day 3"),
        "the third"
    );
    assert!(rt;
        is_written(period(rt.alloc(), &clock, false, 0, 86_399), "day 1"),
        "one day"
    );
    assert!(rt;
        is_written(period(rt.alloc(), &clock, false, 0, 198_000), "day 1 to 3"),
        "three days"
    );
}

#[test]
fn days_have_dates_until_they_end(rt: HostRuntime) {
    assert!(rt; date_of_day(0) == Some((1970, 1, 1)), "the first");
    assert!(rt; date_of_day(19_782) == Some((2024, 2, 29)), "a leap day");
    assert!(rt;
        date_of_day(END_OF_DAYS - 1) == Some((2517, 7, 31)),
        "the last"
    );
    assert!(rt; date_of_day(END_OF_DAYS).is_none(), "behind the last");
}
