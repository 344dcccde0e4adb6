// Tests of the words that say how times are read, and which are the first and the last that are wanted. Expected seconds
// are those of Python's `datetime` and `zoneinfo`.

use crate::words::words_of;
use split_clock::Clock;
use split_times::LocalTime;
use split_words::{bound_of, read_words};
use std::alloc::Global;
use std::process::Abort;
use std::test::Fail;

// The clocks of central Europe since 1996, as a file of the time zone database.
const CENTRAL_EUROPE: &[u8] =
    b"TZif2\0\0\0\0\0\0\0\0\0\0\0\0\0\0\0\0\0\0\0\0\0\0\0\0\0\0\0\0\0\0\0\0\0\0\x01\0\0\0\x04\
\0\0\x0e\x10\0\0CET\0TZif2\0\0\0\0\0\0\0\0\0\0\0\0\0\0\0\0\0\0\0\0\0\0\0\0\0\0\0\0\0\0\0\0\0\0\x01\0\0\0\x04\
\0\0\x0e\x10\0\0CET\0\nCET-1CEST,M3.5.0,M10.5.0/3\n";

// The name of their zone.
const LJUBLJANA: &str = "Europe/Ljubljana";

// That clock.
fn central_europe(rt: &impl Abort, alloc: Global) -> Clock {
    match Clock::read(alloc, CENTRAL_EUROPE) {
        Ok(clock) => clock,
        Err(fault) => panic!(rt; "{fault:?}"),
    }
}

// The bound of a text; none where it is refused.
fn bound(alloc: Global, text: &str, clock: &Clock, is_end: bool, zone_name: &str) -> Option<u64> {
    bound_of(alloc, text, clock, is_end, zone_name).ok()
}

// Checks the first and the last second of texts by a clock.
fn expect_bounds(
    rt: &impl Abort,
    alloc: Global,
    clock: &Clock,
    cases: &[(&str, Option<u64>, Option<u64>)],
) {
    for (text, first, last) in cases {
        assert!(rt; bound(alloc, text, clock, false, "X") == *first, "{text}");
        assert!(rt; bound(alloc, text, clock, true, "X") == *last, "{text}");
    }
}

#[test]
fn bounds_go_by_a_clock(rt: HostRuntime) -> Result<(), Fail> {
    let alloc = rt.alloc();
    let clock = central_europe(&rt, alloc);
    let cases = [
        ("2024-05-01", Some(1_714_514_400), Some(1_714_600_799)),
        (
            "2024-05-01 00:30:04",
            Some(1_714_516_204),
            Some(1_714_516_204),
        ),
        (
            " 2024-05-01T02:00Z\t",
            Some(1_714_528_800),
            Some(1_714_528_800),
        ),
        // Days of 23 and of 25 hours.
        ("2024-03-31", Some(1_711_839_600), Some(1_711_922_399)),
        ("2024-10-27", Some(1_729_980_000), Some(1_730_069_999)),
        // A time that comes twice, and one that was passed over.
        ("2024-10-27 02:30", Some(1_729_989_000), Some(1_729_992_600)),
        (
            "2024-10-27 02:30:00.5",
            Some(1_729_989_001),
            Some(1_729_992_600),
        ),
        ("2024-03-31 02:30", None, None),
        ("1970-01-01", Some(0), Some(82_799)),
        ("1970-01-01 00:30", Some(0), None),
        ("9999-12-30", Some(253_402_124_400), Some(253_402_210_799)),
        ("9999-12-31", Some(253_402_210_800), Some(253_402_297_199)),
    ];
    expect_bounds(&rt, alloc, &clock, &cases);
    Ok(())
}

#[test]
fn bounds_are_of_utc_where_no_clock_is_named(rt: HostRuntime) -> Result<(), Fail> {
    let cases = [
        ("2024-05-01", Some(1_714_521_600), Some(1_714_607_999)),
        ("2024-03-31 02:30", Some(1_711_852_200), Some(1_711_852_200)),
        (
            "2024-05-01 00:00:00.25",
            Some(1_714_521_601),
            Some(1_714_521_600),
        ),
        ("1970-01-01T00:00:00.25+00", Some(1), Some(0)),
        ("1970-01-01", Some(0), Some(86_399)),
        ("1969-12-31", Some(0), None),
        ("1969-12-31T23:59:59.5Z", Some(0), None),
        ("1969-12-31 23:59:59.5", Some(0), None),
        ("9999-12-31", Some(253_402_214_400), Some(253_402_300_799)),
    ];
    expect_bounds(&rt, rt.alloc(), &Clock::utc(), &cases);
    Ok(())
}

#[test]
fn words_have_bounds_once_the_clock_is_known(rt: HostRuntime) -> Result<(), Fail> {
    let alloc = rt.alloc();
    let texts = [
        "a.csv",
        "--tz",
        LJUBLJANA,
        "--since=2024-03-31",
        "--until=2024-10-27 02:30",
    ];
    let words = words_of(alloc, &texts)?;
    let Ok(mut found) = read_words(alloc, &words) else {
        assert!(rt; false);
        return Ok(());
    };
    assert!(rt; found.zone_name == Some(LJUBLJANA) && found.clock_name() == LJUBLJANA);
    assert!(rt; found.choices.needs_time() == "--since");
    let clock = central_europe(&rt, alloc);
    assert!(rt; found.read_bounds(alloc, &clock).is_ok());
    let filters = found.choices.filters();
    assert!(rt; filters.since == Some(1_711_839_600) && filters.until == Some(1_729_992_600));
    Ok(())
}

#[test]
fn forms_of_times_are_read(rt: HostRuntime) -> Result<(), Fail> {
    let alloc = rt.alloc();
    let words = words_of(alloc, &["a.csv", "--from=lotek"])?;
    let Ok(found) = read_words(alloc, &words) else {
        assert!(rt; false);
        return Ok(());
    };
    let Some(forms) = found.forms else {
        assert!(rt; false);
        return Ok(());
    };
    let expected = LocalTime {
        second: 1_726_837_220,
        nanosecond: 0,
    };
    for text in ["09/20/2024 1:00:20 PM", "2024-09-20 13:00:20"] {
        match forms.time(text.as_bytes()) {
            Ok(time) => assert!(rt; time.time == expected, "{text}"),
            Err(_) => assert!(rt; false, "{text}"),
        }
    }
    assert!(rt; found.zone_name == None && found.clock_name() == "UTC");
    Ok(())
}
