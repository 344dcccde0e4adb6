// Tests of ISO texts with an offset and without one. Expected seconds are those of datetime.fromisoformat in Python.

use split_times::{LocalTime, Moment, TextTime, TimeFault, iso_time};
use std::process::Abort;

#[test]
fn a_text_without_an_offset_is_what_a_clock_shows(rt: HostRuntime) {
    for (text, second, nanosecond) in [
        ("2024-05-01", 1_714_521_600, 0),
        ("2024-05-01 00:30", 1_714_523_400, 0),
        ("2024-05-01T00:30:04.25", 1_714_523_404, 250_000_000),
        ("1969-12-31 23:30", -1_800, 0),
        ("9999-12-31 23:59:59", 253_402_300_799, 0),
    ] {
        let expected = Ok(TextTime::Local(LocalTime { second, nanosecond }));
        assert!(&rt; iso_time(text.as_bytes()) == expected, "{text}");
    }
}

#[test]
fn a_text_with_an_offset_is_a_moment(rt: HostRuntime) {
    for (text, second, nanosecond) in [
        ("2024-05-01 00:30:04Z", 1_714_523_404, 0),
        ("2024-05-01 00:30+02", 1_714_516_200, 0),
        ("2024-05-01T00:30:04.25-0330", 1_714_536_004, 250_000_000),
        ("1969-12-31 23:30-01:00", 1_800, 0),
    ] {
        let expected = Ok(TextTime::Utc(Moment { second, nanosecond }));
        assert!(&rt; iso_time(text.as_bytes()) == expected, "{text}");
    }
}

#[test]
fn other_texts_are_refused(rt: HostRuntime) {
    for (text, fault) in [
        ("1970-01-01 00:30+01", TimeFault::Before1970),
        (
            "2024-05-01 00:30:04.1234567890",
            TimeFault::MoreThanNineDecimals,
        ),
        ("2024-05-01 24:00", TimeFault::NotTime),
        ("2024-05-01 +02", TimeFault::NotTime),
        ("2024-05-01Z", TimeFault::NotTime),
    ] {
        assert!(&rt; iso_time(text.as_bytes()) == Err(fault), "{text}");
    }
}
