// Tests of texts of a column, by whatever rule they are read. Expected seconds are those of datetime and zoneinfo in Python.

use crate::zones::LJUBLJANA;
use split_clock::{Clock, ClockMoment, NoMoment, clock_moment};
use split_times::{
    Forms, LocalTime, Moment, NumberFault, TextFault, TextTime, TimeFault, orders_in, text_time,
};
use std::process::Abort;
use std::test::Fail;

// The time that a clock shows.
fn local(second: i64) -> TextTime {
    TextTime::Local(LocalTime {
        second,
        nanosecond: 0,
    })
}

// A moment of a whole second.
fn whole(second: u64) -> Moment {
    Moment {
        second,
        nanosecond: 0,
    }
}

#[test]
fn without_forms_texts_are_numbers_or_iso_texts(rt: HostRuntime) {
    for (text, expected) in [
        ("1714523404", Ok(TextTime::Utc(whole(1_714_523_404)))),
        (
            "2024-05-01 02:30:04+02",
            Ok(TextTime::Utc(whole(1_714_523_404))),
        ),
        ("2024-05-01 00:30:04", Ok(local(1_714_523_404))),
        (
            "20240501",
            Err(TextFault::Number(NumberFault::DateWithoutHyphens)),
        ),
        ("1.5.2024", Err(TextFault::Time(TimeFault::NotTime))),
        (
            "1970-01-01 00:30+01",
            Err(TextFault::Time(TimeFault::Before1970)),
        ),
    ] {
        assert!(&rt; text_time(text.as_bytes(), None) == expected, "{text}");
    }
}

#[test]
fn with_forms_texts_have_these_alone(rt: HostRuntime) {
    let Ok(forms) = Forms::new(b"%d.%m.%Y|%Y%m%d") else {
        panic!(&rt; "no forms");
    };
    for (text, expected) in [
        ("1.5.2024", Ok(local(1_714_521_600))),
        ("20240501", Ok(local(1_714_521_600))),
        ("1714523404", Err(TextFault::Time(TimeFault::NotTime))),
        ("2024-05-01", Err(TextFault::Time(TimeFault::NotTime))),
    ] {
        assert!(&rt;
            text_time(text.as_bytes(), Some(forms)) == expected,
            "{text}"
        );
    }
}

#[test]
fn numbers_that_are_days_with_hours_have_orders(rt: HostRuntime) {
    for (text, has_orders) in [
        ("2024050112", true),
        ("1714523404", false),
        ("2024-05-01", false),
        ("202405", false),
    ] {
        assert!(&rt; orders_in(text.as_bytes()).is_any() == has_orders, "{text}");
    }
}

// The moment of a text by a clock.
fn moment_in(
    text: &str,
    clock: &Clock,
    before: Option<Moment>,
) -> Option<Result<ClockMoment, NoMoment>> {
    match text_time(text.as_bytes(), None) {
        Ok(time) => Some(clock_moment(time, clock, before)),
        Err(_) => None,
    }
}

#[test]
fn a_clock_tells_the_moment_of_what_has_no_offset(rt: HostRuntime) -> Result<(), Fail> {
    let bytes = hex::decode(rt.alloc(), LJUBLJANA.as_bytes())?;
    let Ok(clock) = Clock::read(rt.alloc(), &bytes) else {
        panic!(&rt; "no clock");
    };
    let later = Some(whole(1_729_989_001));
    for (text, before, expected) in [
        ("1729992600", later, Ok((1_729_992_600, false, false))),
        (
            "2024-10-27 02:30Z",
            later,
            Ok((1_729_996_200, false, false)),
        ),
        ("2024-07-01 02:30", later, Ok((1_719_793_800, true, false))),
        ("2024-10-27 02:30", None, Ok((1_729_989_000, true, true))),
        ("2024-10-27 02:30", later, Ok((1_729_992_600, true, true))),
        ("2024-03-31 02:30", None, Err(NoMoment::PassedOver)),
        ("1970-01-01 00:30", None, Err(NoMoment::Before1970)),
    ] {
        let expected = expected.map(|(second, is_local, is_twice)| ClockMoment {
            moment: whole(second),
            is_local,
            is_twice,
        });
        assert!(&rt; moment_in(text, &clock, before) == Some(expected), "{text}");
    }
    Ok(())
}
