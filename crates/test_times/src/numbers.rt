// Tests of numbers as times. What numbers look like is as docs/TABLES.md has it. In which orders numbers of a column are days
// was told by re.fullmatch in Python, with a regular expression for each order, such as
// (0[1-9]|[12][0-9]|3[01])(0[1-9]|1[0-2])(19|20)[0-9]{2}([01][0-9]|2[0-4]) and text.zfill(10).

use split_times::{DayOrders, Moment, NumberFault, number_moment, seconds_in};
use std::process::Abort;

#[test]
fn seconds_of_1990_to_2286_are_moments(rt: HostRuntime) {
    for (text, second, nanosecond) in [
        ("631152000", 631_152_000, 0),
        ("1714523404", 1_714_523_404, 0),
        ("0001714523404", 1_714_523_404, 0),
        ("9999999999", 9_999_999_999, 0),
        ("1714523404.", 1_714_523_404, 0),
        ("1714523404.25", 1_714_523_404, 250_000_000),
        ("1714523404.000000001", 1_714_523_404, 1),
        ("1714523404.9999999999999", 1_714_523_404, 999_999_999),
        ("2024050112", 2_024_050_112, 0),
    ] {
        let expected = Ok(Moment { second, nanosecond });
        assert!(&rt; number_moment(text.as_bytes()) == expected, "{text}");
    }
}

#[test]
fn other_numbers_are_refused_by_what_they_look_like(rt: HostRuntime) {
    for (text, fault) in [
        ("", NumberFault::NotNumber),
        ("-", NumberFault::NotNumber),
        (".5", NumberFault::NotNumber),
        ("+1714523404", NumberFault::NotNumber),
        ("1714523404 ", NumberFault::NotNumber),
        ("1714523404,5", NumberFault::NotNumber),
        ("1714523404.5.5", NumberFault::NotNumber),
        ("1.714523404e9", NumberFault::NotNumber),
        ("2024-05-01", NumberFault::NotNumber),
        ("-1714523404.5x", NumberFault::NotNumber),
        ("-1714523404.5", NumberFault::Negative),
        ("-0", NumberFault::Negative),
        ("15000", NumberFault::DaysOfExcel),
        ("45413.0209", NumberFault::DaysOfExcel),
        ("79999.9", NumberFault::DaysOfExcel),
        ("2460431.5", NumberFault::JulianDays),
        ("2400000", NumberFault::JulianDays),
        ("20240501", NumberFault::DateWithoutHyphens),
        ("240501", NumberFault::DateWithoutHyphens),
        ("01052024", NumberFault::DateWithoutHyphens),
        ("31122024", NumberFault::DateWithoutHyphens),
        ("12312024", NumberFault::DateWithoutHyphens),
        ("1714523404000", NumberFault::Milliseconds),
        ("202405010030", NumberFault::Milliseconds),
        ("20240501003004", NumberFault::Milliseconds),
        ("0", NumberFault::NotSecond),
        ("14999", NumberFault::NotSecond),
        ("80000", NumberFault::NotSecond),
        ("20240501.5", NumberFault::NotSecond),
        ("20241301", NumberFault::NotSecond),
        ("631151999.9", NumberFault::NotSecond),
        ("10000000000", NumberFault::NotSecond),
        ("100000000000000", NumberFault::NotSecond),
        (
            "123456789012345678901234567890123456789012345678901234567890",
            NumberFault::NotSecond,
        ),
    ] {
        assert!(&rt; number_moment(text.as_bytes()) == Err(fault), "{text:?}");
    }
}

#[test]
fn numbers_have_seconds(rt: HostRuntime) {
    for (text, expected) in [
        ("0", Some((0, 0))),
        ("1099511627776.5", Some((1_099_511_627_776, 500_000_000))),
        ("100000000000000", Some((100_000_000_000_000, 0))),
        ("999999999999999999999", Some((100_000_000_000_000, 0))),
        ("-1", None),
        ("1 ", None),
    ] {
        let expected = expected.map(|(second, nanosecond)| Moment { second, nanosecond });
        assert!(&rt; seconds_in(text.as_bytes()) == expected, "{text}");
    }
}

// The orders of a number, none where it is no moment.
fn orders_in(text: &str) -> DayOrders {
    match number_moment(text.as_bytes()) {
        Ok(moment) => DayOrders::of(moment),
        Err(_) => DayOrders::of(Moment {
            second: 0,
            nanosecond: 1,
        }),
    }
}

// The orders that all numbers of a column have.
fn orders_of(texts: [&str; 3]) -> DayOrders {
    let mut orders = DayOrders::all();
    for text in texts {
        orders = orders.both(orders_in(text));
    }
    orders
}

#[test]
fn columns_of_days_with_hours_have_their_order(rt: HostRuntime) {
    let none = orders_in("");
    assert!(&rt; !none.is_any(), "no orders");
    for (texts, expected) in [
        (
            ["2024050112", "2024053123", "1999123100"],
            DayOrders {
                year_month_day_hour: true,
                ..none
            },
        ),
        (
            ["2024010512", "2024310523", "1999311200"],
            DayOrders {
                year_day_month_hour: true,
                ..none
            },
        ),
        (
            ["3112202401", "1305202412", "705202423"],
            DayOrders {
                day_month_year_hour: true,
                short_year_month_day_hour_minute: true,
                day_month_short_year_hour_minute: true,
                day_month_hour_minute_second: true,
                ..none
            },
        ),
        (
            ["1231202401", "1213202412", "713202423"],
            DayOrders {
                month_day_year_hour: true,
                month_day_short_year_hour_minute: true,
                month_day_hour_minute_second: true,
                ..none
            },
        ),
        (
            ["2405311230", "2405132359", "9912310000"],
            DayOrders {
                short_year_month_day_hour_minute: true,
                ..none
            },
        ),
        (
            ["3105241230", "1305242359", "3112640000"],
            DayOrders {
                day_month_short_year_hour_minute: true,
                ..none
            },
        ),
        (
            ["1231241230", "1213242359", "1231640000"],
            DayOrders {
                month_day_short_year_hour_minute: true,
                ..none
            },
        ),
        (["1231123015", "1213235959", "1031000060"], none),
        (
            ["1231123045", "1213235959", "1031003300"],
            DayOrders {
                month_day_hour_minute_second: true,
                ..none
            },
        ),
        (
            ["3112123045", "1312235959", "3110003300"],
            DayOrders {
                day_month_hour_minute_second: true,
                ..none
            },
        ),
        (["1714523404", "1714523464", "1714523524"], none),
    ] {
        assert!(&rt; orders_of(texts) == expected, "{texts:?}");
    }
    assert!(&rt; DayOrders::all().is_any(), "all orders");
    assert!(&rt; !orders_in("2024050112.5").is_any(), "half a second");
}
