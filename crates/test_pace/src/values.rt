// Tests of the values of the options. What is expected was computed by Python's `fractions` and regular expressions, by the
// rules: a number is digits, with a point and one to six more digits or neither; a speed is at most 1,000,000 m/s, and a length
// is a whole number of seconds from 1 to 2^40 - 1.

use split_pace::{LENGTH_LIMIT, SPEED_LIMIT, Speed, ValueFault, length_of, speed_of};

#[test]
fn speeds_are_decimals(rt: HostRuntime) {
    for (text, expected) in [
        (b"2".as_slice(), Ok(2_000_000)),
        (b"0", Ok(0)),
        (b"0.0", Ok(0)),
        (b"00002.50", Ok(2_500_000)),
        (b"0.000001", Ok(1)),
        (b"1000000", Ok(1_000_000_000_000)),
        (b"1000000.0", Ok(1_000_000_000_000)),
        (b"1000000.000001", Err(ValueFault::TooGreat)),
        (b"999999.999999", Ok(999_999_999_999)),
        (b"1000001", Err(ValueFault::TooGreat)),
        (b"1099511627776", Err(ValueFault::TooGreat)),
        (b"99999999999999999999999999", Err(ValueFault::TooGreat)),
        (b"0.0000001", Err(ValueFault::MoreThanSixDecimals)),
        (b"2.0000000", Err(ValueFault::MoreThanSixDecimals)),
        (b"", Err(ValueFault::NotNumber)),
        (b".", Err(ValueFault::NotNumber)),
        (b" 2", Err(ValueFault::NotNumber)),
        (b"2 ", Err(ValueFault::NotNumber)),
        (b"+2", Err(ValueFault::NotNumber)),
        (b"-2", Err(ValueFault::NotNumber)),
        (b"2.", Err(ValueFault::NotNumber)),
        (b".5", Err(ValueFault::NotNumber)),
        (b"1e3", Err(ValueFault::NotNumber)),
        (b"2,5", Err(ValueFault::NotNumber)),
        (b"2.5.1", Err(ValueFault::NotNumber)),
        (b"1_000", Err(ValueFault::NotNumber)),
        (b"2.a", Err(ValueFault::NotNumber)),
        (b"2.abcdefgh", Err(ValueFault::NotNumber)),
        (b"inf", Err(ValueFault::NotNumber)),
        (
            b"12345678901234567890123.1234567",
            Err(ValueFault::MoreThanSixDecimals),
        ),
    ] {
        let expected = expected.map(|millionths| Speed { millionths });
        assert!(rt; speed_of(text) == expected, "{text:?}");
    }
}

#[test]
fn lengths_are_whole_seconds(rt: HostRuntime) {
    for (text, expected) in [
        (b"2h".as_slice(), Ok(7_200)),
        (b"30min", Ok(1_800)),
        (b"90s", Ok(90)),
        (b"1.5h", Ok(5_400)),
        (b"0.000278h", Err(ValueFault::NotWholeSeconds)),
        (b"0.25min", Ok(15)),
        (b"1s", Ok(1)),
        (b"0.5s", Err(ValueFault::LessThanASecond)),
        (b"0.999999s", Err(ValueFault::LessThanASecond)),
        (b"1.5s", Err(ValueFault::NotWholeSeconds)),
        (b"0.0001h", Err(ValueFault::LessThanASecond)),
        (b"0h", Err(ValueFault::LessThanASecond)),
        (b"0min", Err(ValueFault::LessThanASecond)),
        (b"1099511627775s", Ok(1_099_511_627_775)),
        (b"1099511627775.5s", Err(ValueFault::NotWholeSeconds)),
        (b"1099511627776s", Err(ValueFault::TooGreat)),
        (b"305419896h", Ok(1_099_511_625_600)),
        (b"305419896.604h", Err(ValueFault::NotWholeSeconds)),
        (b"305419897h", Err(ValueFault::TooGreat)),
        (b"18325193796min", Ok(1_099_511_627_760)),
        (b"", Err(ValueFault::NoUnit)),
        (b"h", Err(ValueFault::NotNumber)),
        (b"min", Err(ValueFault::NotNumber)),
        (b"2", Err(ValueFault::NoUnit)),
        (b"2.0", Err(ValueFault::NoUnit)),
        (b"2 h", Err(ValueFault::NoUnit)),
        (b" 2h", Err(ValueFault::NoUnit)),
        (b"2H", Err(ValueFault::NoUnit)),
        (b"2hours", Err(ValueFault::NoUnit)),
        (b"2m", Err(ValueFault::NoUnit)),
        (b"2hs", Err(ValueFault::NoUnit)),
        (b"-2h", Err(ValueFault::NoUnit)),
        (b"2.h", Err(ValueFault::NotNumber)),
        (b".5h", Err(ValueFault::NotNumber)),
        (b"1e3s", Err(ValueFault::NoUnit)),
        (b"2.5.1h", Err(ValueFault::NotNumber)),
        (b"0.0000001h", Err(ValueFault::MoreThanSixDecimals)),
        (b"2minh", Err(ValueFault::NoUnit)),
        (b"2.1234567h", Err(ValueFault::MoreThanSixDecimals)),
    ] {
        assert!(rt; length_of(text) == expected, "{text:?}");
    }
}

#[test]
fn limits_are_named(rt: HostRuntime) {
    assert!(rt; SPEED_LIMIT == 1_000_000_000_000, "of speeds");
    assert!(rt; LENGTH_LIMIT == 1_099_511_627_775, "of lengths");
}
