// Tests of decimals in whole units. What is expected was computed by Python's `fractions`.

use range_plane::Scale;
use split_numbers::{is_same_number, trillionths, whole_units};

#[test]
fn decimals_come_to_the_nearest_unit(rt: HostRuntime) {
    for (text, metres, decimetres) in [
        (b"0".as_slice(), Some(0), Some(0)),
        (b"7", Some(7), Some(70)),
        (b"00042", Some(42), Some(420)),
        (b"562123.45", Some(562_123), Some(5_621_235)),
        (b"5112345.678", Some(5_112_346), Some(51_123_457)),
        (b"-562123.45", Some(-562_123), Some(-5_621_234)),
        (b"0.04", Some(0), Some(0)),
        (b"0.05", Some(0), Some(1)),
        (b"0.4", Some(0), Some(4)),
        (b"0.6", Some(1), Some(6)),
        (b"-0.4", Some(0), Some(-4)),
        (b"-0.6", Some(-1), Some(-6)),
        (b"1.9", Some(2), Some(19)),
        (b"-1.9", Some(-2), Some(-19)),
        (b"123.0000", Some(123), Some(1230)),
        (b"-123.9500", Some(-124), Some(-1239)),
        (b"0.9999999999999999999999", Some(1), Some(10)),
        (b"-0.0000000000000000000001", Some(0), Some(0)),
    ] {
        assert!(rt;
            whole_units(text, Scale::Metre, false) == metres,
            "{text:?}"
        );
        assert!(rt;
            whole_units(text, Scale::Decimetre, false) == decimetres,
            "{text:?}"
        );
    }
}

#[test]
fn zeros_and_twelve_digits_are_taken(rt: HostRuntime) {
    for (text, metres, decimetres) in [
        (b"-0".as_slice(), Some(0), Some(0)),
        (b"-0.0", Some(0), Some(0)),
        (b"-000.000", Some(0), Some(0)),
        (
            b"999999999999",
            Some(999_999_999_999),
            Some(9_999_999_999_990),
        ),
        (
            b"-999999999999",
            Some(-999_999_999_999),
            Some(-9_999_999_999_990),
        ),
        (
            b"000000999999999999",
            Some(999_999_999_999),
            Some(9_999_999_999_990),
        ),
        (
            b"999999999999.5",
            Some(1_000_000_000_000),
            Some(9_999_999_999_995),
        ),
        (
            b"-999999999999.5",
            Some(-999_999_999_999),
            Some(-9_999_999_999_995),
        ),
        (
            b"999999999999.95",
            Some(1_000_000_000_000),
            Some(10_000_000_000_000),
        ),
        (
            b"-999999999999.96",
            Some(-1_000_000_000_000),
            Some(-10_000_000_000_000),
        ),
        (
            b"100000000000.1",
            Some(100_000_000_000),
            Some(1_000_000_000_001),
        ),
        (
            b"0000000000000000000000000000000000000001.5",
            Some(2),
            Some(15),
        ),
    ] {
        assert!(rt;
            whole_units(text, Scale::Metre, false) == metres,
            "{text:?}"
        );
        assert!(rt;
            whole_units(text, Scale::Decimetre, false) == decimetres,
            "{text:?}"
        );
    }
}

#[test]
fn half_a_unit_goes_up(rt: HostRuntime) {
    for (text, metres, decimetres) in [
        (b"0.5".as_slice(), Some(1), Some(5)),
        (b"1.5", Some(2), Some(15)),
        (b"2.5", Some(3), Some(25)),
        (b"-0.5", Some(0), Some(-5)),
        (b"-1.5", Some(-1), Some(-15)),
        (b"-2.5", Some(-2), Some(-25)),
        (b"0.50", Some(1), Some(5)),
        (b"-0.500000", Some(0), Some(-5)),
        (b"0.49999999999999999999", Some(0), Some(5)),
        (b"-0.49999999999999999999", Some(0), Some(-5)),
        (b"0.50000000000000000001", Some(1), Some(5)),
        (b"-0.50000000000000000001", Some(-1), Some(-5)),
        (b"0.05", Some(0), Some(1)),
        (b"0.15", Some(0), Some(2)),
        (b"0.25", Some(0), Some(3)),
        (b"-0.05", Some(0), Some(0)),
        (b"-0.15", Some(0), Some(-1)),
        (b"-0.25", Some(0), Some(-2)),
        (b"0.0500", Some(0), Some(1)),
        (b"-0.0500", Some(0), Some(0)),
        (b"0.04999999999999999999", Some(0), Some(0)),
        (b"-0.04999999999999999999", Some(0), Some(0)),
        (b"0.05000000000000000001", Some(0), Some(1)),
        (b"-0.05000000000000000001", Some(0), Some(-1)),
        (b"-0.51", Some(-1), Some(-5)),
        (b"9.95", Some(10), Some(100)),
        (b"-9.95", Some(-10), Some(-99)),
        (b"99.5", Some(100), Some(995)),
        (b"-99.5", Some(-99), Some(-995)),
    ] {
        assert!(rt;
            whole_units(text, Scale::Metre, false) == metres,
            "{text:?}"
        );
        assert!(rt;
            whole_units(text, Scale::Decimetre, false) == decimetres,
            "{text:?}"
        );
    }
}

#[test]
fn all_else_is_no_decimal(rt: HostRuntime) {
    for text in [
        b"".as_slice(),
        b"-",
        b".",
        b"-.",
        b".5",
        b"-.5",
        b"5.",
        b"-5.",
        b"--1",
        b"-+1",
        b"+1",
        b"1-",
        b" 1",
        b"1 ",
        b"- 1",
        b"1,5",
        b"1.234,5",
        b"1 234",
        b"1'234",
        b"1.2.3",
        b"1..2",
        b"1e5",
        b"1E5",
        b"1.5e3",
        b"0x10",
        b"1_000",
        b"NaN",
        b"inf",
        b"-inf",
        b"1/2",
        b"1:2",
        b"1.5/",
        b"1.5:",
        b"1.x",
        b"1.5x",
        b"x1",
        b"\x001",
        b"1\x00",
        b"1\xb2",
        b"\xd9\xa1",
        b"\xff",
        b"\xe2\x88\x921",
        b"1.5\x0a",
        b"1000000000000",
        b"-1000000000000",
        b"0001000000000000",
        b"1000000000000.5",
        b"9999999999999",
        b"99999999999999999999999999999999",
    ] {
        assert!(rt;
            whole_units(text, Scale::Metre, false).is_none(),
            "{text:?}"
        );
        assert!(rt;
            whole_units(text, Scale::Decimetre, false).is_none(),
            "{text:?}"
        );
    }
}

// Half a unit, so many zeros, and a last digit: alone it makes a negative number come to one more.
#[test]
fn a_hundred_thousand_decimals_are_read_to_the_last(rt: HostRuntime) {
    let mut text = [b'0'; 100_004];
    text[0] = b'-';
    text[1] = b'7';
    text[2] = b'.';
    text[3] = b'5';
    assert!(rt; whole_units(&text, Scale::Metre, false) == Some(-7));
    assert!(rt; whole_units(&text, Scale::Decimetre, false) == Some(-75));
    text[100_003] = b'1';
    assert!(rt; whole_units(&text, Scale::Metre, false) == Some(-8));
    assert!(rt; whole_units(&text, Scale::Decimetre, false) == Some(-75));
    assert!(rt; whole_units(&text[1..], Scale::Metre, false) == Some(8));
    text[100_003] = b'x';
    assert!(rt; whole_units(&text, Scale::Metre, false).is_none());
    assert!(rt; whole_units(&text[1..], Scale::Decimetre, false).is_none());
}

#[test]
fn trillionths_are_the_nearest(rt: HostRuntime) {
    for (text, count) in [
        (b"0".as_slice(), 0),
        (b"-0.0", 0),
        (b"15.805899", 15_805_899_000_000),
        (b"-180", -180_000_000_000_000),
        (b"46.356742000000", 46_356_742_000_000),
        (b"0.0000000000004", 0),
        (b"0.0000000000005", 1),
        (b"-0.0000000000005", 0),
        (b"-0.00000000000050000001", -1),
        (b"14.1234567890123", 14_123_456_789_012),
        (b"-14.1234567890125", -14_123_456_789_012),
        (b"179.9999999999999", 180_000_000_000_000),
        (b"360", 360_000_000_000_000),
        (b"999999.9999999999999", 1_000_000_000_000_000_000),
        (b"1000000", 1_000_000_000_000_000_000),
        (b"-1000000.5", -1_000_000_000_000_000_000),
        (b"145123456.5", 1_000_000_000_000_000_000),
        (b"-999999999999", -1_000_000_000_000_000_000),
        (b"000000012.5", 12_500_000_000_000),
    ] {
        assert!(rt; trillionths(text, false) == Some(count), "{text:?}");
    }
    for text in [
        b"".as_slice(),
        b"-",
        b"1.",
        b".5",
        b"1e2",
        b"+1",
        b"1,5",
        b"1000000000000",
        b"12.3x",
    ] {
        assert!(rt; trillionths(text, false).is_none(), "{text:?}");
    }
}

#[test]
fn commas_stand_before_decimals_where_they_may(rt: HostRuntime) {
    assert!(rt; whole_units(b"562000,5", Scale::Decimetre, true) == Some(5_620_005));
    assert!(rt; whole_units(b"-1,95", Scale::Metre, true) == Some(-2));
    assert!(rt; whole_units(b"1.95", Scale::Metre, true) == Some(2));
    assert!(rt; trillionths(b"15,805899", true) == Some(15_805_899_000_000));
    for text in [b"1,2,3".as_slice(), b"1.234,5", b"1,234.5", b"1,", b",5"] {
        assert!(rt; whole_units(text, Scale::Metre, true).is_none(), "{text:?}");
    }
    assert!(rt; whole_units(b"562000,5", Scale::Metre, false).is_none());
}

#[test]
fn zeros_behind_its_decimals_do_not_change_a_number(rt: HostRuntime) {
    for (one, other) in [
        (b"-9999".as_slice(), b"-9999".as_slice()),
        (b"-9999", b"-9999.0"),
        (b"-9999.000", b"-9999"),
        (b"999.5", b"999.500"),
        (b"0.10", b"0.1"),
    ] {
        assert!(rt; is_same_number(one, other, false), "{one:?} {other:?}");
    }
    for (one, other) in [
        (b"-9999".as_slice(), b"9999".as_slice()),
        (b"-9999", b"-9999.1"),
        (b"999.5", b"999.05"),
        (b"999.50", b"999.501"),
        (b"1", b"10"),
        (b"1", b"1."),
        (b"x", b"x"),
        (b"9,0", b"9"),
        (b"", b""),
    ] {
        assert!(rt; !is_same_number(one, other, false), "{one:?} {other:?}");
    }
    assert!(rt; is_same_number(b"9,0", b"9", true));
    assert!(rt; is_same_number(b"9,50", b"9.5", true));
    assert!(rt; !is_same_number(b"9,05", b"9.5", true));
}
