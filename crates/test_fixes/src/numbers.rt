// Tests of numbers in decimal digits.

use range_numbers::{VALUE_LIMIT, value_of};

#[test]
fn digits_up_to_a_limit_have_their_value_and_all_else_has_none(rt: HostRuntime) {
    for (bytes, value) in [
        (b"0".as_slice(), Some(0)),
        (b"100", Some(100)),
        (b"00000000000000000000000000042", Some(42)),
        (b"", None),
        (b"+1", None),
        (b" 1", None),
        (b"1.0", None),
        (b"0000000000000000000000000004x", None),
    ] {
        assert!(rt; value_of(bytes, 100) == value, "{bytes:?}");
    }
}

#[test]
fn values_past_a_limit_are_past_it(rt: HostRuntime) {
    for bytes in [
        b"101".as_slice(),
        b"18446744073709551616",
        b"99999999999999999999999999999",
    ] {
        let value = value_of(bytes, 100);
        assert!(rt; value.is_some_and(|value| value > 100), "{bytes:?}");
    }
}

// The digits are taken in groups, which share some: so digits that stand side by side differ.
#[test]
fn rising_digits_of_each_length_have_their_value(rt: HostRuntime) {
    for (bytes, value) in [
        (b"1".as_slice(), 1),
        (b"12", 12),
        (b"123", 123),
        (b"1234", 1234),
        (b"12345", 12_345),
        (b"123456", 123_456),
        (b"1234567", 1_234_567),
        (b"12345678", 12_345_678),
        (b"123456789", 123_456_789),
        (b"1234567890", 1_234_567_890),
        (b"12345678901", 12_345_678_901),
        (b"123456789012", 123_456_789_012),
        (b"1234567890123", 1_234_567_890_123),
        (b"12345678901234", 12_345_678_901_234),
        (b"123456789012345", 123_456_789_012_345),
        (b"1234567890123456", 1_234_567_890_123_456),
        (b"12345678901234567", 12_345_678_901_234_567),
        (b"123456789012345678", 123_456_789_012_345_678),
    ] {
        assert!(rt;
            value_of(bytes, VALUE_LIMIT - 1) == Some(value),
            "{bytes:?}"
        );
    }
}

#[test]
fn falling_digits_of_each_length_have_their_value(rt: HostRuntime) {
    for (bytes, value) in [
        (b"9".as_slice(), 9),
        (b"98", 98),
        (b"987", 987),
        (b"9876", 9876),
        (b"98765", 98_765),
        (b"987654", 987_654),
        (b"9876543", 9_876_543),
        (b"98765432", 98_765_432),
        (b"987654321", 987_654_321),
        (b"9876543210", 9_876_543_210),
        (b"98765432109", 98_765_432_109),
        (b"987654321098", 987_654_321_098),
        (b"9876543210987", 9_876_543_210_987),
        (b"98765432109876", 98_765_432_109_876),
        (b"987654321098765", 987_654_321_098_765),
        (b"9876543210987654", 9_876_543_210_987_654),
        (b"98765432109876543", 98_765_432_109_876_543),
        (b"987654321098765432", 987_654_321_098_765_432),
    ] {
        assert!(rt;
            value_of(bytes, VALUE_LIMIT - 1) == Some(value),
            "{bytes:?}"
        );
    }
}

// Digits of each length, one of which is this byte: whether any of these texts is a number, and whether all
// are.
fn numbers_with(byte: u8) -> (bool, bool) {
    let mut any = false;
    let mut all = true;
    for index in 0..18usize {
        let mut bytes = *b"123456789012345678";
        bytes[index] = byte;
        for length in index + 1..19 {
            let is_number = value_of(&bytes[..length], VALUE_LIMIT - 1).is_some();
            any |= is_number;
            all &= is_number;
        }
    }
    (any, all)
}

#[test]
fn no_byte_but_a_digit_is_taken_anywhere(rt: HostRuntime) {
    for byte in [0, b' ', b'/', b':', b'a', 0x7F, 0x80, 0xB0, 0xFF] {
        assert!(rt; !numbers_with(byte).0, "{byte}");
    }
    for digit in b'0'..=b'9' {
        assert!(rt; numbers_with(digit).1, "{digit}");
    }
}
