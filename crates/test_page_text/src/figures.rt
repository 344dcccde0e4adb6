// Tests of numbers. What is expected was computed by the functions of formats.py that have the same names.

use crate::written::is_written;
use page_text::{
    Places, push_count_with_share, push_days, push_fixed, push_fixes, push_hectares, push_interval,
    push_share_of_area, push_share_of_fixes, push_three_digits, push_with_sign,
};
use range_plane::Scale;

// Quotients.
const FIXED: [(u64, u64, Places, &str); 17] = [
    (0, 1, Places::Whole, "0"),
    (1, 2, Places::Whole, "1"),
    (3, 2, Places::Whole, "2"),
    (5, 2, Places::Whole, "3"),
    (1, 3, Places::Hundredths, "0.33"),
    (2, 3, Places::Hundredths, "0.67"),
    (1_995, 1_000, Places::Hundredths, "2.00"),
    (1_994, 1_000, Places::Hundredths, "1.99"),
    (1, 200, Places::Hundredths, "0.01"),
    (1, 201, Places::Hundredths, "0.00"),
    (1, 20, Places::Tenths, "0.1"),
    (1, 21, Places::Tenths, "0.0"),
    (999, 1, Places::Whole, "999"),
    (1_000, 1, Places::Whole, "1,000"),
    (999_950, 100, Places::Tenths, "9,999.5"),
    (19_999, 20, Places::Tenths, "1,000.0"),
    (1_234_567, 1, Places::Whole, "1,234,567"),
];

// Parts of 1000, with three digits.
const THREE_DIGITS: [(u64, &str); 9] = [
    (1, "0.00"),
    (5, "0.01"),
    (9_994, "9.99"),
    (9_995, "10.00"),
    (10_000, "10.0"),
    (99_949, "99.9"),
    (99_950, "100.0"),
    (100_000, "100"),
    (1_234_567, "1,235"),
];

// Doubled areas, without the sign of hectares and with it.
const AREAS: [(u64, Scale, &str, &str); 15] = [
    (0, Scale::Metre, "0", "0 ha"),
    (1, Scale::Metre, "0.50 m²", "0.50 m²"),
    (6_912, Scale::Metre, "3,456 m²", "3,456 m²"),
    (19_999, Scale::Metre, "10,000 m²", "10,000 m²"),
    (20_000, Scale::Metre, "1.00", "1.00 ha"),
    (468_000, Scale::Metre, "23.4", "23.4 ha"),
    (26_049_999, Scale::Metre, "1,302", "1,302 ha"),
    (26_050_000, Scale::Metre, "1,303", "1,303 ha"),
    (0, Scale::Decimetre, "0", "0 ha"),
    (1, Scale::Decimetre, "0.01 m²", "0.01 m²"),
    (691_200, Scale::Decimetre, "3,456 m²", "3,456 m²"),
    (1_999_999, Scale::Decimetre, "10,000 m²", "10,000 m²"),
    (2_000_000, Scale::Decimetre, "1.00", "1.00 ha"),
    (4_680_000, Scale::Decimetre, "2.34", "2.34 ha"),
    (
        36_028_797_018_963_968,
        Scale::Decimetre,
        "18,014,398,509",
        "18,014,398,509 ha",
    ),
];

// Seconds, as days.
const DAYS: [(u64, &str); 10] = [
    (0, "0.0"),
    (4_319, "0.0"),
    (4_320, "0.1"),
    (302_400, "3.5"),
    (863_999, "10.0"),
    (864_000, "10"),
    (907_199, "10"),
    (907_200, "11"),
    (3_196_800, "37"),
    (1_099_511_627_776, "12,725,829"),
];

// Twice the seconds of lengths of time.
const INTERVALS: [(Option<u64>, &str); 16] = [
    (None, "–"),
    (Some(0), "0 s"),
    (Some(1), "1 s"),
    (Some(89), "45 s"),
    (Some(90), "45 s"),
    (Some(199), "100 s"),
    (Some(200), "2 min"),
    (Some(3_600), "30 min"),
    (Some(11_999), "100 min"),
    (Some(12_000), "1.7 h"),
    (Some(18_000), "2.5 h"),
    (Some(719_999), "100.0 h"),
    (Some(720_000), "4.2 d"),
    (Some(1_088_640), "6.3 d"),
    (Some(2_199_023_255_552), "12,725,829.0 d"),
    (Some(u64::MAX), "106,751,991,167,300.6 d"),
];

// Fixes of some, as shares.
const SHARES_OF_FIXES: [(u64, u64, &str); 16] = [
    (0, 1, "0 %"),
    (1, 1, "100 %"),
    (4, 1_000, "<1 %"),
    (5, 1_000, "1 %"),
    (14, 1_000, "1 %"),
    (15, 1_000, "2 %"),
    (994, 1_000, "99 %"),
    (995, 1_000, ">99 %"),
    (1_000, 1_000, "100 %"),
    (85, 274, "31 %"),
    (1, 200, "1 %"),
    (1, 201, "<1 %"),
    (199, 200, ">99 %"),
    (1, 2, "50 %"),
    (1_048_575, 1_048_576, ">99 %"),
    (9_223_372_036_854_775_808, u64::MAX, "50 %"),
];

// Fixes of some, with their share. What is expected was written as `Overlaps.text` of page_tables.py does.
const COUNTS: [(u64, u64, &str); 5] = [
    (0, 274, "0"),
    (1, 274, "1 (<1\u{A0}%)"),
    (85, 274, "85 (31\u{A0}%)"),
    (1_234, 1_240, "1,234 (>99\u{A0}%)"),
    (2, 2, "2 (100\u{A0}%)"),
];

// Areas of others, as shares.
const SHARES_OF_AREAS: [(u64, u64, &str); 7] = [
    (0, 0, "–"),
    (5, 0, "–"),
    (0, 3, "0.0 %"),
    (1, 3, "33.3 %"),
    (1, 2_000, "0.1 %"),
    (1, 2_001, "0.0 %"),
    (123_456, 100, "123,456.0 %"),
];

#[test]
fn quotients_are_rounded_once(rt: HostRuntime) {
    for (part, whole, places, expected) in FIXED {
        let mut text = Vec::new(rt.alloc());
        let pushed = push_fixed(
            &mut text,
            u128::from(part),
            u128::from(whole.max(1)),
            places,
        );
        assert!(rt;
            is_written(&text, pushed, expected.as_bytes()),
            "{part} of {whole}"
        );
    }
}

#[test]
fn quotients_have_three_digits(rt: HostRuntime) {
    for (part, expected) in THREE_DIGITS {
        let mut text = Vec::new(rt.alloc());
        let pushed = push_three_digits(&mut text, u128::from(part), 1_000);
        assert!(rt;
            is_written(&text, pushed, expected.as_bytes()),
            "{part} of 1000"
        );
    }
}

#[test]
fn areas_are_hectares_or_square_metres(rt: HostRuntime) {
    for (area2, unit, expected, signed) in AREAS {
        let mut text = Vec::new(rt.alloc());
        let pushed = push_hectares(&mut text, u128::from(area2), unit);
        assert!(rt;
            is_written(&text, pushed, expected.as_bytes()),
            "{area2} {unit}"
        );
        let mut own = Vec::new(rt.alloc());
        let pushed = push_with_sign(&mut own, u128::from(area2), unit);
        assert!(rt;
            is_written(&own, pushed, signed.as_bytes()),
            "{area2} {unit}, signed"
        );
    }
}

#[test]
fn counts_of_fixes_have_their_word(rt: HostRuntime) {
    for (count, expected) in [
        (0, "0 fixes"),
        (1, "1 fix"),
        (2, "2 fixes"),
        (1_234, "1,234 fixes"),
    ] {
        let mut text = Vec::new(rt.alloc());
        let pushed = push_fixes(&mut text, count);
        assert!(rt; is_written(&text, pushed, expected.as_bytes()), "{count}");
    }
}

#[test]
fn days_have_tenths_below_ten(rt: HostRuntime) {
    for (seconds, expected) in DAYS {
        let mut text = Vec::new(rt.alloc());
        let pushed = push_days(&mut text, seconds);
        assert!(rt;
            is_written(&text, pushed, expected.as_bytes()),
            "{seconds} s"
        );
    }
}

#[test]
fn lengths_of_time_have_their_unit(rt: HostRuntime) {
    for (seconds2, expected) in INTERVALS {
        let mut text = Vec::new(rt.alloc());
        let pushed = push_interval(&mut text, seconds2);
        assert!(rt;
            is_written(&text, pushed, expected.as_bytes()),
            "{seconds2:?}"
        );
    }
}

#[test]
fn shares_of_fixes_are_neither_nothing_nor_all(rt: HostRuntime) {
    for (count, all, expected) in SHARES_OF_FIXES {
        let mut text = Vec::new(rt.alloc());
        let pushed = push_share_of_fixes(&mut text, count, all.max(1));
        assert!(rt;
            is_written(&text, pushed, expected.as_bytes()),
            "{count} of {all}"
        );
    }
}

#[test]
fn counts_have_their_share(rt: HostRuntime) {
    for (count, all, expected) in COUNTS {
        let mut text = Vec::new(rt.alloc());
        let pushed = push_count_with_share(&mut text, count, all.max(1));
        assert!(rt;
            is_written(&text, pushed, expected.as_bytes()),
            "{count} of {all}"
        );
    }
}

#[test]
fn shares_of_areas_are_tenths(rt: HostRuntime) {
    for (part, whole, expected) in SHARES_OF_AREAS {
        let mut text = Vec::new(rt.alloc());
        let pushed = push_share_of_area(&mut text, u128::from(part), u128::from(whole));
        assert!(rt;
            is_written(&text, pushed, expected.as_bytes()),
            "{part} of {whole}"
        );
    }
}
