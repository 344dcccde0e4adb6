// Tests of texts under forms of times. Expected seconds are calendar.timegm(datetime.strptime(text, form).timetuple()) in
// Python, whose form and text have no decimals and four digits of the year where it reads fewer.

use split_times::{FormTime, Forms, LocalTime, TimeFault};
use std::process::Abort;
use std::test::Fail;

// Checks what a text is under forms.
fn expect(rt: &impl Abort, forms: &str, text: &str, expected: Result<FormTime, TimeFault>) {
    let found = match Forms::new(forms.as_bytes()) {
        Ok(forms) => forms.time(text.as_bytes()),
        Err(_) => Err(TimeFault::Before1970),
    };
    assert!(rt; found == expected, "{text:?} as {forms}");
}

// The time of a form among several.
fn at(second: i64, nanosecond: u32, form: usize) -> Result<FormTime, TimeFault> {
    let time = LocalTime { second, nanosecond };
    Ok(FormTime { time, form })
}

#[test]
fn texts_have_the_times_that_python_has(rt: HostRuntime) {
    for (form, text, second) in [
        ("%Y-%m-%d %H:%M:%S", "2024-05-01 00:30:04", 1_714_523_404),
        ("%d.%m.%Y %H:%M:%S", "01.05.2024 00:30:04", 1_714_523_404),
        ("%d.%m.%Y %H:%M:%S", "1.5.2024 0:3:4", 1_714_521_784),
        ("%d.%m.%Y %H:%M:%S", "29.2.2024 23:59:59", 1_709_251_199),
        (
            "%m/%d/%Y %I:%M:%S %p",
            "5/1/2024 12:30:04 am",
            1_714_523_404,
        ),
        (
            "%m/%d/%Y %I:%M:%S %p",
            "5/1/2024 12:30:04 PM",
            1_714_566_604,
        ),
        ("%m/%d/%Y %I:%M:%S %p", "5/1/2024 1:00:00 Pm", 1_714_568_400),
        ("%p %I, %d.%m.%y", "AM 11, 1.5.24", 1_714_561_200),
        ("%d %b %Y %H:%M", "1 May 2024 00:30", 1_714_523_400),
        ("%d %b %Y %H:%M", "1 MAY 2024 00:30", 1_714_523_400),
        ("%b %d %Y", "dEC 31 2024", 1_735_603_200),
        ("%d-%b-%y", "01-Jan-69", -31_536_000),
        ("%d-%b-%y", "31-Dec-68", 3_124_137_600),
        ("%y%m%d %H", "990228 7", 920_185_200),
        ("%Y %j", "2024 366", 1_735_603_200),
        ("%Y.%j %H:%M", "2023.1 23:59", 1_672_617_540),
        ("%d.%m.%Y %H:%M:%S", "31.12.1969 23:30:00", -1_800),
        ("%d.%m.%Y", "1.1.0001", -62_135_596_800),
        ("%d.%m.%Y", "31.12.9999", 253_402_214_400),
    ] {
        expect(&rt, form, text, at(second, 0, 0));
    }
}

#[test]
fn a_sign_takes_fewer_digits_where_the_rest_needs_them(rt: HostRuntime) {
    for (form, text, second) in [
        ("%Y%m%d%H%M%S", "20240501003004", 1_714_523_404),
        ("%H:%M:%S.%d.%m.%Y", "00:30:04.01.05.2024", 1_714_523_404),
    ] {
        expect(&rt, form, text, at(second, 0, 0));
    }
}

#[test]
fn signs_side_by_side_have_all_their_digits(rt: HostRuntime) {
    for (form, text) in [
        ("%d%m%Y", "1052024"),
        ("%d%m%y", "10524"),
        ("%Y-%m-%d %H%M", "2024-05-01 130"),
        ("%Y-%m-%d %H%M%S", "2024-05-01 00304"),
        ("%Y%j", "202436"),
    ] {
        expect(&rt, form, text, Err(TimeFault::NotTime));
    }
    let second = 1_714_521_600;
    expect(&rt, "%d%m%y", "010524", at(second, 0, 0));
    expect(&rt, "%Y%j", "2024122", at(second, 0, 0));
}

#[test]
fn seconds_have_up_to_nine_decimals(rt: HostRuntime) {
    let form = "%H:%M:%S %d.%m.%Y";
    expect(
        &rt,
        form,
        "0:30:04.25 1.5.2024",
        at(1_714_523_404, 250_000_000, 0),
    );
    expect(
        &rt,
        form,
        "0:30:4.123456789 1.5.2024",
        at(1_714_523_404, 123_456_789, 0),
    );
    for (text, fault) in [
        (
            "0:30:04.1234567890 1.5.2024",
            TimeFault::MoreThanNineDecimals,
        ),
        ("0:30:04. 1.5.2024", TimeFault::NotTime),
        ("0:30:04,25 1.5.2024", TimeFault::NotTime),
        ("0:30.5:04 1.5.2024", TimeFault::NotTime),
    ] {
        expect(&rt, form, text, Err(fault));
    }
}

#[test]
fn other_bytes_stand_for_themselves_in_any_capitals(rt: HostRuntime) {
    for (form, text, is_met) in [
        ("%Y-%m-%dT%HZ", "2024-05-01t00z", true),
        ("%d.%m.%Y \u{2014} %H h", "1.5.2024 \u{2014} 0 H", true),
        ("%Y-%m-%d %", "2024-05-01 %", true),
        ("(%Y)[.]%j", "(2024)[.]122", true),
        ("(%Y)[.]%j", "(2024)x122", false),
        ("%d.%m.%Y \u{e4}%H", "1.5.2024 \u{c4}0", false),
    ] {
        let expected = if is_met {
            at(1_714_521_600, 0, 0)
        } else {
            Err(TimeFault::NotTime)
        };
        expect(&rt, form, text, expected);
    }
}

#[test]
fn other_texts_and_times_that_are_none_are_refused(rt: HostRuntime) {
    for (form, text) in [
        ("%d.%m.%Y", ""),
        ("%d.%m.%Y", "1.5.24"),
        ("%d.%m.%Y", "1.5.2024 "),
        ("%d.%m.%Y", " 1.5.2024"),
        ("%d.%m.%Y", "1.5.20245"),
        ("%d.%m.%Y", "001.5.2024"),
        ("%d.%m.%Y", "\u{664}.5.2024"),
        ("%d.%m.%Y", "0.5.2024"),
        ("%d.%m.%Y", "1.0.2024"),
        ("%d.%m.%Y", "1.13.2024"),
        ("%d.%m.%Y", "31.4.2024"),
        ("%d.%m.%Y", "29.2.2023"),
        ("%d.%m.%y", "1.5.4"),
        ("%d %b %Y", "1 Mai 2024"),
        ("%d %b %Y", "1 June 2024"),
        ("%Y %j", "2024 0"),
        ("%Y %j", "2023 366"),
        ("%Y %j", "2024 367"),
        ("%Y-%m-%d %H:%M", "2024-05-01 24:00"),
        ("%Y-%m-%d %H:%M", "2024-05-01 0:60"),
        ("%Y-%m-%d %H:%M:%S", "2024-05-01 0:0:60"),
        ("%Y-%m-%d %I %p", "2024-05-01 13 pm"),
        ("%Y-%m-%d %I %p", "2024-05-01 0 am"),
        ("%Y-%m-%d %I %p", "2024-05-01 1 xm"),
    ] {
        expect(&rt, form, text, Err(TimeFault::NotTime));
    }
}

#[test]
fn the_first_form_by_which_a_text_is_a_time_counts(rt: HostRuntime) {
    let forms = "%d.%m.%Y|%m.%d.%Y|%Y-%m-%d %H:%M:%S";
    expect(&rt, forms, "5.1.2024", at(1_704_412_800, 0, 0));
    expect(&rt, forms, "5.13.2024", at(1_715_558_400, 0, 1));
    expect(&rt, forms, "2024-05-13 00:00:00", at(1_715_558_400, 0, 2));
    expect(&rt, forms, "13.13.2024", Err(TimeFault::NotTime));
    expect(
        &rt,
        forms,
        "2024-05-13 00:00:00.0000000001",
        Err(TimeFault::MoreThanNineDecimals),
    );
}
