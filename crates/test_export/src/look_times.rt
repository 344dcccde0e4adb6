// Tests of a second look at the times of a table. What is expected is computed by hand.

use range_plane::Scale;
use split_export::{column_of_times, look_at_times};
use split_filters::Filters;
use split_reading::{Row, Rules, Told, ToldFix};
use split_table::TableText;
use split_times::{DayOrders, Forms, Moment};
use split_titles::{Marks, Pair};
use split_tracks::Reason;
use std::test::Fail;

// How a table is read whose columns are an animal, a time, an easting and a northing.
const RULES: Rules<'static, 'static> = Rules {
    width: 4,
    missing: &[],
    has_commas: false,
    animal: &[0],
    name: b"animal",
    time: &[1],
    is_second: false,
    forms: None,
    clock: None,
    metres: Some(Pair {
        first: 2,
        second: 3,
    }),
    degrees: None,
    zone: None,
    marks: Marks {
        usage: None,
        visible: None,
        manual_outlier: None,
        algorithm_outlier: None,
        import_outlier: None,
        manual_valid: None,
    },
    sensor: None,
    class: None,
    dop: None,
    fix_type: None,
    filters: Filters {
        sensors: &[],
        classes: &[],
        most_dop: None,
        types: &[],
        since: None,
        until: None,
    },
    unit: Scale::Metre,
    skips_unnamed: false,
};

// A record that tells of a fix of this second.
fn fix(second: u64) -> Row {
    Row {
        animal: Some(0),
        sensor: 0,
        told: Told::Fix(ToldFix {
            moment: Moment {
                second,
                nanosecond: 0,
            },
            is_local: false,
            is_twice: false,
            metres: Some((1, 2)),
            degrees: None,
            zone: None,
            is_used: true,
            is_of_sensor: true,
            has_class: false,
            left_for: None,
        }),
    }
}

// A record without coordinates.
const NO_FIX: Row = Row {
    animal: Some(0),
    sensor: 0,
    told: Told::LeftOut(Reason::Coordinates),
};

// Both orders in which a year stands first.
const YEAR_FIRST: DayOrders = DayOrders {
    year_month_day_hour: true,
    year_day_month_hour: true,
    day_month_year_hour: false,
    month_day_year_hour: false,
    short_year_month_day_hour_minute: false,
    day_month_short_year_hour_minute: false,
    month_day_short_year_hour_minute: false,
    month_day_hour_minute_second: false,
    day_month_hour_minute_second: false,
};

#[test]
fn numbers_that_may_all_be_days_are_found(rt: HostRuntime) -> Result<(), Fail> {
    // 12 o'clock of 1 May 2024 or of 5 January, and 13 o'clock of 2 May or of 5 February.
    let (first, second) = (fix(2_024_050_112), fix(2_024_050_213));
    // 20 o'clock of 15 November 2024, which has no month 15.
    let late = fix(2_024_111_520);
    let month_second = DayOrders {
        year_day_month_hour: false,
        ..YEAR_FIRST
    };
    // A second of 2024 that is no day with hours, since it would have the hour 61.
    let sure = fix(1_714_523_561);
    // Midnight of 2 May 2024.
    let iso = fix(1_714_608_000);
    for (bytes, rows, expected) in [
        (
            b"a,t,x,y\nf,2024050112,1,2\nf,2024050213,1,2\n".as_slice(),
            [first, second],
            Some((1, YEAR_FIRST)),
        ),
        (
            b"a,t,x,y\nf,2024050112,1,2\nf,2024111520,1,2\n",
            [first, late],
            Some((1, month_second)),
        ),
        (
            b"a,t,x,y\nf,2024050112,1,2\nf,1714523561,1,2\n",
            [first, sure],
            None,
        ),
        // Where the first has no place, the second alone counts.
        (
            b"a,t,x,y\nf,1714523561,,\nf,2024050213,1,2\n",
            [NO_FIX, second],
            Some((2, YEAR_FIRST)),
        ),
        // A text of ISO does not tell what the number is, before it or behind it.
        (
            b"a,t,x,y\nf,2024050112,1,2\nf,2024-05-02,1,2\n",
            [first, iso],
            Some((1, YEAR_FIRST)),
        ),
        (
            b"a,t,x,y\nf,2024-05-02,1,2\nf,2024050112,1,2\n",
            [iso, first],
            Some((2, YEAR_FIRST)),
        ),
        // Texts of ISO are no numbers, whatever seconds they are: 2034-02-20 12:15:12 is the second 2024050512.
        (
            b"a,t,x,y\nf,2034-02-20 12:15:12,1,2\nf,2024-05-02,1,2\n",
            [fix(2_024_050_512), iso],
            None,
        ),
    ] {
        let text = TableText::new(bytes)?;
        let look = look_at_times(rt.alloc(), &text, &RULES, b"", &rows)?;
        assert!(&rt; look.day == expected, "{bytes:?}");
    }
    Ok(())
}

#[test]
fn seconds_of_ones_own_are_no_days(rt: HostRuntime) -> Result<(), Fail> {
    let seconds = Rules {
        is_second: true,
        ..RULES
    };
    let text = TableText::new(b"a,second,x,y\nf,2024050112,1,2\n")?;
    let look = look_at_times(rt.alloc(), &text, &seconds, b"", &[fix(2_024_050_112)])?;
    assert!(&rt; look.day.is_none(), "seconds of one's own");
    Ok(())
}

// Forms of days.
const FORMS: &[u8] = b"%d.%m.%Y|%Y/%m/%d|%Y-%m-%d";

#[test]
fn forms_that_are_used_are_found(rt: HostRuntime) -> Result<(), Fail> {
    let rules = Rules {
        forms: Some(Forms::new(FORMS)?),
        ..RULES
    };
    let text = TableText::new(b"a,t,x,y\nf,2024-05-01,1,2\nf,2.5.2024,1,2\n")?;
    let look = look_at_times(rt.alloc(), &text, &rules, FORMS, &[fix(1), fix(2)])?;
    assert!(&rt;
        look.forms.as_slice() == [true, false, true].as_slice(),
        "the first and the last"
    );
    let look = look_at_times(rt.alloc(), &text, &rules, FORMS, &[NO_FIX, fix(2)])?;
    assert!(&rt;
        look.forms.as_slice() == [true].as_slice(),
        "the first alone"
    );
    Ok(())
}

#[test]
fn times_that_may_have_lost_a_zero_are_found(rt: HostRuntime) -> Result<(), Fail> {
    for (form, bytes, expected) in [
        // Half past seven as a number, and three minutes past seven.
        (
            b"%Y-%m-%d %H.%M".as_slice(),
            b"a,t,x,y\nf,2024-05-01 7.03,1,2\nf,2024-05-01 7.3,1,2\n".as_slice(),
            Some(2),
        ),
        (
            b"%Y-%m-%d %H.%M",
            b"a,t,x,y\nf,2024-05-01 7.03,1,2\nf,2024-05-01 7.30,1,2\n",
            None,
        ),
        // The hundredth day of a year, or the first.
        (
            b"%Y.%j",
            b"a,t,x,y\nf,2024.1,1,2\nf,2024.101,1,2\n",
            Some(1),
        ),
        // The third of January, or of October; but one of these has all digits.
        (
            b"%d.%m %Y",
            b"a,t,x,y\nf,2.11 2024,1,2\nf,3.1 2024,1,2\n",
            Some(2),
        ),
        (
            b"%d.%m %Y",
            b"a,t,x,y\nf,3.10 2024,1,2\nf,3.1 2024,1,2\n",
            None,
        ),
    ] {
        let rules = Rules {
            forms: Some(Forms::new(form)?),
            ..RULES
        };
        let text = TableText::new(bytes)?;
        let look = look_at_times(rt.alloc(), &text, &rules, form, &[fix(1), fix(2)])?;
        assert!(&rt; look.without_zero == expected, "{bytes:?}");
    }
    Ok(())
}

#[test]
fn a_column_of_times_is_found(rt: HostRuntime) -> Result<(), Fail> {
    let rules = Rules {
        time: &[],
        missing: &[b"-9999".as_slice(), b"2024-05-03".as_slice()],
        ..RULES
    };
    for (bytes, columns, count, expected) in [
        (
            b"a,x,when\nf,1,2024-05-01 00:30\nf,2,\nf,3,2024-05-02\n".as_slice(),
            [1, 2].as_slice(),
            3,
            Some(2),
        ),
        (
            b"born,x,when\n2020-01-01,1,2024-05-01\n,2,2024-05-02\n",
            &[0, 1, 2],
            2,
            Some(0),
        ),
        // The first column is read.
        (
            b"born,x,when\n2020-01-01,1,2024-05-01\n,2,2024-05-02\n",
            &[2],
            2,
            Some(2),
        ),
        (
            b"born,x,when\n2020-01-01,1,soon\n,2,2024-05-02\n",
            &[2],
            2,
            None,
        ),
        // A word that is named is missing, and so is a day that is named.
        (b"a,x,when\nf,1,-9999\nf,2,2024-05-02\n", &[2], 2, Some(2)),
        (b"a,x,when\nf,1,2024-05-03\nf,2,NA\n", &[2], 2, None),
        (b"a,x,when\nf,1,-999\nf,2,2024-05-02\n", &[2], 2, None),
        (b"a,x,when\nf,1,2024-05-01\nf,2,soon\n", &[2], 2, None),
        (b"a,x,when\nf,1,\nf,2,NA\n", &[2], 2, None),
        (b"a,x,when\nf,1,2024-05-01\n", &[], 1, None),
    ] {
        let text = TableText::new(bytes)?;
        let found = column_of_times(rt.alloc(), &text, &rules, columns, count)?;
        assert!(&rt; found == expected, "{bytes:?}");
    }
    Ok(())
}
