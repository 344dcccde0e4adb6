// Tests of what becomes of records, and of the shift of a local grid.

use range_plane::{Fix, Point, Scale};
use split_fates::{
    Choice, Extent, FatesFault, MarkedFault, extent_of, fates_of, marked_fixes, own_shift,
    project_rows, row_reason, shift_of,
};
use split_files::MarkedFix;
use split_reading::{Row, Told, ToldFix, Zone};
use split_times::Moment;
use split_tracks::{Entry, Fate, Reason};
use std::test::Fail;

const SECOND: Moment = Moment {
    second: 60,
    nanosecond: 5,
};

// The zone 33N.
const ZONE: Zone = Zone {
    number: 33,
    is_south: false,
};

// The row of a fix of animal 0.
fn fix_row(metres: Option<(i64, i64)>, zone: Option<Zone>, is_used: bool) -> Row {
    Row {
        animal: Some(0),
        sensor: 0,
        told: Told::Fix(ToldFix {
            moment: SECOND,
            is_local: false,
            is_twice: false,
            metres,
            degrees: None,
            zone,
            is_used,
            is_of_sensor: true,
            has_class: false,
            left_for: None,
        }),
    }
}

// A choice of fixes of a zone or of all, without marks, in metres.
fn choice(zone: Option<Zone>, keeps_marks: bool) -> Choice {
    Choice {
        keeps_marks,
        zone,
        unit: Scale::Metre,
        shift: (0, 0),
    }
}

// The entry of a record at these metres.
fn entry(record: u32, easting: i64, northing: i64, is_used: bool) -> Entry {
    Entry {
        record,
        moment: SECOND,
        easting,
        northing,
        is_used,
    }
}

// A record that is left out.
fn left(animal: Option<u32>, reason: Reason) -> Fate {
    Fate::LeftOut { animal, reason }
}

#[test]
fn records_have_one_fate_each(rt: HostRuntime) -> Result<(), Fail> {
    let other = Zone {
        number: 33,
        is_south: true,
    };
    let rows = [
        fix_row(Some((500_000, 5_000_000)), Some(ZONE), true),
        Row {
            animal: None,
            sensor: 0,
            told: Told::LeftOut(Reason::Animal),
        },
        fix_row(Some((500_001, 5_000_001)), Some(ZONE), false),
        fix_row(Some((500_002, 5_000_002)), Some(other), false),
        fix_row(None, None, false),
    ];
    let first = Fate::InTrack {
        animal: 0,
        entry: entry(1, 500_000, 5_000_000, true),
    };
    let unmarked = fates_of(rt.alloc(), &choice(Some(ZONE), false), &rows)?;
    let expected = [
        first,
        left(None, Reason::Animal),
        left(Some(0), Reason::Outlier),
        left(Some(0), Reason::Outlier),
        left(Some(0), Reason::Outlier),
    ];
    assert!(&rt; unmarked.as_slice() == expected.as_slice(), "without marks");
    let marked = fates_of(rt.alloc(), &choice(Some(ZONE), true), &rows)?;
    let expected = [
        first,
        left(None, Reason::Animal),
        Fate::InTrack {
            animal: 0,
            entry: entry(3, 500_001, 5_000_001, false),
        },
        left(Some(0), Reason::Grid),
        left(Some(0), Reason::Grid),
    ];
    assert!(&rt; marked.as_slice() == expected.as_slice(), "with marks");
    Ok(())
}

// A row like another, whose fix is of such a sensor and is left out by filters for such a reason.
fn filtered(row: Row, is_of_sensor: bool, left_for: Option<Reason>) -> Row {
    match row.told {
        Told::Fix(fix) => Row {
            told: Told::Fix(ToldFix {
                is_of_sensor,
                left_for,
                ..fix
            }),
            ..row
        },
        Told::LeftOut(_) => row,
    }
}

#[test]
fn a_fix_is_left_out_for_the_first_reason(rt: HostRuntime) -> Result<(), Fail> {
    let used = fix_row(Some((5, 6)), None, true);
    let unused = fix_row(Some((5, 6)), None, false);
    let rows = [
        filtered(used, false, Some(Reason::Dop)),
        filtered(unused, false, None),
        filtered(unused, true, Some(Reason::Class)),
        filtered(used, true, Some(Reason::Before)),
        fix_row(Some((5, 6)), None, true),
    ];
    let reasons = [
        (
            false,
            [
                Some(Reason::Sensor),
                Some(Reason::Sensor),
                Some(Reason::Outlier),
                Some(Reason::Before),
                None,
            ],
        ),
        (
            true,
            [
                Some(Reason::Sensor),
                Some(Reason::Sensor),
                Some(Reason::Class),
                Some(Reason::Before),
                None,
            ],
        ),
    ];
    for (keeps_marks, expected) in reasons {
        let fates = fates_of(rt.alloc(), &choice(None, keeps_marks), &rows)?;
        for ((row, fate), reason) in rows.iter().zip(&fates).zip(expected) {
            assert!(&rt; row_reason(row, keeps_marks) == reason, "{reason:?}");
            let is_left = match *fate {
                Fate::LeftOut { reason, .. } => Some(reason),
                Fate::InTrack { .. } => None,
            };
            assert!(&rt; is_left == reason, "{reason:?}");
        }
    }
    Ok(())
}

// 15.805899 E 46.356742 N in zone 33N by pyproj 3.4.1 with PROJ 9.1.1: 562000.275 E 5134000.765 N.
#[test]
fn longitude_and_latitude_are_projected(rt: HostRuntime) {
    let Row {
        told: Told::Fix(fix),
        ..
    } = fix_row(None, None, true)
    else {
        assert!(rt; false);
        return;
    };
    let with_degrees = |degrees: Option<(i64, i64)>| Row {
        animal: Some(0),
        sensor: 0,
        told: Told::Fix(ToldFix { degrees, ..fix }),
    };
    let mut rows = [
        with_degrees(Some((15_805_899_000_000, 46_356_742_000_000))),
        with_degrees(Some((15_805_899_000_000, 91_000_000_000_000))),
        with_degrees(None),
    ];
    let moved = project_rows(&mut rows, ZONE, Scale::Metre, false);
    let metres = [Some((562_000, 5_134_001)), None, None];
    for (row, expected) in rows.iter().zip(metres) {
        let Told::Fix(fix) = row.told else {
            assert!(rt; false);
            return;
        };
        assert!(rt;
            fix.metres == expected && fix.zone == Some(ZONE),
            "{expected:?}"
        );
    }
    assert!(rt; 0.362 < moved && moved < 0.363, "{moved}");
}

#[test]
fn a_used_fix_off_the_grid_is_a_fault(rt: HostRuntime) {
    for metres in [
        Some((-1, 0)),
        Some((0, -1)),
        Some((16_777_217, 0)),
        Some((0, i64::MAX)),
        None,
    ] {
        let rows = [
            fix_row(Some((0, 16_777_216)), None, true),
            fix_row(metres, None, true),
        ];
        let fates = fates_of(rt.alloc(), &choice(None, false), &rows);
        assert!(&rt;
            fates.err() == Some(FatesFault::OffGrid { record: 2 }),
            "{metres:?}"
        );
    }
}

#[test]
fn a_shift_brings_the_least_within_a_thousand_kilometres(rt: HostRuntime) {
    for (unit, least, most, shift) in [
        (Scale::Metre, 0, 16_777_216, Some(0)),
        (Scale::Metre, -1, 5, Some(1_000_000)),
        (Scale::Metre, -1_000_000, 5, Some(1_000_000)),
        (Scale::Metre, -1_000_001, 5, Some(2_000_000)),
        (Scale::Metre, 20_123_456, 20_200_000, Some(-20_000_000)),
        (Scale::Metre, 0, 16_777_217, None),
        (Scale::Metre, -5, 16_777_216, None),
        (Scale::Metre, i64::MIN, 0, None),
        (Scale::Metre, i64::MAX, i64::MAX, None),
        (Scale::Decimetre, -1, 5, Some(1_000_000)),
        (
            Scale::Decimetre,
            134_217_729,
            134_217_800,
            Some(-13_000_000),
        ),
    ] {
        assert!(rt; shift_of(unit, least, most) == shift, "{least} to {most}");
    }
}

#[test]
fn the_extent_is_that_of_used_fixes(rt: HostRuntime) {
    let rows = [
        fix_row(Some((5, -7)), None, true),
        fix_row(Some((-9_000, 9_000)), None, false),
        fix_row(None, None, true),
        fix_row(Some((-3, 8)), None, true),
    ];
    let extent = Extent {
        least: (-3, -7),
        most: (5, 8),
    };
    assert!(rt; extent_of(&rows) == Some(extent), "of two");
    assert!(rt; extent_of(&rows[1..3]).is_none(), "of none");
}

#[test]
fn a_local_grid_is_shifted_by_axis(rt: HostRuntime) {
    let rows = [
        fix_row(Some((-5, 40_000_000)), None, true),
        fix_row(Some((7, 40_000_009)), None, true),
        fix_row(Some((-9_000_000, 0)), None, false),
    ];
    assert!(rt; own_shift(Scale::Metre, &rows) == (1_000_000, -40_000_000));
    assert!(rt; own_shift(Scale::Decimetre, &rows) == (10_000_000, 0));
    assert!(rt; own_shift(Scale::Metre, &[]) == (0, 0));
}

#[test]
fn fixes_of_a_track_are_shifted(rt: HostRuntime) -> Result<(), Fail> {
    let track = [entry(4, -5, 7, true), entry(9, -6, 8, false)];
    let fixes = marked_fixes(rt.alloc(), &track, (1_000_000, 0))?;
    let expected = [
        MarkedFix {
            fix: Fix {
                second: 60,
                at: Point { e: 999_995, n: 7 },
            },
            is_used: true,
        },
        MarkedFix {
            fix: Fix {
                second: 60,
                at: Point { e: 999_994, n: 8 },
            },
            is_used: false,
        },
    ];
    assert!(&rt; fixes.as_slice() == expected.as_slice(), "shifted");
    let off = marked_fixes(rt.alloc(), &track, (5, 0));
    assert!(&rt;
        off.err() == Some(MarkedFault::OffPlane { record: 9 }),
        "off the plane"
    );
    Ok(())
}
