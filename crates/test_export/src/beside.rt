// Tests of longitudes and latitudes that are not read, beside coordinates that are. What is expected is known from how the tables are made.

use range_plane::Scale;
use split_export::{BothPlaces, are_turned, count_apart, first_of_both, lie_otherwise};
use split_reading::{Row, Told, ToldFix};
use split_table::TableText;
use split_times::Moment;
use split_titles::Pair;
use split_tracks::Reason;
use std::test::Fail;

// Trillionths of a degree.
const DEGREE: i64 = 1_000_000_000_000;

// The columns of degrees that are not read.
const BESIDE: Pair = Pair {
    first: 0,
    second: 1,
};

// A record that tells of a fix of these coordinates.
fn fix(metres: Option<(i64, i64)>, degrees: Option<(i64, i64)>) -> Row {
    Row {
        animal: Some(0),
        sensor: 0,
        told: Told::Fix(ToldFix {
            moment: Moment {
                second: 1,
                nanosecond: 0,
            },
            is_local: false,
            is_twice: false,
            metres,
            degrees,
            zone: None,
            is_used: true,
            is_of_sensor: true,
            has_class: false,
            left_for: None,
        }),
    }
}

// Whole degrees in trillionths.
fn trillionths(degrees: (i64, i64)) -> (i64, i64) {
    (
        degrees.0.saturating_mul(DEGREE),
        degrees.1.saturating_mul(DEGREE),
    )
}

// A fix at a place of a plane, by so many sixteenths of its coordinates, and with its axes swapped or not.
fn placed(place: (i64, i64), sixteenths: i64, is_swapped: bool) -> Row {
    let east = place.0.saturating_mul(sixteenths) / 16;
    let north = place.1.saturating_mul(sixteenths) / 16;
    fix(
        Some(if is_swapped {
            (north, east)
        } else {
            (east, north)
        }),
        None,
    )
}

// A record without coordinates.
const NO_FIX: Row = Row {
    animal: Some(0),
    sensor: 0,
    told: Told::LeftOut(Reason::Coordinates),
};

// A table of the degrees 14 E 46 N and 15 E 47 N.
const TABLE: &[u8] = b"lon,lat\n14,46\n15,47\n";

#[test]
fn degrees_with_axes_swapped_or_without_signs_are_turned(rt: HostRuntime) -> Result<(), Fail> {
    for (first, second, is_turned, apart) in [
        ((14, 46), (15, 47), false, 0),
        ((46, 14), (47, 15), true, 2),
        ((-14, 46), (-15, 47), true, 2),
        ((46, -14), (47, -15), true, 2),
        // Not all are turned, or some lie elsewhere.
        ((46, 14), (15, 47), false, 1),
        ((46, 14), (48, 15), false, 2),
    ] {
        let rows = [
            fix(None, Some(trillionths(first))),
            fix(None, Some(trillionths(second))),
        ];
        let text = TableText::new(TABLE)?;
        let turned = are_turned(rt.alloc(), &text, BESIDE, &rows)?;
        let count = count_apart(rt.alloc(), &text, BESIDE, &rows)?;
        assert!(&rt; turned == is_turned, "turned, of {first:?}");
        assert!(&rt; count == apart, "apart, of {first:?}");
    }
    Ok(())
}

#[test]
fn the_first_fix_with_both_places_is_found(rt: HostRuntime) -> Result<(), Fail> {
    let rows = [NO_FIX, fix(Some((1, 2)), None)];
    let text = TableText::new(TABLE)?;
    let both = first_of_both(rt.alloc(), &text, BESIDE, &rows)?;
    let second = BothPlaces {
        metres: (1, 2),
        degrees: trillionths((15, 47)),
    };
    assert!(&rt; both == Some(second), "the second");
    let none = first_of_both(rt.alloc(), &text, BESIDE, &[NO_FIX, NO_FIX])?;
    assert!(&rt; none.is_none(), "none");
    Ok(())
}

#[test]
fn metres_lie_otherwise_where_they_are_those_of_another_plane(rt: HostRuntime) -> Result<(), Fail> {
    // At the equator a thousandth of a degree is some 111 m.
    let table = b"lon,lat\n14.00000,0\n14.01,0\n14.01,0.01\n14,0.02\n";
    let text = TableText::new(table)?;
    for (sixteenths, is_swapped, expected) in [
        (16, false, false),
        (18, false, true),
        (32, false, true),
        (16, true, true),
    ] {
        let rows = [
            placed((0, 0), sixteenths, is_swapped),
            placed((1112, 0), sixteenths, is_swapped),
            placed((1112, 1112), sixteenths, is_swapped),
            placed((0, 2224), sixteenths, is_swapped),
        ];
        let lie = lie_otherwise(rt.alloc(), &text, BESIDE, Scale::Metre, &rows)?;
        assert!(&rt; lie == expected, "{sixteenths} sixteenths");
    }
    Ok(())
}
