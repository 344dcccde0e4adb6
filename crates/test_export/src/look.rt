// Tests of a second look at the records of a table. What is expected is computed by hand.

use range_plane::Scale;
use split_export::{fields_of_record, look_at_metres, most_moved, part_alike, titles_of};
use split_reading::{Row, Told, ToldFix};
use split_table::TableText;
use split_times::Moment;
use split_titles::Pair;
use split_tracks::{Entry, Fate};
use std::test::Fail;

const MOMENT: Moment = Moment {
    second: 0,
    nanosecond: 0,
};

// The columns of metres of the tables of these tests.
const METRES: Pair = Pair {
    first: 1,
    second: 2,
};

// The row of a fix with metres, which is used or not.
fn row(is_used: bool) -> Row {
    Row {
        animal: Some(0),
        sensor: 0,
        told: Told::Fix(ToldFix {
            moment: MOMENT,
            is_local: false,
            is_twice: false,
            metres: Some((0, 0)),
            degrees: None,
            zone: None,
            is_used,
            is_of_sensor: true,
            has_class: false,
            left_for: None,
        }),
    }
}

#[test]
fn the_first_unrounded_fix_is_found(rt: HostRuntime) -> Result<(), Fail> {
    let rows = [row(true), row(true)];
    for (text, expected) in [
        (b"a,x,y\nb,1,2000\nb,3.0,4000\n".as_slice(), None),
        (b"a,x,y\nb,1,2000\nb,3.5,4000\n", Some((1.0, 2000.0))),
        (b"a;x;y\nb;1,25;2000\nb;3;4000\n", Some((1.25, 2000.0))),
    ] {
        let look = look_at_metres(rt.alloc(), &TableText::new(text)?, METRES, &rows)?;
        assert!(&rt; look.unrounded == expected, "{text:?}");
    }
    let text = b"a,x,y\nb,1.5,2000\nb,3,4000\n";
    let look = look_at_metres(
        rt.alloc(),
        &TableText::new(text)?,
        METRES,
        &[row(false), row(true)],
    )?;
    assert!(&rt; look.unrounded.is_none(), "one that is not used");
    Ok(())
}

#[test]
fn signs_that_may_stand_before_thousands_are_found(rt: HostRuntime) -> Result<(), Fail> {
    let rows = [row(true), row(true)];
    for (text, expected) in [
        (
            b"a;x;y\nb;561,234;5102,3\nb;561,300;5102,4\n".as_slice(),
            Some((1, 1)),
        ),
        (b"a,x,y\nb,5.25,999\nb,5.5,-102.345\n", Some((2, 2))),
        (b"a;x;y\nb;561,234;5102,3\nb;561,3;5102,4\n", None),
        (b"a;x;y\nb;561,234;5102,3\nb;5613;5102,4\n", None),
        (b"a,x,y\nb,1561.234,5\nb,12,5\n", None),
        (b"a,x,y\nb,561,234\nb,12,5\n", None),
    ] {
        let look = look_at_metres(rt.alloc(), &TableText::new(text)?, METRES, &rows)?;
        assert!(&rt; look.grouped == expected, "{text:?}");
    }
    Ok(())
}

#[test]
fn rounding_moves_by_the_longest_way(rt: HostRuntime) -> Result<(), Fail> {
    let fate = |easting: i64, northing: i64| Fate::InTrack {
        animal: 0,
        entry: Entry {
            record: 1,
            moment: MOMENT,
            easting,
            northing,
            is_used: true,
        },
    };
    let text = b"a;x;y\nb;1,3;2,4\nb;5;6,1\n";
    let moved = most_moved(
        rt.alloc(),
        &TableText::new(text)?,
        METRES,
        Scale::Metre,
        &[fate(1, 2), fate(5, 6)],
    )?;
    assert!(&rt; 0.499_999 < moved && moved < 0.500_001, "{moved}");
    let moved = most_moved(
        rt.alloc(),
        &TableText::new(text)?,
        METRES,
        Scale::Decimetre,
        &[fate(13, 24), fate(50, 61)],
    )?;
    assert!(&rt; moved < 0.000_001, "{moved}");
    Ok(())
}

#[test]
fn columns_part_records_alike_or_not(rt: HostRuntime) -> Result<(), Fail> {
    let text = TableText::new(b"a,b,c\n1,x,1\n2,y,1\n1,x,2\n")?;
    for (first, second, are_alike) in [(0, 1, true), (0, 2, false), (2, 1, false)] {
        let alike = part_alike(rt.alloc(), &text, 3, first, second)?;
        assert!(&rt; alike == are_alike, "{first} {second}");
    }
    assert!(&rt; part_alike(rt.alloc(), &text, 2, 1, 0)?, "of two records");
    Ok(())
}

#[test]
fn titles_and_fields_are_those_of_the_text(rt: HostRuntime) -> Result<(), Fail> {
    let text = b"\xEF\xBB\xBFa,\"b,c\"\n1,x\n\n2,\"y\"\"z\"\n";
    let titles = titles_of(rt.alloc(), text)?;
    assert!(&rt; titles.len() == 2 && titles[1].as_slice() == b"b,c".as_slice());
    let fields = fields_of_record(rt.alloc(), text, 2)?;
    assert!(&rt; fields.len() == 2 && fields[1].as_slice() == b"y\"z".as_slice());
    assert!(&rt; fields_of_record(rt.alloc(), text, 3)?.is_empty());
    Ok(())
}
