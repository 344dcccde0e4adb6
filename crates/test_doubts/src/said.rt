// Tests of what is said of odd tracks, and of which columns were taken. Lines were written by hand, places are those of PROJ
// 9.1.1 by pyproj 3.4.1, days those of Python's `datetime`, and normal forms those of its `unicodedata`.

use indexmap::IndexSet;
use range_plane::{OutOfMemory, Scale};
use split_filters::Filters;
use split_reading::{Ledger, Row, Told, ToldFix, Zone};
use split_refusal::Refusal;
use split_said::{Exports, Grid, Said, Sheet, TimesRead, Wanted, check_ledger, tell_files};
use split_times::Moment;
use split_titles::{Columns, Named, find_columns};
use split_tracks::{Entry, Fate, tracks_of};
use std::alloc::{AllocError, Global};
use std::process::Abort;
use std::test::Fail;

// An animal, a second, an easting and a northing, and whether the fix is used.
type Fix = (u32, u64, i64, i64, bool);

// What is asked of a table.
#[derive(Clone, Copy)]
struct Asked {
    unit: Scale,
    zone: Option<Zone>,
    is_projected: bool,
}

const PLAIN: Asked = Asked {
    unit: Scale::Metre,
    zone: None,
    is_projected: false,
};

const IN_DECIMETRES: Asked = Asked {
    unit: Scale::Decimetre,
    ..PLAIN
};

const NO_NAMES: Named<'static> = Named {
    animal: &[],
    time: &[],
    easting: None,
    northing: None,
    lon: None,
    lat: None,
    argos: None,
    dop: None,
    fix: None,
    zone: None,
    has_name: false,
    has_argos_class: false,
    has_max_dop: false,
    has_fix_type: false,
};

const NO_FILTERS: Filters<'static> = Filters {
    sensors: &[],
    classes: &[],
    most_dop: None,
    types: &[],
    since: None,
    until: None,
};

const UTC: TimesRead<'static> = TimesRead {
    form: b"",
    clock: None,
    clock_name: b"UTC",
};

const NOT_WANTED: Wanted<'static> = Wanted {
    classes: b"",
    types: b"",
    since: b"",
    until: b"",
};

const ONE_EXPORT: Exports<'static> = Exports {
    names: &[],
    counts: &[],
};

// The titles of a table with all that is needed.
const TITLES: [&[u8]; 4] = [b"animal", b"time", b"easting", b"northing"];

// The sheet of a table.
fn sheet_of<'a>(titles: &'a [&'a [u8]], columns: &'a Columns<Global>, unit: Scale) -> Sheet<'a> {
    Sheet {
        exports: ONE_EXPORT,
        titles,
        columns,
        unit,
        zone: None,
        system: b"",
        name: b"animal",
        times: UTC,
        filters: NO_FILTERS,
        wanted: NOT_WANTED,
        keeps_marks: true,
    }
}

// The fates of fixes, of which the records are numbered in their order.
fn fates_of(alloc: Global, fixes: &[Fix]) -> Result<Vec<Fate>, OutOfMemory> {
    let mut fates = Vec::new(alloc);
    let mut record = 0u32;
    for (animal, second, easting, northing, is_used) in fixes {
        record = record.saturating_add(1);
        fates.push(Fate::InTrack {
            animal: *animal,
            entry: Entry {
                record,
                moment: Moment {
                    second: *second,
                    nanosecond: 0,
                },
                easting: *easting,
                northing: *northing,
                is_used: *is_used,
            },
        })?;
    }
    Ok(fates)
}

// The row of a record of an animal.
fn row_of(animal: u32) -> Row {
    Row {
        animal: Some(animal),
        sensor: 0,
        told: Told::Fix(ToldFix {
            moment: Moment {
                second: 0,
                nanosecond: 0,
            },
            is_local: false,
            is_twice: false,
            metres: Some((0, 0)),
            degrees: None,
            zone: None,
            is_used: true,
            is_of_sensor: true,
            has_class: false,
            left_for: None,
        }),
    }
}

// The ledger of animals, each of which has two records.
fn ledger_of(alloc: Global, names: &[&[u8]]) -> Result<Ledger, OutOfMemory> {
    let mut ledger = Ledger {
        names: IndexSet::new(alloc),
        sensors: IndexSet::new(alloc),
        lasts: Vec::new(alloc),
        rows: Vec::new(alloc),
    };
    let _is_new = ledger.sensors.insert(Vec::new(alloc))?;
    for (animal, name) in names.iter().enumerate() {
        let _is_new = ledger.names.insert(Vec::from_slice(alloc, name)?)?;
        let row = row_of(u32::try_from(animal).unwrap_or(u32::MAX));
        ledger.rows.push(row)?;
        ledger.rows.push(row)?;
    }
    Ok(ledger)
}

// The names of files.
fn owned(alloc: Global, names: &[&[u8]]) -> Result<Vec<Vec<u8>>, OutOfMemory> {
    let mut all = Vec::new(alloc);
    for name in names {
        all.push(Vec::from_slice(alloc, name)?)?;
    }
    Ok(all)
}

// The lines that were said, and a refusal behind its kind.
fn lines_of(alloc: Global, said: &Said, end: &Result<(), Refusal>) -> Result<Vec<u8>, AllocError> {
    let mut text = Vec::new(alloc);
    for line in said.lines.iter() {
        text.extend_from_slice(line)?;
        text.extend_from_slice(b"\n")?;
    }
    if let Err(refusal) = end {
        text.extend_from_slice(refusal.kind.word().as_bytes())?;
        text.extend_from_slice(b": ")?;
        text.extend_from_slice(&refusal.text)?;
    }
    Ok(text)
}

// What is said of the tracks of some animals.
fn told_of(
    alloc: Global,
    titles: &[&[u8]],
    names: &[&[u8]],
    fixes: &[Fix],
    asked: Asked,
) -> Result<Vec<u8>, Fail> {
    let columns = find_columns(alloc, titles, &NO_NAMES)?;
    let sheet = sheet_of(titles, &columns, asked.unit);
    let grid = Grid {
        zone: asked.zone,
        of_zone: None,
        shift: (0, 0),
        is_projected: asked.is_projected,
    };
    let ledger = ledger_of(alloc, names)?;
    let fates = fates_of(alloc, fixes)?;
    let animals = u32::try_from(names.len()).unwrap_or(u32::MAX);
    let tracks = tracks_of(alloc, &fates, animals)?;
    let files = owned(alloc, names)?;
    let mut said = Said::new(alloc);
    let end = tell_files(
        alloc,
        &mut said,
        &sheet,
        &grid,
        &ledger.names,
        &fates,
        &tracks,
        &files,
    );
    Ok(lines_of(alloc, &said, &end)?)
}

// Checks what is said of the tracks of some animals.
fn expect(
    rt: &impl Abort,
    alloc: Global,
    titles: &[&[u8]],
    names: &[&[u8]],
    fixes: &[Fix],
    asked: Asked,
    expected: &str,
) -> Result<(), Fail> {
    let lines = told_of(alloc, titles, names, fixes, asked)?;
    let is_met = lines.as_slice() == expected.as_bytes();
    assert!(rt; is_met, "{}", String::from_utf8_lossy(alloc, &lines)?);
    Ok(())
}

// The zone 33N.
const ZONE: Zone = Zone {
    number: 33,
    is_south: false,
};

// Fixes of two animals in that zone, from the first of May to the end of June 2024, and one that is not used.
const IN_SPRING: [Fix; 3] = [
    (0, 1_714_521_600, 461_000, 5_083_000, true),
    (0, 0, 0, 0, false),
    (1, 1_719_791_999, 461_234, 5_084_100, true),
];

const TWO: [&[u8]; 2] = [b"Vesna", b"Bor"];

#[test]
fn columns_are_told_with_place_and_days(rt: HostRuntime) -> Result<(), Fail> {
    let alloc = rt.alloc();
    let in_zone = Asked {
        zone: Some(ZONE),
        ..PLAIN
    };
    let titles: [&[u8]; 7] = [
        b"animal",
        b" note",
        b"time",
        b"easting",
        b"northing",
        b"",
        b"temp\t",
    ];
    expect(
        &rt,
        alloc,
        &titles,
        &TWO,
        &IN_SPRING,
        in_zone,
        "columns: animal, time, easting, northing; 2 animals, box 0.234 by 1.100 km near 14.5 E 45.9 N, from 2024-05-01 to 2024-06-30
not read: note, '', temp
",
    )?;
    expect(
        &rt,
        alloc,
        &TITLES,
        &TWO,
        &IN_SPRING,
        PLAIN,
        "columns: animal, time, easting, northing; 2 animals, box 0.234 by 1.100 km, from 2024-05-01 to 2024-06-30
",
    )
}

#[test]
fn west_and_south_are_told(rt: HostRuntime) -> Result<(), Fail> {
    let asked = Asked {
        unit: Scale::Decimetre,
        zone: Some(Zone {
            number: 23,
            is_south: true,
        }),
        is_projected: true,
    };
    let fixes = [
        (0, 951_782_399, 6_873_946, 74_656_340, true),
        (0, 951_782_400, 6_873_946, 74_656_342, true),
    ];
    expect(
        &rt,
        rt.alloc(),
        &TITLES,
        &[b"Bor"],
        &fixes,
        asked,
        "columns: animal, time, easting, northing; 1 animals, box 0.000 by 0.000 km near 43.2 W 22.9 S, from 2000-02-28 to 2000-02-29
",
    )
}

#[test]
fn a_place_off_the_earth_is_not_told(rt: HostRuntime) -> Result<(), Fail> {
    let in_zone = Asked {
        zone: Some(ZONE),
        ..PLAIN
    };
    expect(
        &rt,
        rt.alloc(),
        &TITLES,
        &[b"Bor"],
        &[(0, 253_402_300_799, 90_000_000, 0, true)],
        in_zone,
        "columns: animal, time, easting, northing; 1 animals, box 0.000 by 0.000 km, from 9999-12-31 to 9999-12-31
",
    )
}

#[test]
fn seconds_of_ones_own_are_told_as_such(rt: HostRuntime) -> Result<(), Fail> {
    let alloc = rt.alloc();
    let fixes = [
        (0, 70, 0, 0, true),
        (0, 4, 9, 9, false),
        (0, 1_234_567, 9, 9, true),
    ];
    expect(
        &rt,
        alloc,
        &[b"animal", b"second", b"easting", b"northing"],
        &[b"Bor"],
        &fixes,
        PLAIN,
        "columns: animal, second, easting, northing; 1 animals, box 0.009 by 0.009 km, from second 70 to 1234567
",
    )?;
    expect(
        &rt,
        alloc,
        &[b"animal", b"easting", b"northing"],
        &[b"Bor"],
        &fixes,
        PLAIN,
        "columns: animal, easting, northing; 1 animals, box 0.009 by 0.009 km
",
    )
}

#[test]
fn far_fixes_are_asked_about(rt: HostRuntime) -> Result<(), Fail> {
    let alloc = rt.alloc();
    let fixes = [
        (1, 0, 0, 0, true),
        (1, 1, 0, 7000, true),
        (0, 2, 100, 300, true),
        (0, 3, 200, 400, true),
        (1, 4, 10, 10, true),
        (0, 5, 9200, 400, true),
        (0, 6, 200, 400, true),
        (1, 7, 4000, 20, true),
    ];
    expect(
        &rt,
        alloc,
        &TITLES,
        &TWO,
        &fixes,
        PLAIN,
        "1 of 4 fixes of Bor lie 3,990 m from the others: records 8: are they hers?
1 of 4 fixes of Bor lie 6,980 m from the others: records 2: are they hers?
1 of 4 fixes of Vesna lie 9,000 m from the others: records 6: are they hers?
columns: animal, time, easting, northing; 2 animals, box 9.200 by 7.000 km, from 1970-01-01 to 1970-01-01
",
    )?;
    let both = [
        (0, 3, 1_234_567, 2000, true),
        (0, 1, 0, 0, true),
        (0, 2, 10, 10, true),
    ];
    expect(
        &rt,
        alloc,
        &TITLES,
        &[b"Bor"],
        &both,
        PLAIN,
        "1 of 3 fixes of Bor lie 1,235 km from the others: records 1: are they hers?
columns: animal, time, easting, northing; 1 animals, box 1234.567 by 2.000 km, from 1970-01-01 to 1970-01-01
",
    )
}

#[test]
fn fixes_that_are_far_along_both_axes_are_asked_about_once(rt: HostRuntime) -> Result<(), Fail> {
    let alloc = rt.alloc();
    let of_latitude_0 = [
        (0, 1, 500_000, 5_080_000, true),
        (0, 2, 514_102, 0, true),
        (0, 3, 500_010, 5_080_010, true),
    ];
    expect(
        &rt,
        alloc,
        &TITLES,
        &[b"Bor"],
        &of_latitude_0,
        PLAIN,
        "1 of 3 fixes of Bor lie 5,080 km from the others: records 2: are they hers?
columns: animal, time, easting, northing; 1 animals, box 14.102 by 5080.010 km, from 1970-01-01 to 1970-01-01
",
    )
}

#[test]
fn great_distances_are_told_in_kilometres(rt: HostRuntime) -> Result<(), Fail> {
    let alloc = rt.alloc();
    for (east, expected) in [
        (
            9999,
            "1 of 3 fixes of Bor lie 9,999 m from the others: records 3: are they hers?",
        ),
        (
            10_000,
            "1 of 3 fixes of Bor lie 10 km from the others: records 3: are they hers?",
        ),
        (
            10_499,
            "1 of 3 fixes of Bor lie 10 km from the others: records 3: are they hers?",
        ),
        (
            1_234_500,
            "1 of 3 fixes of Bor lie 1,235 km from the others: records 3: are they hers?",
        ),
    ] {
        let fixes = [
            (0, 1, 100, 100, true),
            (0, 2, 100, 100, true),
            (0, 3, 100_i64.saturating_add(east), 100, true),
        ];
        let told = told_of(alloc, &TITLES, &[b"Bor"], &fixes, PLAIN)?;
        let is_met = first_line(&told) == expected.as_bytes();
        assert!(&rt; is_met, "{east}");
    }
    Ok(())
}

// The first line of a text.
fn first_line(text: &[u8]) -> &[u8] {
    match text.iter().position(|byte| *byte == b'\n') {
        Some(end) => text.get(..end).unwrap_or(b""),
        None => text,
    }
}

// So many fixes at a place, one a second.
fn push_many(fixes: &mut Vec<Fix>, count: u64, easting: i64) -> Result<(), OutOfMemory> {
    for second in 0..count {
        fixes.push((0, second, easting, 0, true))?;
    }
    Ok(())
}

#[test]
fn the_first_ten_records_are_listed(rt: HostRuntime) -> Result<(), Fail> {
    let alloc = rt.alloc();
    for (count, expected) in [
        (
            10,
            "10 of 1,210 fixes of Bor lie 5,000 m from the others: records 1201, 1202, 1203, 1204, 1205, 1206, 1207, 1208, 1209, 1210: are they hers?",
        ),
        (
            11,
            "11 of 1,211 fixes of Bor lie 5,000 m from the others: records 1201, 1202, 1203, 1204, 1205, 1206, 1207, 1208, 1209, 1210, ..: are they hers?",
        ),
    ] {
        let mut fixes = Vec::new(alloc);
        push_many(&mut fixes, 1200, 0)?;
        push_many(&mut fixes, count, 5000)?;
        let told = told_of(alloc, &TITLES, &[b"Bor"], &fixes, PLAIN)?;
        let is_met = first_line(&told) == expected.as_bytes();
        assert!(&rt; is_met, "{count}");
    }
    Ok(())
}

// Ten fixes and one that is not used, which go so far east and north.
fn ten(east: i64, north: i64) -> [Fix; 11] {
    [
        (0, 0, 100, 100, true),
        (0, 1, 100, 100, true),
        (0, 2, 100, 100, true),
        (0, 3, 100, 100, true),
        (1, 4, 100, 100, true),
        (1, 5, 100_i64.saturating_add(east), 100, true),
        (1, 6, 100, 100_i64.saturating_add(north), true),
        (1, 7, 100, 100, true),
        (1, 8, 100, 100, true),
        (1, 9, 100, 100, true),
        (1, 10, 9000, 9000, false),
    ]
}

#[test]
fn a_small_box_is_asked_about(rt: HostRuntime) -> Result<(), Fail> {
    let alloc = rt.alloc();
    let projected = Asked {
        is_projected: true,
        ..PLAIN
    };
    for (east, north, asked, expected) in [
        (
            19,
            7,
            PLAIN,
            "all 10 fixes lie within 19 by 7 m: are they in metres?",
        ),
        (
            125,
            30,
            IN_DECIMETRES,
            "all 10 fixes lie within 12.5 by 3 m: are they in metres?",
        ),
        (
            0,
            0,
            PLAIN,
            "all 10 fixes lie within 0 by 0 m: are they in metres?",
        ),
        (
            20,
            0,
            PLAIN,
            "columns: animal, time, easting, northing; 2 animals, box 0.020 by 0.000 km, from 1970-01-01 to 1970-01-01",
        ),
        (
            19,
            7,
            projected,
            "columns: animal, time, easting, northing; 2 animals, box 0.019 by 0.007 km, from 1970-01-01 to 1970-01-01",
        ),
    ] {
        let told = told_of(alloc, &TITLES, &TWO, &ten(east, north), asked)?;
        let is_met = first_line(&told) == expected.as_bytes();
        assert!(&rt; is_met, "{east}, {north}");
    }
    Ok(())
}

// Ten fixes of each of two animals that live far from each other, and three of a third one that goes far. Those of the first go so
// far east.
fn herd(alloc: Global, east: i64) -> Result<Vec<Fix>, OutOfMemory> {
    let mut fixes = Vec::new(alloc);
    for second in 0..9 {
        fixes.push((0, second, 100, 100, true))?;
        fixes.push((1, second, 900, 900, true))?;
    }
    fixes.push((0, 9, 100_i64.saturating_add(east), 103, true))?;
    fixes.push((1, 9, 905, 904, true))?;
    fixes.push((2, 0, 500, 500, true))?;
    fixes.push((2, 1, 600, 500, true))?;
    fixes.push((2, 2, 700, 500, true))?;
    Ok(fixes)
}

#[test]
fn small_boxes_of_a_herd_are_asked_about(rt: HostRuntime) -> Result<(), Fail> {
    let alloc = rt.alloc();
    let names: [&[u8]; 3] = [b"Vesna", b"Bor", b"Mila"];
    for (east, expected) in [
        (
            3,
            "the fixes of each animal that has 10 or more lie within 5 by 4 m: are they in metres?",
        ),
        (
            19,
            "the fixes of each animal that has 10 or more lie within 19 by 4 m: are they in metres?",
        ),
        (
            20,
            "columns: animal, time, easting, northing; 3 animals, box 0.805 by 0.804 km, from 1970-01-01 to 1970-01-01",
        ),
    ] {
        let told = told_of(alloc, &TITLES, &names, &herd(alloc, east)?, PLAIN)?;
        let is_met = first_line(&told) == expected.as_bytes();
        assert!(&rt; is_met, "{east}");
    }
    Ok(())
}

#[test]
fn great_coordinates_are_refused(rt: HostRuntime) -> Result<(), Fail> {
    let alloc = rt.alloc();
    let fixes = [
        (0, 0, 461_000_000, 5_083_000_000, true),
        (0, 1, 461_000_900, 5_083_000_100, true),
    ];
    expect(
        &rt,
        alloc,
        &TITLES,
        &[b"Bor"],
        &fixes,
        PLAIN,
        "grid: eastings go from 461000000.00 to 461000900.00, more than 100,000 km: are they in metres?",
    )?;
    let fixes = [
        (0, 0, 1_000_000_000, -1_000_000_001, true),
        (0, 1, 1_000_000_000, -1_000_000_001, true),
    ];
    expect(
        &rt,
        alloc,
        &TITLES,
        &[b"Bor"],
        &fixes,
        IN_DECIMETRES,
        "grid: northings go from -100000000.10 to -100000000.10, more than 100,000 km: are they in metres?",
    )
}

// Checks what is said of the names of animals.
fn expect_alike(
    rt: &impl Abort,
    alloc: Global,
    names: &[&[u8]],
    expected: &str,
) -> Result<(), Fail> {
    let columns = find_columns(alloc, &TITLES, &NO_NAMES)?;
    let sheet = sheet_of(&TITLES, &columns, Scale::Metre);
    let ledger = ledger_of(alloc, names)?;
    let mut said = Said::new(alloc);
    let end = check_ledger(alloc, &mut said, &sheet, &ledger);
    let lines = lines_of(alloc, &said, &end)?;
    let is_met = lines.as_slice() == expected.as_bytes();
    assert!(rt; is_met, "{}", String::from_utf8_lossy(alloc, &lines)?);
    Ok(())
}

#[test]
fn names_that_differ_in_the_form_of_letters_are_asked_about(rt: HostRuntime) -> Result<(), Fail> {
    let alloc = rt.alloc();
    expect_alike(
        &rt,
        alloc,
        &[
            b"Zo\xC3\xAB",
            b"\xEF\xBC\xB6esna",
            b"Zoe\xCC\x88",
            b"Vesna",
            b"vesna",
            b"\xFF",
            b"Bor",
        ],
        "animals 'Zo\u{EB}' and 'Zoe\u{308}' differ in the form of letters alone: are they one?
animals '\u{FF36}esna' and 'Vesna' differ in the form of letters alone: are they one?
animals 'Vesna' and 'vesna' differ in blanks or capitals alone: are they one?
",
    )
}

#[test]
fn a_name_may_be_like_two_others(rt: HostRuntime) -> Result<(), Fail> {
    let alloc = rt.alloc();
    expect_alike(
        &rt,
        alloc,
        &[b"\xEF\xAC\x81n", b"FIN", b"fin"],
        "animals '\u{FB01}n' and 'FIN' differ in the form of letters and in blanks or capitals alone: are they one?
animals 'FIN' and 'fin' differ in blanks or capitals alone: are they one?
animals '\u{FB01}n' and 'fin' differ in the form of letters alone: are they one?
",
    )?;
    expect_alike(
        &rt,
        alloc,
        &[b" A", b"\xC2\xA0A"],
        "animals ' A' and '\u{A0}A' differ in blanks or capitals alone: are they one?
",
    )
}

#[test]
fn names_that_differ_in_more_ways_are_asked_about(rt: HostRuntime) -> Result<(), Fail> {
    let alloc = rt.alloc();
    expect_alike(
        &rt,
        alloc,
        &[
            b"\xEF\xBC\xB6esna",
            b"vesna ",
            b"ZO\xC3\x8B",
            b"zoe\xCC\x88",
            b"Bor",
            b"\xEF\xBC\xA2or\xE3\x80\x80",
        ],
        "animals '\u{FF36}esna' and 'vesna ' differ in the form of letters and in blanks or capitals alone: are they one?
animals 'ZO\u{CB}' and 'zoe\u{308}' differ in the form of letters and in blanks or capitals alone: are they one?
animals 'Bor' and '\u{FF22}or\u{3000}' differ in the form of letters and in blanks or capitals alone: are they one?
",
    )
}

#[test]
fn names_with_an_end_of_a_line_are_refused(rt: HostRuntime) -> Result<(), Fail> {
    let alloc = rt.alloc();
    let (of_lf, of_cr): (&[u8], &[u8]) = (b"Vesna,0\nBor", b"Vesna\r");
    for (names, expected) in [
        (
            [b"Bor".as_slice(), of_lf, of_cr].as_slice(),
            "name: the name of animal 'Vesna,0\\x0aBor' has an end of a line: is a quote missing?",
        ),
        (
            &[of_cr],
            "name: the name of animal 'Vesna\\x0d' has an end of a line: is a quote missing?",
        ),
    ] {
        expect_alike(&rt, alloc, names, expected)?;
    }
    Ok(())
}

#[test]
fn the_first_record_of_a_name_with_an_end_of_a_line_is_named(rt: HostRuntime) -> Result<(), Fail> {
    let alloc = rt.alloc();
    let columns = find_columns(alloc, &TITLES, &NO_NAMES)?;
    let sheet = sheet_of(&TITLES, &columns, Scale::Metre);
    let ledger = ledger_of(alloc, &[b"Bor", b"Mila", b"Vesna\n"])?;
    let mut said = Said::new(alloc);
    match check_ledger(alloc, &mut said, &sheet, &ledger) {
        Err(refusal) => assert!(&rt; refusal.record == Some(5)),
        Ok(()) => assert!(&rt; false),
    }
    Ok(())
}
