// Tests of the records of tables. What is expected was read by `exports.py` of the package for Python, but where a test
// says otherwise.

use crate::sheets::{
    MOVEBANK, NO_FILTERS, NO_MARKS, OWN, Sheet, with_degrees, with_marks, with_sensor, with_texts,
    with_usage, with_zone,
};
use crate::told_records::{expect_fault, expect_told};
use range_plane::Scale;
use split_clock::NoMoment;
use split_filters::Filters;
use split_reading::{CellFault, Rules};
use split_times::{NumberFault, TimeFault};
use split_titles::{Marks, Pair};
use std::test::Fail;

#[test]
fn a_table_of_movebank_is_read(rt: HostRuntime) -> Result<(), Fail> {
    expect_told(
        &rt,
        rt.alloc(),
        &MOVEBANK,
        "1,true,2024-05-01 00:30:04.500,14.5,46.3,,,,,gps,Vixen,562000.4,5134001.5,33N\n\
            2,false,2024-05-01T02:30:04+02:00,14.5,46.3,false,false,false,,gps,\"Boar, old\",562100,5134101,33N\n\
            3,true,2024-05-01,14.5,46.3,true,,,true,argos-doppler-shift,Vixen,562200,5134201,33 n\n\
            4,true,2024-05-01 00:30:05,,,,,,,gps,Cub,,,\n\
            5,true,2024-05-01 00:31Z,14.5,46.3,,,,,NA,Cub,,,NA\n",
        "[Vixen][Boar, old][Cub] | [gps][argos-doppler-shift][] \
            | 0/0 1714523404+500000000: 562000 5134002 33N\
            ; 1/0 1714523404: 562100 5134101 33N, not used\
            ; 0/1 1714521600: 562200 5134201 33N\
            ; 2/0: no coordinates\
            ; 2/2 1714523460: degrees 14500000000000 46300000000000 33N",
    )
}

#[test]
fn a_table_of_homerange_is_read(rt: HostRuntime) -> Result<(), Fail> {
    expect_told(
        &rt,
        rt.alloc(),
        &OWN,
        "fox,0,562000,5134001\n\
            vixen,60,561999.5,-12.5\n\
            fox,60,0,0\n\
            fox,1099511627776,-0.4,00007\n\
            fox,0060,1,2\n",
        "[fox][vixen] | [] \
            | 0/0 0: 562000 5134001\
            ; 1/0 60: 562000 -12\
            ; 0/0 60: 0 0\
            ; 0/0 1099511627776: 0 7\
            ; 0/0 60: 1 2",
    )?;
    expect_told(&rt, rt.alloc(), &OWN, "", " | ")
}

#[test]
fn coordinates_are_in_units(rt: HostRuntime) -> Result<(), Fail> {
    let sheet = Sheet {
        rules: Rules {
            unit: Scale::Decimetre,
            ..OWN.rules
        },
        ..OWN
    };
    expect_told(
        &rt,
        rt.alloc(),
        &sheet,
        "fox,0,562000,5134001\nvixen,60,561999.55,-12.55\n",
        "[fox][vixen] | [] | 0/0 0: 5620000 51340010; 1/0 60: 5619996 -125",
    )
}

#[test]
fn names_are_what_fields_have(rt: HostRuntime) -> Result<(), Fail> {
    expect_told(
        &rt,
        rt.alloc(),
        &OWN,
        " fox ,0,1,2\nfox,1,1,2\n\"a,\"\"b\",2,1,2\nNA,3,1,2\nü,4,1,2\n",
        "[ fox ][fox][a,\"b][NA][ü] | [] | 0/0 0: 1 2; 1/0 1: 1 2; 2/0 2: 1 2; 3/0 3: 1 2; 4/0 4: 1 2",
    )
}

#[test]
fn names_are_in_the_order_of_first_records(rt: HostRuntime) -> Result<(), Fail> {
    expect_told(
        &rt,
        rt.alloc(),
        &OWN,
        "b,0,NA,1\na,1,1,2\n,2,,\nb,3,1,2\nc,x,,\na,5,,\nc,6,1,2\n",
        "[b][a][c] | [] \
            | 0/0: no coordinates\
            ; 1/0 1: 1 2\
            ; -/0: no coordinates\
            ; 0/0 3: 1 2\
            ; 2/0: no coordinates\
            ; 1/0: no coordinates\
            ; 2/0 6: 1 2",
    )
}

#[test]
fn sensors_are_in_the_order_of_first_records(rt: HostRuntime) -> Result<(), Fail> {
    expect_told(
        &rt,
        rt.alloc(),
        &with_sensor(),
        "fox,0,1,2,gps\n\
            fox,1,,,radio-transmitter\n\
            fox,2,1,2,NA\n\
            fox,3,1,2,\n\
            fox,4,1,2,gps\n\
            fox,5,1,2, GPS\n\
            fox,6,1,2,673\n\
            fox,7,1,2,WiFi\n",
        "[fox] | [gps][radio-transmitter][][WiFi] \
            | 0/0 0: 1 2\
            ; 0/1: no coordinates\
            ; 0/2 2: 1 2\
            ; 0/2 3: 1 2\
            ; 0/0 4: 1 2\
            ; 0/0 5: 1 2\
            ; 0/1 6: 1 2\
            ; 0/3 7: 1 2",
    )
}

#[test]
fn records_without_coordinates_are_left_out(rt: HostRuntime) -> Result<(), Fail> {
    for record in [
        "fox,0,NA,2",
        "fox,0,1,NA",
        "fox,0,,2",
        "fox,0,1,",
        "fox,0,,",
        "fox,0,NA,NA",
        "fox,x,,",
    ] {
        let expected = "[fox] | [] | 0/0: no coordinates";
        expect_told(&rt, rt.alloc(), &OWN, record, expected)?;
    }
    for record in [
        "fox,0,,,,",
        "fox,0,,,14.5,",
        "fox,0,,,NA,0",
        "fox,0,562000,,0,NA",
        "fox,0,,5134001,,46.1",
    ] {
        let expected = "[fox] | [] | 0/0: no coordinates";
        expect_told(&rt, rt.alloc(), &with_degrees(), record, expected)?;
    }
    Ok(())
}

#[test]
fn degrees_may_stand_alone(rt: HostRuntime) -> Result<(), Fail> {
    let alloc = rt.alloc();
    for (record, degrees) in [
        ("fox,0,,,14.5,46.1", "14500000000000 46100000000000 33N"),
        (
            "fox,0,NA,5134001,14.5,-46.1",
            "14500000000000 -46100000000000 33S",
        ),
        (
            "fox,0,562000,NA,-14.5,46.1",
            "-14500000000000 46100000000000 28N",
        ),
        ("fox,0,,,0,46.1", "0 46100000000000 31N"),
        ("fox,0,,,14.5000000000005,0", "14500000000001 0 33N"),
    ] {
        let expected = format!(in alloc; "[fox] | [] | 0/0 0: degrees {degrees}")?;
        expect_told(&rt, alloc, &with_degrees(), record, expected.as_str())?;
    }
    Ok(())
}

#[test]
fn records_at_zero_degrees_are_left_out(rt: HostRuntime) -> Result<(), Fail> {
    for record in [
        "fox,0,0,0,0,0",
        "fox,0,,,0,0.000",
        "fox,0,0,0.0,-0,00.0",
        "fox,0,562000,,0,0",
        "fox,0,NA,NA,-0.0,0",
        "fox,x,,,0,0",
    ] {
        let expected = "[fox] | [] | 0/0: zero";
        expect_told(&rt, rt.alloc(), &with_degrees(), record, expected)?;
    }
    Ok(())
}

#[test]
fn zeros_with_other_metres_or_degrees_are_taken(rt: HostRuntime) -> Result<(), Fail> {
    expect_told(
        &rt,
        rt.alloc(),
        &with_degrees(),
        "fox,0,562000,5134001,0,0\n\
            fox,1,0,5134001,0,0\n\
            fox,2,562000,0,0,0\n\
            fox,3,0,0,14.5,46.1\n\
            fox,4,0,0,,\n\
            fox,5,0.4,0,0,0\n\
            fox,6,0,0,0,\n\
            fox,7,0,0,0,0.1\n",
        "[fox] | [] \
            | 0/0 0: 562000 5134001 31N\
            ; 0/0 1: 0 5134001 31N\
            ; 0/0 2: 562000 0 31N\
            ; 0/0 3: 0 0 33N\
            ; 0/0 4: 0 0\
            ; 0/0 5: 0 0 31N\
            ; 0/0 6: 0 0\
            ; 0/0 7: 0 0 31N",
    )
}

#[test]
fn records_that_are_left_out_are_not_checked(rt: HostRuntime) -> Result<(), Fail> {
    let sheet = Sheet {
        titles: "animal,second,utm-easting,utm-northing,location-long,location-lat,utm-zone,visible",
        rules: Rules {
            width: 8,
            zone: Some(6),
            marks: Marks {
                visible: Some(7),
                ..NO_MARKS
            },
            ..with_degrees().rules
        },
    };
    expect_told(
        &rt,
        rt.alloc(),
        &sheet,
        "fox,x,,,,,61N,maybe\n,,,,0,0,61N,maybe\nfox,0,1,2,,,,\n",
        "[fox] | [] | 0/0: no coordinates; -/0: zero; 0/0 0: 1 2",
    )
}

#[test]
fn unnamed_records_are_left_out_where_that_is_asked(rt: HostRuntime) -> Result<(), Fail> {
    let skips = |sheet: Sheet| Sheet {
        rules: Rules {
            skips_unnamed: true,
            ..sheet.rules
        },
        ..sheet
    };
    expect_told(
        &rt,
        rt.alloc(),
        &skips(OWN),
        "a,0,1,2\n,1,1,2\n,x,3,4\nNA,3,1,2\n,4,,\n",
        "[a][NA] | [] | 0/0 0: 1 2; -/0: no animal; -/0: no animal; 1/0 3: 1 2; -/0: no coordinates",
    )?;
    expect_told(
        &rt,
        rt.alloc(),
        &skips(with_marks()),
        ",x,1,2,maybe,,,,\na,0,1,2,,,,,\n",
        "[a] | [] | -/0: no animal; 0/0 0: 1 2",
    )
}

#[test]
fn without_a_column_of_the_animal_all_are_of_one(rt: HostRuntime) -> Result<(), Fail> {
    let sheet = Sheet {
        titles: "second,easting,northing",
        rules: Rules {
            width: 3,
            animal: &[],
            name: b"Luna",
            time: &[0],
            metres: Some(Pair {
                first: 1,
                second: 2,
            }),
            ..OWN.rules
        },
    };
    expect_told(
        &rt,
        rt.alloc(),
        &sheet,
        "60,1,2\n0,,\n30,3,4\n",
        "[Luna] | [] | 0/0 60: 1 2; 0/0: no coordinates; 0/0 30: 3 4",
    )
}

#[test]
fn without_a_column_of_the_time_records_are_in_its_order(rt: HostRuntime) -> Result<(), Fail> {
    let sheet = Sheet {
        titles: "animal,easting,northing",
        rules: Rules {
            width: 3,
            time: &[],
            is_second: false,
            metres: Some(Pair {
                first: 1,
                second: 2,
            }),
            ..OWN.rules
        },
    };
    expect_told(
        &rt,
        rt.alloc(),
        &sheet,
        "fox,1,2\nfox,,\n\nvixen,3,4\nfox,5,6\n",
        "[fox][vixen] | [] | 0/0 0: 1 2; 0/0: no coordinates; 1/0 2: 3 4; 0/0 3: 5 6",
    )
}

#[test]
fn marks_say_which_fixes_are_used(rt: HostRuntime) -> Result<(), Fail> {
    let alloc = rt.alloc();
    for (marks, end) in [
        (",,,,", ""),
        ("NA,NA,NA,NA,NA", ""),
        ("true,false,false,false,false", ""),
        ("TRUE,FALSE,False,0,0.0", ""),
        ("1,0,0,0,1", ""),
        ("1.0,0.0,,,True", ""),
        ("True,,,,", ""),
        ("false,,,,", ", not used"),
        ("false,,,,true", ", not used"),
        ("0.0,,,,", ", not used"),
        (",true,,,", ", not used"),
        (",1,,,true", ", not used"),
        (",,True,,", ", not used"),
        (",,1.0,,true", ""),
        (",,,TRUE,", ", not used"),
        (",,,true,1", ""),
        (",,true,true,TRUE", ""),
        (",,true,,false", ", not used"),
        (",,,1,NA", ", not used"),
    ] {
        let record = format!(in alloc; "fox,0,1,2,{marks}")?;
        let expected = format!(in alloc; "[fox] | [] | 0/0 0: 1 2{end}")?;
        expect_told(&rt, alloc, &with_marks(), &record, &expected)?;
    }
    Ok(())
}

#[test]
fn the_column_of_usage_goes_before_marks(rt: HostRuntime) -> Result<(), Fail> {
    let alloc = rt.alloc();
    expect_told(
        &rt,
        alloc,
        &with_usage(),
        "fox,0,1,2,1,false\n\
            fox,1,1,2,0,true\n\
            fox,2,1,2,true,maybe\n\
            fox,3,1,2,FALSE,\n\
            fox,4,,,,\n\
            fox,5,1,2,1.0,NA\n",
        "[fox] | [] \
            | 0/0 0: 1 2\
            ; 0/0 1: 1 2, not used\
            ; 0/0 2: 1 2\
            ; 0/0 3: 1 2, not used\
            ; 0/0: no coordinates\
            ; 0/0 5: 1 2",
    )?;
    for (cell, fault) in [
        ("", CellFault::NoTruth { column: 4 }),
        ("NA", CellFault::NoTruth { column: 4 }),
        ("maybe", CellFault::NotTruth { column: 4 }),
    ] {
        let record = format!(in alloc; "fox,0,1,2,{cell},true")?;
        expect_fault(&rt, alloc, &with_usage(), &record, 1, fault)?;
    }
    Ok(())
}

#[test]
fn zones_are_read(rt: HostRuntime) -> Result<(), Fail> {
    let alloc = rt.alloc();
    for (cell, zone) in [
        ("33N", " 33N"),
        ("033s", " 33S"),
        ("7 n", " 7N"),
        ("07S", " 7S"),
        ("1N", " 1N"),
        ("60 s", " 60S"),
        ("060n", " 60N"),
        ("10N", " 10N"),
        ("09 S", " 9S"),
        ("059N", " 59N"),
        ("", ""),
        ("NA", ""),
    ] {
        let record = format!(in alloc; "fox,0,1,2,{cell}")?;
        let expected = format!(in alloc; "[fox] | [] | 0/0 0: 1 2{zone}")?;
        expect_told(&rt, alloc, &with_zone(), &record, &expected)?;
    }
    Ok(())
}

#[test]
fn other_zones_are_refused(rt: HostRuntime) -> Result<(), Fail> {
    let alloc = rt.alloc();
    for cell in [
        "61N",
        "33T",
        "33E",
        "0N",
        "00N",
        "007N",
        "000N",
        "061S",
        "0033N",
        "100N",
        "18446744073709551649N",
        "033",
        "N",
        " N",
        "0 N",
        "33  N",
        "33\tN",
        "3 3N",
        "+3N",
        "-3N",
        "3.0N",
        "33NN",
        "33north",
        "n33",
    ] {
        let records = format!(in alloc; "fox,0,1,2,33N\nfox,0,1,2,{cell}")?;
        let fault = CellFault::NotZone { column: 4 };
        expect_fault(&rt, alloc, &with_zone(), &records, 2, fault)?;
    }
    Ok(())
}

#[test]
fn other_numbers_are_refused(rt: HostRuntime) -> Result<(), Fail> {
    let alloc = rt.alloc();
    for cell in [
        "x",
        "na",
        "N/A",
        "NaN",
        "-",
        " 1",
        "1 ",
        "+1",
        "1.",
        "1e3",
        "0x1",
        "\"1,5\"",
        "1000000000000",
    ] {
        let records = format!(in alloc; "fox,0,1,2,,\nfox,0,{cell},,,")?;
        let fault = CellFault::NotNumber { column: 2 };
        expect_fault(&rt, alloc, &with_degrees(), &records, 2, fault)?;
        let record = format!(in alloc; "fox,0,1,2,,{cell}")?;
        let fault = CellFault::NotNumber { column: 5 };
        expect_fault(&rt, alloc, &with_degrees(), &record, 1, fault)?;
    }
    Ok(())
}

#[test]
fn other_marks_are_refused(rt: HostRuntime) -> Result<(), Fail> {
    let alloc = rt.alloc();
    for cell in [
        "t", "T", "TrUe", "yes", "2", "-1", "01", "1.00", " true", "na",
    ] {
        let record = format!(in alloc; "fox,0,1,2,{cell},,,,")?;
        let fault = CellFault::NotTruth { column: 4 };
        expect_fault(&rt, alloc, &with_marks(), &record, 1, fault)?;
        let record = format!(in alloc; "fox,0,1,2,,,,,{cell}")?;
        let fault = CellFault::NotTruth { column: 8 };
        expect_fault(&rt, alloc, &with_marks(), &record, 1, fault)?;
    }
    Ok(())
}

#[test]
fn other_times_are_refused(rt: HostRuntime) -> Result<(), Fail> {
    let alloc = rt.alloc();
    for (cell, fault) in [
        ("", CellFault::NoTime),
        ("NA", CellFault::NoTime),
        ("60", not_second(NumberFault::NotSecond)),
        ("45413", not_second(NumberFault::DaysOfExcel)),
        ("2024-05-01 24:00", not_time(TimeFault::NotTime)),
        ("01.05.2024", not_time(TimeFault::NotTime)),
        (
            "1969-12-31 23:59:59",
            CellFault::Clock {
                fault: NoMoment::Before1970,
            },
        ),
        ("1970-01-01 00:00+01", not_time(TimeFault::Before1970)),
    ] {
        let record = format!(in alloc; "fox,{cell},1,2")?;
        expect_fault(&rt, alloc, &with_texts(), &record, 1, fault)?;
    }
    for (cell, fault) in [
        ("", CellFault::NoTime),
        ("NA", CellFault::NoTime),
        ("1099511627777", CellFault::NotSecond),
        ("99999999999999999999999999", CellFault::NotSecond),
        ("-1", CellFault::NotSecond),
        ("+60", CellFault::NotSecond),
        (" 60", CellFault::NotSecond),
        ("60 ", CellFault::NotSecond),
        ("1e3", CellFault::NotSecond),
        ("x", CellFault::NotSecond),
    ] {
        let record = format!(in alloc; "fox,{cell},1,2")?;
        expect_fault(&rt, alloc, &OWN, &record, 1, fault)?;
    }
    Ok(())
}

// The fault of a text in the column of times.
fn not_time(fault: TimeFault) -> CellFault {
    CellFault::Time { fault }
}

// The same of a number.
fn not_second(fault: NumberFault) -> CellFault {
    CellFault::Number { fault }
}

// Python reads these: more digits, and texts in a column of seconds.
#[test]
fn some_times_are_refused_that_python_reads(rt: HostRuntime) -> Result<(), Fail> {
    let alloc = rt.alloc();
    let fault = not_time(TimeFault::MoreThanNineDecimals);
    let record = "fox,2024-05-01 00:30:04.1234567890,1,2";
    expect_fault(&rt, alloc, &with_texts(), record, 1, fault)?;
    expect_fault(
        &rt,
        alloc,
        &OWN,
        "fox,2024-05-01,1,2",
        1,
        CellFault::NotSecond,
    )
}

#[test]
fn the_first_record_at_fault_is_named(rt: HostRuntime) -> Result<(), Fail> {
    for (records, record, fault) in [
        ("fox,0,1,2,", 1, CellFault::FieldCount { count: 5 }),
        ("fox", 1, CellFault::FieldCount { count: 1 }),
        ("\"fox,0,1,2\"", 1, CellFault::FieldCount { count: 1 }),
        ("fox,0,1,2\n \n", 2, CellFault::FieldCount { count: 1 }),
        (
            "fox,0,1,2\n\nfox,1\nfox,2,x,2\n",
            2,
            CellFault::FieldCount { count: 2 },
        ),
        (
            "fox,0,1,2\nfox,1,x,2\nfox,2\n",
            2,
            CellFault::NotNumber { column: 2 },
        ),
        (
            "\"a\nb\",0,1,2\n\n\nfox,0,1,2\n,0,1,2\nfox,x,1,2",
            3,
            CellFault::NoAnimal,
        ),
        ("fox,0,1,2\nfox,,1,2\nfox,x,1,2", 2, CellFault::NoTime),
    ] {
        expect_fault(&rt, rt.alloc(), &OWN, records, record, fault)?;
    }
    Ok(())
}

// In each record the fault of the one above is mended.
const STAIRS: [(&str, CellFault); 14] = [
    (
        "1,?,?,?,?,?,?,?,?,gps,,?,?",
        CellFault::FieldCount { count: 13 },
    ),
    (
        "1,?,?,?,?,?,?,?,?,gps,,?,?,?,",
        CellFault::FieldCount { count: 15 },
    ),
    (
        "1,?,?,?,?,?,?,?,?,gps,,?,?,?",
        CellFault::NotNumber { column: 11 },
    ),
    (
        "1,?,?,?,?,?,?,?,?,gps,,1,?,?",
        CellFault::NotNumber { column: 12 },
    ),
    (
        "1,?,?,?,?,?,?,?,?,gps,,1,2,?",
        CellFault::NotNumber { column: 3 },
    ),
    (
        "1,?,?,14.5,?,?,?,?,?,gps,,1,2,?",
        CellFault::NotNumber { column: 4 },
    ),
    ("1,?,?,14.5,46,?,?,?,?,gps,,1,2,?", CellFault::NoAnimal),
    (
        "1,?,?,14.5,46,?,?,?,?,gps,fox,1,2,?",
        CellFault::NotTruth { column: 1 },
    ),
    (
        "1,1,?,14.5,46,?,?,?,?,gps,fox,1,2,?",
        CellFault::NotTruth { column: 7 },
    ),
    (
        "1,1,?,14.5,46,?,?,0,?,gps,fox,1,2,?",
        CellFault::NotTruth { column: 5 },
    ),
    (
        "1,1,?,14.5,46,0,?,0,?,gps,fox,1,2,?",
        CellFault::NotTruth { column: 6 },
    ),
    (
        "1,1,?,14.5,46,0,0,0,?,gps,fox,1,2,?",
        CellFault::NotTruth { column: 8 },
    ),
    (
        "1,1,?,14.5,46,0,0,0,1,gps,fox,1,2,?",
        CellFault::Time {
            fault: TimeFault::NotTime,
        },
    ),
    (
        "1,1,2024-05-01,14.5,46,0,0,0,1,gps,fox,1,2,?",
        CellFault::NotZone { column: 13 },
    ),
];

#[test]
fn of_one_record_the_first_fault_is_named(rt: HostRuntime) -> Result<(), Fail> {
    let alloc = rt.alloc();
    let whole = "1,1,2024-05-01,14.5,46,0,0,0,1,gps,fox,1,2,33N";
    for (record, fault) in STAIRS {
        let records = format!(in alloc; "{whole}\n{record}\n")?;
        expect_fault(&rt, alloc, &MOVEBANK, &records, 2, fault)?;
    }
    let expected = "[fox] | [gps] | 0/0 1714521600: 1 2 33N";
    expect_told(&rt, alloc, &MOVEBANK, whole, expected)
}

#[test]
fn filters_look_at_each_fix(rt: HostRuntime) -> Result<(), Fail> {
    let sheet = Sheet {
        titles: "animal,second,easting,northing,sensor-type-id,dop,fix-type",
        rules: Rules {
            width: 7,
            sensor: Some(4),
            dop: Some(5),
            fix_type: Some(6),
            filters: Filters {
                sensors: &[b"gps"],
                most_dop: Some(5_000_000_000_000),
                types: &[b"3D"],
                since: Some(10),
                until: Some(20),
                ..NO_FILTERS
            },
            ..OWN.rules
        },
    };
    expect_told(
        &rt,
        rt.alloc(),
        &sheet,
        "v,10,1,2,653,5.000,3D\n\
            v,20,1,2,gps,0.1,3D\n\
            v,15,1,2,673,1,3D\n\
            v,15,1,2,653,5.000000000001,3D\n\
            v,15,1,2,653,0,3D\n\
            v,15,1,2,653,,3D\n\
            v,15,1,2,653,1,2D\n\
            v,9,1,2,653,1,3D\n\
            v,21,1,2,653,1,3D\n",
        "[v] | [gps][radio-transmitter] \
            | 0/0 10: 1 2\
            ; 0/0 20: 1 2\
            ; 0/1 15: 1 2, of another sensor\
            ; 0/0 15: 1 2, filtered\
            ; 0/0 15: 1 2, filtered\
            ; 0/0 15: 1 2, filtered\
            ; 0/0 15: 1 2, filtered\
            ; 0/0 9: 1 2, filtered\
            ; 0/0 21: 1 2, filtered",
    )
}

#[test]
fn a_word_that_is_missing_is_so_in_every_cell(rt: HostRuntime) -> Result<(), Fail> {
    let sheet = Sheet {
        rules: Rules {
            missing: &[b"-9999", b"?"],
            skips_unnamed: true,
            ..OWN.rules
        },
        ..OWN
    };
    expect_told(
        &rt,
        rt.alloc(),
        &sheet,
        "v,0,-9999,2\n?,1,1,2\nv,2,1,-9999.0\nv,3,1,-9999.1\n",
        "[v] | [] | 0/0: no coordinates; -/0: no animal; 0/0: no coordinates; 0/0 3: 1 -9999",
    )
}

#[test]
fn a_comma_stands_before_decimals_where_it_may(rt: HostRuntime) -> Result<(), Fail> {
    let sheet = Sheet {
        rules: Rules {
            has_commas: true,
            ..OWN.rules
        },
        ..OWN
    };
    expect_told(
        &rt,
        rt.alloc(),
        &sheet,
        "v,0,\"1000,5\",\"-2,5\"\n",
        "[v] | [] | 0/0 0: 1001 -2",
    )
}
