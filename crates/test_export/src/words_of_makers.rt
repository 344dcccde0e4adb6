// Tests of the words that stand for a maker's options. Expected titles are those of `collars.csv`.

use crate::words::{given_text, words_of};
use split_words::{NamedColumns, read_words};
use std::alloc::Global;
use std::process::Abort;
use std::test::Fail;

// Columns as one text, in the order animal, time, easting, northing, lon, lat, dop, fix, argos; of those of one role each
// ends with a comma.
fn tell_columns(alloc: Global, columns: &NamedColumns<'_>) -> Result<Vec<u8>, Fail> {
    let mut text = Vec::new(alloc);
    for titles in [&columns.animal, &columns.time] {
        for title in titles {
            text.extend_from_slice(title)?;
            text.extend_from_slice(b",")?;
        }
        text.extend_from_slice(b";")?;
    }
    for title in [
        columns.easting,
        columns.northing,
        columns.lon,
        columns.lat,
        columns.dop,
        columns.fix,
        columns.argos,
    ] {
        text.extend_from_slice(title.unwrap_or(b"-"))?;
        text.extend_from_slice(b";")?;
    }
    Ok(text)
}

// Checks which columns words name.
fn expect_columns(
    rt: &impl Abort,
    alloc: Global,
    texts: &[&str],
    expected: &str,
) -> Result<(), Fail> {
    let words = words_of(alloc, texts)?;
    match &read_words(alloc, &words) {
        Ok(found) => {
            let told = tell_columns(alloc, &found.columns)?;
            assert!(rt; told.as_slice() == expected.as_bytes(), "{texts:?}");
        }
        Err(_) => assert!(rt; false, "{texts:?}"),
    }
    Ok(())
}

#[test]
fn a_maker_stands_for_its_columns(rt: HostRuntime) -> Result<(), Fail> {
    let cases = [
        (
            "vectronic",
            "AnimalID,CollarID,;UTC_Date,UTC_Time,;-;-;Longitude [deg]|Longitude [°]|Longitude[deg]|Longitude[°]|Longitude;\
             Latitude [deg]|Latitude [°]|Latitude[deg]|Latitude[°]|Latitude;DOP;FixType;-;",
        ),
        (
            "lotek",
            "Device Name|Device_ID|Device ID|DeviceID,Device_ID|Device ID|DeviceID,;Date & Time [GMT],;-;-;Longitude;\
             Latitude;DOP;Fix Status|FixStatus;-;",
        ),
        (
            "telonics",
            ";GPS Fix Time,;-;-;GPS Longitude;GPS Latitude;GPS Horizontal Dilution;GPS Fix Attempt;-;",
        ),
        (
            "eobs",
            "tag-serial-number,;timestamp-of-fix,;-;-;longitude;latitude;-;type-of-fix;-;",
        ),
        (
            "ornitela",
            "device_id,;UTC_datetime,;-;-;Longitude;Latitude;hdop;-;-;",
        ),
        (
            "argos",
            "Platform ID No.,;Loc. date,;-;-;Longitude;Latitude;-;-;Loc. quality;",
        ),
    ];
    for (maker, expected) in cases {
        let texts = ["a.csv", "--from", maker, "--max-dop=5", "--fix-type=3D"];
        expect_columns(&rt, rt.alloc(), &texts, expected)?;
    }
    Ok(())
}

#[test]
fn gpx_stands_for_its_columns(rt: HostRuntime) -> Result<(), Fail> {
    let texts = ["a.gpx", "--from", "gpx"];
    let expected = ";time,;-;-;lon;lat;-;-;-;";
    expect_columns(&rt, rt.alloc(), &texts, expected)
}

#[test]
fn columns_that_are_named_go_before_those_of_a_maker(rt: HostRuntime) -> Result<(), Fail> {
    let cases = [
        (
            ["a.csv", "--from=eobs", "--easting=x", "--northing=y"].as_slice(),
            "tag-serial-number,;timestamp-of-fix,;x;y;-;-;-;-;-;",
        ),
        (
            &[
                "a.csv",
                "--from=eobs",
                "--easting=x",
                "--lon=l",
                "--fix-type=3D",
            ],
            "tag-serial-number,;timestamp-of-fix,;x;-;l;-;-;type-of-fix;-;",
        ),
        (
            &["a.csv", "--from=eobs", "--lon=l", "--max-dop=5"],
            "tag-serial-number,;timestamp-of-fix,;-;-;l;latitude;-;-;-;",
        ),
        (
            &["a.csv", "--from=eobs", "--northing=y", "--fix="],
            "tag-serial-number,;timestamp-of-fix,;-;y;longitude;latitude;-;;-;",
        ),
        (
            &["a.csv", "--animal=a|b,c", "--from=ornitela", "--dop=d"],
            "a|b,c,;UTC_datetime,;-;-;Longitude;Latitude;d;-;-;",
        ),
        (
            &["a.csv", "--time=day,hour", "--from=argos", "--argos=class"],
            "Platform ID No.,;day,hour,;-;-;Longitude;Latitude;-;-;class;",
        ),
        (
            &["a.csv", "--animal=a,b", "--time=t,"],
            "a,b,;t,,;-;-;-;-;-;-;-;",
        ),
    ];
    for (texts, expected) in cases {
        expect_columns(&rt, rt.alloc(), texts, expected)?;
    }
    Ok(())
}

#[test]
fn a_maker_stands_for_forms_a_header_and_missing_words(rt: HostRuntime) -> Result<(), Fail> {
    let alloc = rt.alloc();
    // Whether there are forms of times, the start of the line of titles, and how many words are missing.
    let cases = [
        (
            ["a.csv", "--from=vectronic"].as_slice(),
            (true, None, 1usize),
        ),
        (
            &["a.csv", "--from=vectronic", "--na=-,x", "--time=t"],
            (false, None, 2),
        ),
        (
            &["a.csv", "--from=argos", "--time=t", "--time-format=%Y%m%d"],
            (true, None, 0),
        ),
        (
            &["a.csv", "--from=telonics"],
            (true, Some("Acquisition Time"), 0),
        ),
        (
            &["a.csv", "--from=telonics", "--header=When"],
            (true, Some("When"), 0),
        ),
        (&["a.csv", "--from=eobs"], (false, None, 0)),
        (&["a.csv", "--from=gpx"], (false, None, 0)),
    ];
    for (texts, (has_forms, header, missing)) in cases {
        let words = words_of(alloc, texts)?;
        match &read_words(alloc, &words) {
            Ok(found) => {
                assert!(rt; found.forms.is_some() == has_forms, "{texts:?}");
                assert!(rt; found.header == header, "{texts:?}");
                assert!(rt; found.missing.len() == missing, "{texts:?}");
            }
            Err(_) => assert!(rt; false, "{texts:?}"),
        }
    }
    Ok(())
}

#[test]
fn the_record_has_what_was_given(rt: HostRuntime) -> Result<(), Fail> {
    let alloc = rt.alloc();
    let texts = [
        "a.csv",
        "--tz=UTC",
        "--time-format=%Y %j",
        "--skip-lines=0",
        "--time=a,b",
        "--header=Acquisition",
        "--from=lotek",
    ];
    let words = words_of(alloc, &texts)?;
    let Ok(found) = read_words(alloc, &words) else {
        assert!(rt; false);
        return Ok(());
    };
    let given = b"from=lotek;header=Acquisition;time=a,b;time-format=%Y %j;tz=UTC;";
    assert!(rt; given_text(alloc, &found)?.as_slice() == given.as_slice());
    Ok(())
}
