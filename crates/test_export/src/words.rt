// Tests of the words of the program that makes tracks.

use range_plane::Scale;
use split_encoding::Encoding;
use split_pace::Speed;
use split_reading::Zone;
use split_words::{WordFault, Words, read_words};
use std::alloc::{AllocError, Global};
use std::test::Fail;

// The program's name and words behind it.
pub(crate) fn words_of(alloc: Global, texts: &[&str]) -> Result<Vec<String>, AllocError> {
    let mut words = Vec::new(alloc);
    words.push(String::from_str(alloc, "homerange-split")?)?;
    for text in texts {
        words.push(String::from_str(alloc, text)?)?;
    }
    Ok(words)
}

// Appends an option of a list of options given.
fn tell_given(text: &mut Vec<u8>, name: &[u8], value: Option<&[u8]>) -> Result<(), AllocError> {
    text.extend_from_slice(name)?;
    if let Some(value) = value {
        text.extend_from_slice(b"=")?;
        text.extend_from_slice(value)?;
    }
    text.extend_from_slice(b";")
}

// The options given, each with its value.
pub(crate) fn given_text(alloc: Global, words: &Words<'_>) -> Result<Vec<u8>, AllocError> {
    let mut text = Vec::new(alloc);
    for given in &words.given {
        tell_given(&mut text, given.name, given.value)?;
    }
    Ok(text)
}

#[test]
fn an_export_alone_has_defaults(rt: HostRuntime) -> Result<(), Fail> {
    let alloc = rt.alloc();
    let words = words_of(alloc, &["foxes.csv"])?;
    let Ok(found) = read_words(alloc, &words) else {
        assert!(rt; false);
        return Ok(());
    };
    assert!(rt; found.only_export() == "foxes.csv");
    assert!(rt; found.into == "tracks");
    assert!(rt; found.unit == Scale::Metre);
    assert!(rt; found.zone == None);
    assert!(rt; found.columns.animal.is_empty() && found.columns.time.is_empty());
    assert!(rt; found.columns.easting == None && found.columns.northing == None);
    assert!(rt; found.name == None && found.missing.is_empty());
    assert!(rt;
        found.text.encoding == Encoding::Utf8 && !found.text.is_gpx && found.text.skipped == 0
    );
    assert!(rt; found.choices.sensors.is_empty() && found.choices.needs_time() == "");
    assert!(rt; !found.keeps_marks && !found.skips_unnamed);
    assert!(rt; found.given.is_empty());
    Ok(())
}

#[test]
fn words_say_each_option(rt: HostRuntime) -> Result<(), Fail> {
    let alloc = rt.alloc();
    let texts = [
        "--zone",
        " 5s",
        "--unit=dm",
        "--into",
        "out",
        "foxes.csv",
        "--time",
        "when",
        "--animal",
        "who",
        "--northing",
        "n",
        "--easting",
        "e",
        "--skip-unnamed",
        "--mark",
        "--name",
        "a b",
    ];
    let words = words_of(alloc, &texts)?;
    let Ok(found) = read_words(alloc, &words) else {
        assert!(rt; false);
        return Ok(());
    };
    let zone = Zone {
        number: 5,
        is_south: true,
    };
    assert!(rt; found.only_export() == "foxes.csv" && found.into == "out");
    assert!(rt; found.unit == Scale::Decimetre && found.zone == Some(zone));
    assert!(rt; found.columns.animal.as_slice() == [b"who".as_slice()].as_slice());
    assert!(rt; found.columns.time.as_slice() == [b"when".as_slice()].as_slice());
    assert!(rt; found.name == Some("a b"));
    assert!(rt; found.columns.easting == Some(b"e".as_slice()));
    assert!(rt; found.columns.northing == Some(b"n".as_slice()));
    assert!(rt; found.keeps_marks && found.skips_unnamed);
    let given = b"animal=who;easting=e;mark;name=a b;northing=n;skip-unnamed;time=when;zone= 5s;";
    assert!(rt; given_text(alloc, &found)?.as_slice() == given.as_slice());
    Ok(())
}

#[test]
fn words_say_which_fixes_are_taken(rt: HostRuntime) -> Result<(), Fail> {
    let alloc = rt.alloc();
    let texts = [
        "a.csv",
        "--sensor=gps,none",
        "--argos-class=3,2",
        "--max-dop=5.50",
        "--fix-type=3D,none",
        "--since=2024-05-01 00:00:00.5",
        "--until=2024-05-01",
        "--max-speed=1.25",
        "--every=1.5h",
        "--na=-9999,x",
        "--encoding=Latin1",
        "--skip-lines=02",
    ];
    let words = words_of(alloc, &texts)?;
    let Ok(found) = read_words(alloc, &words) else {
        assert!(rt; false);
        return Ok(());
    };
    let choices = &found.choices;
    assert!(rt; choices.sensors.as_slice() == [b"gps".as_slice(), b""].as_slice());
    assert!(rt; choices.classes.as_slice() == [b"3".as_slice(), b"2"].as_slice());
    assert!(rt; choices.types.as_slice() == [b"3D".as_slice(), b"none"].as_slice());
    assert!(rt; choices.most_dop == Some(5_500_000_000_000));
    assert!(rt; choices.since == None && choices.until == None);
    assert!(rt; choices.since_words == Some("2024-05-01 00:00:00.5"));
    assert!(rt; choices.until_words == Some("2024-05-01"));
    assert!(rt;
        choices.speed
            == Some(Speed {
                millionths: 1_250_000
            })
    );
    assert!(rt; choices.every == Some(5400) && choices.needs_time() == "--since");
    assert!(rt; found.missing.as_slice() == [b"-9999".as_slice(), b"x"].as_slice());
    assert!(rt; found.text.encoding == Encoding::Latin1 && found.text.skipped == 2);
    let given =
        b"argos-class=3,2;encoding=Latin1;every=1.5h;fix-type=3D,none;max-dop=5.50;max-speed=1.25;na=-9999,x;\
        sensor=gps,none;since=2024-05-01 00:00:00.5;skip-lines=2;until=2024-05-01;";
    assert!(rt; given_text(alloc, &found)?.as_slice() == given.as_slice());
    Ok(())
}

#[test]
fn blanks_may_stand_beside_the_words_of_a_list(rt: HostRuntime) -> Result<(), Fail> {
    let alloc = rt.alloc();
    let texts = [
        "a.csv",
        "--sensor= gps , none",
        "--argos-class=3, 2, none",
        "--fix-type=3D fix , 2D",
        "--na=N/A, -9999 ,no fix",
    ];
    let words = words_of(alloc, &texts)?;
    let Ok(found) = read_words(alloc, &words) else {
        assert!(rt; false);
        return Ok(());
    };
    let choices = &found.choices;
    assert!(rt; choices.sensors.as_slice() == [b"gps".as_slice(), b""].as_slice());
    assert!(rt; choices.classes.as_slice() == [b"3".as_slice(), b"2", b""].as_slice());
    assert!(rt; choices.types.as_slice() == [b"3D fix".as_slice(), b"2D"].as_slice());
    assert!(rt; found.missing.as_slice() == [b"N/A".as_slice(), b"-9999", b"no fix"].as_slice());
    Ok(())
}

#[test]
fn classes_are_taken_where_fixes_without_one_are_not(rt: HostRuntime) -> Result<(), Fail> {
    let alloc = rt.alloc();
    let cases = [
        (["a.csv"].as_slice(), false),
        (&["a.csv", "--argos-class=3"], true),
        (&["a.csv", "--argos-class=3,none"], false),
        (&["a.csv", "--argos-class=none"], false),
    ];
    for (texts, expected) in cases {
        let words = words_of(alloc, texts)?;
        match &read_words(alloc, &words) {
            Ok(found) => assert!(rt; found.choices.takes_classes() == expected, "{texts:?}"),
            Err(_) => assert!(rt; false, "{texts:?}"),
        }
    }
    Ok(())
}

#[test]
fn exports_are_taken_in_their_order(rt: HostRuntime) -> Result<(), Fail> {
    let alloc = rt.alloc();
    let words = words_of(alloc, &["b.csv", "--into", "out", "a.csv", "-"])?;
    let Ok(found) = read_words(alloc, &words) else {
        return Err(Fail::from("refused"));
    };
    let exports = ["b.csv", "a.csv", "-"];
    assert!(&rt; found.exports.as_slice() == exports.as_slice(), "three");
    assert!(&rt;
        found.first_export() == "b.csv" && found.only_export() == "",
        "not one"
    );
    let words = words_of(alloc, &["a.csv", "b.csv", "a.csv"])?;
    let Err(WordFault::Refused(refusal)) = read_words(alloc, &words) else {
        return Err(Fail::from("taken"));
    };
    let expected = b"a.csv is named twice: name each export once".as_slice();
    assert!(&rt; refusal.text.as_slice() == expected, "twice");
    Ok(())
}
