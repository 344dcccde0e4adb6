// Tests of the tables of GPX. The tables were made by the reader that the package for Python has (`gpx_lines`, on the
// XML reader of Python's library), and compared with the texts by eye.

use split_encoding::{decode, encoding_of};
use split_gpx::{GpxFault, GpxTable, declared_encoding, table_of_gpx};
use std::alloc::Global;
use std::process::Abort;
use std::test::Fail;

// Two points of a track.
const POINTS: &str = "<?xml version=\"1.0\"?>\n\
    <gpx version=\"1.1\" creator=\"x\" xmlns=\"http://www.topografix.com/GPX/1/1\"><trk><name>dog</name><trkseg>\n\
    <trkpt lat=\"46.356742\" lon=\"15.805899\"><ele>612</ele><time>2024-09-20T00:00:20Z</time></trkpt>\n\
    <trkpt lat=\"46.358710\" lon=\"15.807277\"><time>2024-09-20T06:00:20Z</time></trkpt>\n\
    </trkseg></trk></gpx>\n";

const TABLE_OF_POINTS: &str = "\"animal\",\"time\",\"lon\",\"lat\"\n\
    \"dog\",\"2024-09-20T00:00:20Z\",\"15.805899\",\"46.356742\"\n\
    \"dog\",\"2024-09-20T06:00:20Z\",\"15.807277\",\"46.358710\"\n";

// Tracks and segments of several kinds, in a namespace with a prefix, beside what is not read.
const SEVERAL: &str = "<?xml version='1.0' encoding='UTF-8' standalone='no'?>\n\
    <!-- made by hand -->\n\
    <?style none?>\n\
    <g:gpx xmlns:g='http://www.topografix.com/GPX/1/0' xmlns:o='urn:other'>\n\
    <g:metadata><g:name>all</g:name><g:time>2000-01-01T00:00:00Z</g:time></g:metadata>\n\
    <g:wpt lat='1' lon='2'><g:name>den</g:name><g:time>2001-01-01T00:00:00Z</g:time></g:wpt>\n\
    <g:rte><g:name>way</g:name><g:rtept lat='3' lon='4'/></g:rte>\n\
    <g:trk>\n\
    <g:extensions><g:name>inner</g:name><g:trkseg><g:trkpt lat='5' lon='6'/></g:trkseg></g:extensions>\n\
    <o:name>vixen</o:name><g:name>second</g:name>\n\
    <g:trkseg>\n\
    <g:trkpt lon = \"7\" lat\t=\n\
    '8' ><g:extensions><g:time>no</g:time></g:extensions><g:time>t1</g:time><g:time>t2</g:time></g:trkpt >\n\
    <g:trkpt lat='9' lon='10'/>\n\
    <g:other><g:trkpt lat='11' lon='12'/></g:other>\n\
    </g:trkseg>\n\
    <g:trkseg/>\n\
    <g:trkseg><g:trkpt o:lat='13' lon='14'><g:time/></g:trkpt></g:trkseg>\n\
    <g:trkpt lat='15' lon='16'/>\n\
    </g:trk>\n\
    <g:trk/>\n\
    <g:trk><g:trkseg><g:trkpt lat='17' lon='18'></g:trkpt></g:trkseg><g:name>late</g:name></g:trk>\n\
    <g:trk><g:name>\n\t old\n boar </g:name><g:name>b</g:name><g:trkseg><g:trkpt/></g:trkseg></g:trk>\n\
    <g:trk><g:name>c  d</g:name><g:trkseg><g:trkpt lat='19' lon='20'/></g:trkseg></g:trk>\n\
    </g:gpx>\n\
    <!-- end --> <?end?>\n";

const TABLE_OF_SEVERAL: &str = "\"animal\",\"time\",\"lon\",\"lat\"\n\
    \"vixen\",\"t1\",\"7\",\"8\"\n\
    \"vixen\",\"\",\"10\",\"9\"\n\
    \"vixen\",\"\",\"14\",\"\"\n\
    \"late\",\"\",\"18\",\"17\"\n\
    \"old boar\",\"\",\"\",\"\"\n\
    \"c  d\",\"\",\"20\",\"19\"\n";

// Signs that are written otherwise in XML or in CSV, and ends of lines.
const SIGNS: &str =
    "<gpx><trk><name>a&lt;b&gt;&amp;&apos;&quot;&#74;&#xe4;ger &#x1F98A;</name><trkseg>\n\
    <trkpt lat=\"1&#48;\" lon=\" 2\t3\n\
    4\r\n\
    5\r6&#10;&quot;'\"><time>x<!-- y -->z<?p q?><![CDATA[<&amp;>\"]]]]>\r\n\
    w\rv<b>u</b>t</time></trkpt>\n\
    </trkseg></trk><trk><name><![CDATA[old \"boar\"\r\n\
    ]]></name><trkseg><trkpt lat='\"1\"' lon=\">\"/></trkseg></trk></gpx>";

const TABLE_OF_SIGNS: &str = "\"animal\",\"time\",\"lon\",\"lat\"\n\
    \"a<b>&'\"\"Jäger \u{1F98A}\",\"xz<&amp;>\"\"]] w v\",\" 2 3 4 5 6\n\
    \"\"'\",\"10\"\n\
    \"old \"\"boar\"\"\",\"\",\">\",\"\"\"1\"\"\"\n";

// Asserts that the table of a text is this one.
fn assert_table(rt: &impl Abort, alloc: Global, text: &str, table: &str) {
    match table_of_gpx(alloc, text.as_bytes(), false) {
        Ok(found) => {
            let found = str::from_utf8(found.text.as_slice()).unwrap_or_default();
            assert!(rt; found == table, "{found}");
        }
        Err(fault) => assert!(rt; false, "{fault:?}"),
    }
}

#[test]
fn points_of_tracks_are_records(rt: HostRuntime) {
    assert_table(&rt, rt.alloc(), POINTS, TABLE_OF_POINTS);
}

#[test]
fn points_of_tracks_alone_are_read(rt: HostRuntime) {
    assert_table(&rt, rt.alloc(), SEVERAL, TABLE_OF_SEVERAL);
}

// Texts, and how many of their points are not read: of SEVERAL the waypoint, that of the route, and three outside of segments.
const OTHER_POINTS: [(&str, usize); 3] = [
    (POINTS, 0),
    (SEVERAL, 5),
    (
        "<gpx><wpt lat='1' lon='2'/><wpt/><trk><trkseg><trkpt lat='1' lon='2'/></trkseg></trk></gpx>",
        2,
    ),
];

#[test]
fn points_that_are_not_read_are_counted(rt: HostRuntime) {
    for (text, count) in OTHER_POINTS {
        let table = table_of_gpx(rt.alloc(), text.as_bytes(), false);
        assert!(rt;
            table.is_ok_and(|table| table.other_points == count),
            "{text}"
        );
    }
}

#[test]
fn signs_are_read_as_xml_and_written_as_csv(rt: HostRuntime) {
    assert_table(&rt, rt.alloc(), SIGNS, TABLE_OF_SIGNS);
}

#[test]
fn without_points_it_is_refused(rt: HostRuntime) {
    for text in [
        "<gpx/>",
        "\u{FEFF}<gpx/>",
        "\u{FEFF}<?xml version='1.0'?>\n<gpx></gpx>",
        " <!-- a - b --><gpx xmlns=''><!----><?a?></gpx > ",
        "<gpx><wpt lat='1' lon='2'/><trk><name>a</name><trkseg/></trk></gpx>",
        "<gpx><gpx><trk><trkseg><trkpt/></trkseg></trk></gpx></gpx>",
    ] {
        let table = table_of_gpx(rt.alloc(), text.as_bytes(), true);
        assert!(rt; table == Err(GpxFault::NoPoints), "{text}");
    }
}

#[test]
fn of_tracks_without_a_name_one_alone_is_an_animal(rt: HostRuntime) {
    let alloc = rt.alloc();
    let one =
        b"<gpx><trk/><trk><name> </name><trkseg><trkpt lat='1' lon='2'/></trkseg></trk></gpx>";
    let table = table_of_gpx(alloc, one.as_slice(), false);
    let expected = b"\"time\",\"lon\",\"lat\"\n\"\",\"2\",\"1\"\n".as_slice();
    assert!(rt;
        table.is_ok_and(|table| table.text.as_slice() == expected),
        "one"
    );
    let two =
        b"<gpx><trk><trkseg><trkpt lat='1' lon='2'/></trkseg></trk><trk><trkseg><trkpt/></trkseg></trk></gpx>";
    let table = table_of_gpx(alloc, two.as_slice(), false);
    assert!(rt; table == Err(GpxFault::NoName { track: 1 }), "two");
    assert!(rt;
        table_of_gpx(alloc, two.as_slice(), true).is_ok(),
        "of one animal"
    );
    let other =
        b"<gpx><trk><name>a</name><trkseg><trkpt/></trkseg></trk><trk><trkseg><trkpt/></trkseg></trk></gpx>";
    let table = table_of_gpx(alloc, other.as_slice(), true);
    assert!(rt;
        table == Err(GpxFault::NoName { track: 2 }),
        "beside a name"
    );
}

// The table of GPX in the encoding that it names.
fn table_by_name(alloc: Global, bytes: &[u8]) -> Option<Result<GpxTable, GpxFault>> {
    let name = declared_encoding(bytes).unwrap_or(b"utf-8");
    let text = decode(alloc, bytes, encoding_of(name)?).ok()?;
    Some(table_of_gpx(alloc, text.as_slice(), false))
}

// A track of one point, in Latin-1.
const LATIN_1: &[u8] = b"<?xml version=\"1.0\" encoding=\"ISO-8859-1\"?>\n\
    <gpx><trk><name>B\xE4r</name><trkseg><trkpt lat=\"1\" lon=\"2\"/></trkseg></trk></gpx>";

// `<gpx/>` in UTF-16.
const UTF_16: &[u8] = b"\xFE\xFF\0<\0g\0p\0x\0/\0>";

#[test]
fn a_text_is_read_in_the_encoding_that_it_names(rt: HostRuntime) -> Result<(), Fail> {
    let table = table_by_name(rt.alloc(), LATIN_1).ok_or("no text")?;
    let expected = "\"animal\",\"time\",\"lon\",\"lat\"\n\"Bär\",\"\",\"2\",\"1\"\n";
    assert!(rt;
        table.is_ok_and(|table| table.text.as_slice() == expected.as_bytes()),
        "Latin-1"
    );
    let table = table_by_name(rt.alloc(), UTF_16).ok_or("no text")?;
    assert!(rt; table == Err(GpxFault::NoPoints), "UTF-16");
    Ok(())
}

// First bytes, and the name of the encoding that they tell; empty for none.
const DECLARED: [(&[u8], &[u8]); 15] = [
    (b"<?xml version='1.0' encoding='cp1252'?><gpx/>", b"cp1252"),
    (
        b"<?xml version=\"1.0\"\n\tencoding = \"utf-8\" standalone='yes'?>",
        b"utf-8",
    ),
    (
        b"\xEF\xBB\xBF<?xml version='1.0' encoding='UTF-8'?>",
        b"UTF-8",
    ),
    (b"<?xml encoding=''?>", b""),
    (b"\xFF\xFE<\0", b"utf-16"),
    (b"\xFE\xFF\0<", b"utf-16"),
    (b"<?xml version='1.0'?><gpx encoding='latin-1'/>", b""),
    (b"<?xml version='1.0'><gpx encoding='latin-1'/>", b""),
    (b" <?xml version='1.0' encoding='latin-1'?>", b""),
    (b"<?xml-style encoding='latin-1'?>", b""),
    (b"<?xml version='1.0' encoding='latin-1", b""),
    (b"<?xml version encoding='latin-1'?>", b""),
    (b"<?XML encoding='latin-1'?>", b""),
    (b"<gpx/>", b""),
    (b"", b""),
];

#[test]
fn first_bytes_tell_the_encoding(rt: HostRuntime) {
    for (bytes, name) in DECLARED {
        let declared = declared_encoding(bytes).unwrap_or_default();
        assert!(rt; declared == name, "{bytes:?}");
    }
}
