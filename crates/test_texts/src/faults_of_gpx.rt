// Tests of texts that are no GPX. The lines were counted by hand; Python's library refuses the same texts, but for document
// types and the depth of elements.

use split_gpx::{GpxCause, GpxFault, table_of_gpx};
use std::alloc::{AllocError, Global};
use std::process::Abort;
use std::test::Fail;

// Texts, and what in which line is refused.
const REFUSED: [(&str, usize, GpxCause); 60] = [
    ("<gpx>\n\0</gpx>", 2, GpxCause::Character),
    ("<gpx a='\u{1F}'/>", 1, GpxCause::Character),
    ("<gpx><!-- \u{FFFF} --></gpx>", 1, GpxCause::Character),
    ("<!DOCTYPE gpx><gpx/>", 1, GpxCause::DocumentType),
    (
        "\n<!DOCTYPE gpx [<!ENTITY a 'b'>]>\n<gpx>&a;</gpx>",
        2,
        GpxCause::DocumentType,
    ),
    (
        "<gpx>\n<trk>\n<name>a\n& b</name></trk></gpx>",
        4,
        GpxCause::Reference,
    ),
    ("<gpx>&nbsp;</gpx>", 1, GpxCause::Reference),
    ("<gpx>&amp</gpx>", 1, GpxCause::Reference),
    ("<gpx>&;</gpx>", 1, GpxCause::Reference),
    ("<gpx>&#;</gpx>", 1, GpxCause::Reference),
    ("<gpx>&#x;</gpx>", 1, GpxCause::Reference),
    ("<gpx>&#X41;</gpx>", 1, GpxCause::Reference),
    ("<gpx>&#+41;</gpx>", 1, GpxCause::Reference),
    ("<gpx>&#4A;</gpx>", 1, GpxCause::Reference),
    ("<gpx>&#0;</gpx>", 1, GpxCause::Reference),
    ("<gpx>&#8;</gpx>", 1, GpxCause::Reference),
    ("<gpx>&#xD800;</gpx>", 1, GpxCause::Reference),
    ("<gpx>&#xFFFE;</gpx>", 1, GpxCause::Reference),
    ("<gpx>&#x110000;</gpx>", 1, GpxCause::Reference),
    ("<gpx>&#99999999999999999999;</gpx>", 1, GpxCause::Reference),
    ("<gpx>\n<a b='&c;'/></gpx>", 2, GpxCause::Markup),
    ("<gpx><a b='<'/></gpx>", 1, GpxCause::Markup),
    ("<gpx><a b=c/></gpx>", 1, GpxCause::Markup),
    ("<gpx><a b/></gpx>", 1, GpxCause::Markup),
    ("<gpx><a b='c'd='e'/></gpx>", 1, GpxCause::Markup),
    ("<gpx><a b='c/></gpx>", 1, GpxCause::Markup),
    ("<gpx><a / ></gpx>", 1, GpxCause::Markup),
    ("<gpx><a 1='2'/></gpx>", 1, GpxCause::Markup),
    (
        "<gpx><trk><trkseg>\n<trkpt lat='1' lon='2'\nlat='1'/></trkseg></trk></gpx>",
        2,
        GpxCause::Markup,
    ),
    ("<gpx><a lon='1' lon='2'/></gpx>", 1, GpxCause::Markup),
    ("<gpx>< a/></gpx>", 1, GpxCause::Markup),
    ("<gpx><1/></gpx>", 1, GpxCause::Markup),
    ("<gpx><></gpx>", 1, GpxCause::Markup),
    ("<gpx><-a/></gpx>", 1, GpxCause::Markup),
    ("<gpx></ gpx>", 1, GpxCause::Markup),
    ("<gpx></gpx a='b'>", 1, GpxCause::Markup),
    ("<gpx><!-- a -- b --></gpx>", 1, GpxCause::Markup),
    ("<gpx><!-- a ---></gpx>", 1, GpxCause::Markup),
    ("<gpx><!-- a</gpx>", 1, GpxCause::Markup),
    ("<gpx><!-></gpx>", 1, GpxCause::Markup),
    ("<gpx><![CDATA[a]]</gpx>", 1, GpxCause::Markup),
    ("<gpx><![cdata[a]]></gpx>", 1, GpxCause::Markup),
    ("<gpx>]]></gpx>", 1, GpxCause::Markup),
    ("<gpx><?a ></gpx>", 1, GpxCause::Markup),
    ("<gpx><? a?></gpx>", 1, GpxCause::Markup),
    ("<gpx><?a/b?></gpx>", 1, GpxCause::Markup),
    ("<?xml?><gpx/>", 1, GpxCause::Markup),
    ("<?xml encoding='utf-8'?><gpx/>", 1, GpxCause::Markup),
    ("<?xml version='1.0' a='b'?><gpx/>", 1, GpxCause::Markup),
    ("\n<?xml version='1.0'?><gpx/>", 2, GpxCause::Markup),
    ("<gpx><?XML a?></gpx>", 1, GpxCause::Markup),
    ("<gpx>\n<", 2, GpxCause::Markup),
    ("<gpx>\n<trk>\n</gpx>", 3, GpxCause::OtherEnd),
    ("<gpx><a:b></c:b></gpx>", 1, GpxCause::OtherEnd),
    ("<gpx/>\n</gpx>", 2, GpxCause::OtherEnd),
    ("<gpx/>\na", 2, GpxCause::Outside),
    ("<gpx/>\n\n<gpx/>", 3, GpxCause::Outside),
    ("<gpx/><![CDATA[ ]]>", 1, GpxCause::Outside),
    ("<gpx>\n<trk>\n", 3, GpxCause::Unclosed),
    ("<gpx><trk></trk>", 1, GpxCause::Unclosed),
];

// Texts that have no element `gpx` around all.
const OTHERS: [&str; 9] = [
    "",
    " \n",
    "<!-- gpx -->",
    "<?xml version='1.0'?>",
    "animal,second,easting,northing\na,0,1,2\n",
    "<kml><gpx/></kml>",
    "<gpxx/>",
    "<GPX/>",
    "a<gpx/>",
];

// A text of a head, of something many times, and of an end.
fn repeated(
    alloc: Global,
    head: &[u8],
    part: &[u8],
    times: u32,
    end: &[u8],
) -> Result<Vec<u8>, AllocError> {
    let mut text = head.to_vec(alloc)?;
    for _ in 0..times {
        text.extend_from_slice(part)?;
    }
    text.extend_from_slice(end)?;
    Ok(text)
}

// Asserts that such a text is refused.
fn assert_refused(rt: &impl Abort, alloc: Global, text: &[u8], line: usize, cause: GpxCause) {
    let table = table_of_gpx(alloc, text, false);
    assert!(rt;
        table == Err(GpxFault::Refused { line, cause }),
        "{cause:?}"
    );
}

#[test]
fn what_is_not_as_xml_has_it_is_told_by_its_line(rt: HostRuntime) {
    for (text, line, cause) in REFUSED {
        let table = table_of_gpx(rt.alloc(), text.as_bytes(), false);
        assert!(rt; table == Err(GpxFault::Refused { line, cause }), "{text:?}");
    }
}

#[test]
fn a_text_without_the_element_is_no_gpx(rt: HostRuntime) {
    for text in OTHERS {
        let table = table_of_gpx(rt.alloc(), text.as_bytes(), false);
        assert!(rt; table == Err(GpxFault::NotGpx), "{text:?}");
    }
}

#[test]
fn bytes_that_are_not_utf_8_are_no_gpx(rt: HostRuntime) {
    for bytes in [b"<gpx>\xE4</gpx>".as_slice(), b"\xFF\xFE<\0"] {
        let table = table_of_gpx(rt.alloc(), bytes, false);
        assert!(rt; table == Err(GpxFault::NotUtf8), "{bytes:?}");
    }
}

#[test]
fn elements_may_be_in_each_other_up_to_a_hundred(rt: HostRuntime) -> Result<(), Fail> {
    let alloc = rt.alloc();
    let most = repeated(alloc, b"<gpx>", b"<a>", 98, b"<a/>")?;
    let whole = repeated(alloc, most.as_slice(), b"</a>", 98, b"</gpx>")?;
    assert!(rt;
        table_of_gpx(alloc, whole.as_slice(), false) == Err(GpxFault::NoPoints),
        "a hundred"
    );
    let more = repeated(alloc, b"<gpx>\n", b"<a>", 100, b"")?;
    assert_refused(&rt, alloc, more.as_slice(), 2, GpxCause::TooDeep);
    Ok(())
}

const MILLION: u32 = 1_000_000;

#[test]
fn what_is_hostile_is_refused_soon(rt: HostRuntime) -> Result<(), Fail> {
    let alloc = rt.alloc();
    let nested = repeated(alloc, b"<gpx>", b"<a>", MILLION, b"")?;
    assert_refused(&rt, alloc, nested.as_slice(), 1, GpxCause::TooDeep);
    let unclosed = repeated(alloc, b"<gpx>\n<a ", b"b='c' ", MILLION, b"")?;
    assert_refused(&rt, alloc, unclosed.as_slice(), 2, GpxCause::Markup);
    let ampersands = repeated(alloc, b"<gpx>\n", b"&", MILLION, b"</gpx>")?;
    assert_refused(&rt, alloc, ampersands.as_slice(), 2, GpxCause::Reference);
    let comments = repeated(alloc, b"<gpx>\n", b"<!-- a ->", MILLION, b"</gpx>")?;
    assert_refused(&rt, alloc, comments.as_slice(), 2, GpxCause::Markup);
    let tags = repeated(alloc, b"<gpx>", b"<", MILLION, b"</gpx>")?;
    assert_refused(&rt, alloc, tags.as_slice(), 1, GpxCause::Markup);
    Ok(())
}

#[test]
fn what_is_great_is_read_soon(rt: HostRuntime) -> Result<(), Fail> {
    let alloc = rt.alloc();
    let attributes = repeated(alloc, b"<gpx ", b"b='c' ", MILLION, b"/>")?;
    assert!(rt;
        table_of_gpx(alloc, attributes.as_slice(), false) == Err(GpxFault::NoPoints),
        "attributes"
    );
    let attribute = repeated(alloc, b"<gpx a='", b"&amp; 12345", MILLION, b"'/>")?;
    assert!(rt;
        table_of_gpx(alloc, attribute.as_slice(), false) == Err(GpxFault::NoPoints),
        "an attribute"
    );
    let elements = repeated(
        alloc,
        b"<gpx>",
        b"<trk/><!---->\r\n",
        MILLION / 10,
        b"</gpx>",
    )?;
    assert!(rt;
        table_of_gpx(alloc, elements.as_slice(), false) == Err(GpxFault::NoPoints),
        "elements"
    );
    let name = repeated(
        alloc,
        b"<gpx><trk><name>",
        b"<?a?>&lt;x",
        MILLION / 10,
        b"</name></trk></gpx>",
    )?;
    assert!(rt;
        table_of_gpx(alloc, name.as_slice(), false) == Err(GpxFault::NoPoints),
        "a name"
    );
    Ok(())
}
