// Tests of the reader of reports. The report is worked out by hand: a fox at the corners of a rectangle of 4 by 3, one second of ten
// each, and an owl within it.

use page_report::{Corner, Overlap, ReadFault, Report, read_report};
use range_estimator::Row;
use range_lanes::Extent;
use range_plane::Scale;
use range_stats::PercentRow;
use std::alloc::{AllocError, Global};

const FOX: &str =
    "animal,fox,fixes,4\nbox,fox,0,0,4,3\nrow,fox,1,10,1,0\nrow,fox,2,20,2,0\nrow,fox,3,30,3,12\nrow,fox,4,40,4,24\n\
    corner,fox,1,0,0\ncorner,fox,2,4,0\ncorner,fox,3,4,3\ncorner,fox,4,0,3\npercent,fox,50,2,2,0\n";

const OWL: &str =
    "animal,owl,fixes,1\nbox,owl,2,1,2,1\nrow,owl,1,10,1,0\ncorner,owl,1,2,1\npercent,owl,50,1,1,0\n";

const LAST: &str = "overlap,fox,owl,0,4\noverlap,owl,fox,1,1\nend,2\n";

// Texts that are no report, and how many parts are left from the line on that is refused: that behind the last end of a line is one.
const REFUSED: [(&str, usize); 15] = [
    ("", 1),
    ("end,0", 1),
    ("end,0\n\n", 2),
    ("end,1\n", 2),
    ("end,00\n", 2),
    ("end,0\r\n", 2),
    ("unit,m\nend,0\n", 3),
    ("unit,dm\nunit,dm\nend,0\n", 3),
    ("animal,a,fixes,1\nbox,b,1,1,1,1\nend,1\n", 3),
    ("animal,a,fixes,1\nbox,a,1,1,1,1\nend,1\n", 2),
    ("animal,a,fixes,1\nbox,a,1,1,1,1\nrow,a,2,0,1,0\nend,1\n", 3),
    (
        "animal,a,fixes,1\nbox,a,1,1,1,1\nrow,a,1,01,1,0\nend,1\n",
        3,
    ),
    (
        "animal,a,fixes,1\nbox,a,1,1,1,1\nrow,a,1,0,1,0,0\nend,1\n",
        3,
    ),
    (
        "animal,a,fixes,1\nbox,a,1,1,1,1\nrow,a,1,0,1,0\nrow,a,2,0,1,0\nend,1\n",
        2,
    ),
    (
        "animal,a,fixes,1\nbox,a,-1,1,1,1\nrow,a,1,0,1,0\nend,1\n",
        4,
    ),
];

// A text of parts.
fn joined(alloc: Global, parts: &[&str]) -> Result<Vec<u8>, AllocError> {
    let mut text = Vec::new(alloc);
    for part in parts {
        text.extend_from_slice(part.as_bytes())?;
    }
    Ok(text)
}

// What a text of parts is read as.
fn read(alloc: Global, parts: &[&str]) -> Result<Report, ReadFault> {
    match joined(alloc, parts) {
        Ok(text) => read_report(alloc, &text),
        Err(_no_memory) => Err(ReadFault::OutOfMemory),
    }
}

#[test]
fn the_numbers_of_a_report_are_those_of_its_lines(rt: HostRuntime) {
    let Ok(report) = read(rt.alloc(), &[FOX, OWL, LAST]) else {
        assert!(rt; false, "it is not read");
        return;
    };
    assert!(rt; report.unit == Scale::Metre, "it is in metres");
    let [fox, owl] = report.animals.as_slice() else {
        assert!(rt; false, "it has two animals");
        return;
    };
    assert!(rt;
        fox.name.as_slice() == b"fox".as_slice() && owl.name.as_slice() == b"owl".as_slice(),
        "they have names"
    );
    let extent = Extent {
        min_e: 0,
        min_n: 0,
        max_e: 4,
        max_n: 3,
    };
    assert!(rt; fox.extent == extent, "it has a box");
    let third = Row {
        second: 30,
        corners: 3,
        area2: 12,
    };
    assert!(rt;
        fox.rows.len() == 4 && fox.rows.get(2) == Some(&third),
        "it has rows"
    );
    let corner = Corner {
        easting: 4,
        northing: 3,
    };
    assert!(rt;
        fox.corners.len() == 4 && fox.corners.get(2) == Some(&corner),
        "it has corners"
    );
    let half = PercentRow {
        level: 50,
        kept: 2,
        corners: 2,
        area2: 0,
    };
    assert!(rt;
        fox.percents.as_slice() == [half].as_slice(),
        "it has a percent polygon"
    );
    let overlaps = [
        Overlap {
            animal: 0,
            range: 1,
            count: 0,
            fixes: 4,
        },
        Overlap {
            animal: 1,
            range: 0,
            count: 1,
            fixes: 1,
        },
    ];
    assert!(rt;
        report.overlaps.as_slice() == overlaps.as_slice(),
        "it has overlaps"
    );
}

#[test]
fn a_first_line_names_decimetres(rt: HostRuntime) {
    match read(rt.alloc(), &["unit,dm\n", FOX, OWL, LAST]) {
        Ok(report) => assert!(rt; report.unit == Scale::Decimetre, "it is in decimetres"),
        Err(_) => assert!(rt; false, "it is not read"),
    }
}

#[test]
fn a_report_of_no_animal_is_read(rt: HostRuntime) {
    match read(rt.alloc(), &["end,0\n"]) {
        Ok(report) => assert!(rt; report.animals.is_empty(), "it has none"),
        Err(_) => assert!(rt; false, "it is not read"),
    }
}

#[test]
fn other_texts_are_refused_with_their_line(rt: HostRuntime) {
    for (text, left) in REFUSED {
        match read_report(rt.alloc(), text.as_bytes()) {
            Ok(_) => assert!(rt; false, "{text} is read"),
            Err(fault) => assert!(rt; fault == ReadFault::Line { left }, "{text}"),
        }
    }
}
