// Tests of texts that are no records, with the line that is refused and why.

use page_record::{RecordFault, Wrong, read_record, sentence};
use std::process::Abort;

// Lines before others, of which each record needs those of the unit and the zone.
const HEAD: &[u8] = b"unit,m\nzone,none\n";

const SUM: &[u8] = b"9cf90bef112438f2194b5265ced5b68a45f8ab7fde95c8b65e9072a0e16cc96c";

// Texts that are refused. `read_record` of the package for Python refuses them too, but for that with the zone before the unit.
const TEXTS: [(&[u8], usize, Wrong); 15] = [
    (b"", 1, Wrong::Missing),
    (b"unit,m", 1, Wrong::Unended),
    (b"\n", 1, Wrong::Unknown),
    (b"unit,m\ntool,t\n", 2, Wrong::Place),
    (b"zone,none\nunit,m\ntool,t\n", 1, Wrong::Place),
    (b"unit,m\nunit,m\nzone,none\ntool,t\n", 2, Wrong::Place),
    (b"export,a\nexport,b\n", 2, Wrong::Place),
    (b"export,a\nunit,m\n", 2, Wrong::Place),
    (b"export,..\n", 1, Wrong::Export),
    (b"export,a/b\n", 1, Wrong::Export),
    (b"export,\n", 1, Wrong::Export),
    (b"export,a\nsha256,0a\n", 2, Wrong::Sum),
    (b"unit,km\n", 1, Wrong::Scale),
    (b"unit,m\nzone,61N\n", 2, Wrong::Zone),
    (b"unit,m\nzone,0S\n", 2, Wrong::Zone),
];

// Lines that are refused behind the unit and the zone. Python takes the last six of them.
const LINES: [(&[u8], Wrong); 17] = [
    (b"crs\n", Wrong::Unknown),
    (b"shifts,1,1\n", Wrong::Unknown),
    (b"zone,none\n", Wrong::Place),
    (b"shift,1\n", Wrong::Shift),
    (b"shift,1,+2\n", Wrong::Shift),
    (b"shift,1,1000000000\n", Wrong::Shift),
    (b"shift,1,2\nshift,1,2\n", Wrong::Place),
    (b"left,a,1\n", Wrong::Left),
    (b"left,a,-1,dop\n", Wrong::Left),
    (b"left,a,1000000000,dop\n", Wrong::Left),
    (b"track,a,1,1,0\n", Wrong::Track),
    (b"left,a,01,dop\n", Wrong::Left),
    (b"left,a,1,months\n", Wrong::Left),
    (b"track,a,1,1\n", Wrong::Track),
    (b"said,\xC3\n", Wrong::NoText),
    (b"option,a\nshift,1,2\n", Wrong::Place),
    (b"option,a,\\d\n", Wrong::Escape),
];

#[test]
fn other_texts_are_refused_with_their_line(rt: HostRuntime) {
    for (text, number, wrong) in TEXTS {
        match read_record(rt.alloc(), text) {
            Ok(_) => assert!(rt; false, "it is read"),
            Err(fault) => assert!(rt;
                fault == RecordFault::Line { number, wrong },
                "line {number}, {}",
                sentence(wrong)
            ),
        }
    }
}

#[test]
fn other_lines_are_refused(rt: HostRuntime) {
    for (line, wrong) in LINES {
        let mut text = Vec::new(rt.alloc());
        assert!(rt; text.extend_from_slice(HEAD).is_ok() && text.extend_from_slice(line).is_ok());
        match read_record(rt.alloc(), &text) {
            Err(RecordFault::Line { wrong: own, .. }) => {
                assert!(rt; own == wrong, "{}", sentence(wrong))
            }
            _ => assert!(rt; false, "{}", sentence(wrong)),
        }
    }
}

#[test]
fn an_animal_has_one_track_of_which_no_more_is_used(rt: HostRuntime) {
    for (first, second, wrong) in [
        (
            b"track,a,2,1,".as_slice(),
            b"track,a,2,1,".as_slice(),
            Wrong::Again,
        ),
        (b"track,a,2,2,", b"track,b,2,3,", Wrong::Track),
    ] {
        let mut text = Vec::new(rt.alloc());
        for part in [HEAD, first, SUM, b"\n", second, SUM, b"\ntool,t\n"] {
            assert!(rt; text.extend_from_slice(part).is_ok());
        }
        match read_record(rt.alloc(), &text) {
            Ok(_) => assert!(rt; false, "it is read"),
            Err(fault) => assert!(rt;
                fault == RecordFault::Line { number: 4, wrong },
                "{}",
                sentence(wrong)
            ),
        }
    }
}
