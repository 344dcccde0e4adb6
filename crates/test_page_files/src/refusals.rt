// Folders that are not right, or of which two files do not agree.

use crate::files::{tracks, typed};
use crate::folder::{BOUNDARY, FIRST_TRACK, RECORD, REPORT, SECOND_TRACK};
use page_files::{Given, PageFault, Track, Words, files_of};
use page_ground::{Difference, Differences};
use split_clock::Clock;
use std::alloc::{AllocError, Global};

// Why a folder is refused; empty where it is not.
fn refusal(alloc: Global, given: &Given) -> Result<String, AllocError> {
    let clock = Clock::utc();
    refusal_beside(alloc, given, &typed(&clock))
}

// Why a folder is refused beside words that are typed in; empty where it is not.
fn refusal_beside(alloc: Global, given: &Given, words: &Words) -> Result<String, AllocError> {
    match files_of(alloc, given, words) {
        Ok(_files) => Ok(String::new(alloc)),
        Err(PageFault::Refused(text)) => Ok(text),
        Err(PageFault::OutOfMemory) => Err(AllocError),
    }
}

// Why a folder with these tracks is refused.
fn refusal_of_tracks(alloc: Global, first: &str, second: &str) -> Result<String, AllocError> {
    let tracks = tracks(alloc, first, second)?;
    let given = Given {
        report: REPORT.as_bytes(),
        record: Some(RECORD.as_bytes()),
        boundary: Some(BOUNDARY.as_bytes()),
        tracks: Some(&tracks),
    };
    refusal(alloc, &given)
}

// Why a folder with this report, this record and this boundary is refused.
fn refusal_of_texts<'a>(
    alloc: Global,
    report: &'a str,
    record: Option<&'a [u8]>,
    boundary: &'a str,
) -> Result<String, AllocError> {
    let tracks = tracks(alloc, FIRST_TRACK, SECOND_TRACK)?;
    let given = Given {
        report: report.as_bytes(),
        record,
        boundary: Some(boundary.as_bytes()),
        tracks: Some(&tracks),
    };
    refusal(alloc, &given)
}

// What is typed in of the reference system, the shift and the difference of areas.
type Beside = (Option<&'static [u8]>, (i32, i32), bool);

// The reference system of the record, and another one.
const OWN_SYSTEM: &[u8] = b"EPSG:32633 (WGS 84 / UTM zone 33N)";

const OTHER_SYSTEM: &[u8] = b"EPSG:32634 (WGS 84 / UTM zone 34N)";

// What is typed in, and why that is refused beside the record; empty where it is not.
const BESIDE_RECORD: [(Beside, &str); 5] = [
    ((Some(OWN_SYSTEM), (0, 0), false), ""),
    (
        (Some(OTHER_SYSTEM), (0, 0), false),
        "--system is 'EPSG:32634 (WGS 84 / UTM zone 34N)', and tracks/split.txt says EPSG:32633 (WGS 84 / UTM zone 33N): leave it out",
    ),
    (
        (Some(b"MGI"), (0, 0), false),
        "--system is 'MGI', and tracks/split.txt says EPSG:32633 (WGS 84 / UTM zone 33N): leave it out",
    ),
    (
        (None, (1, 0), false),
        "--shift: tracks/split.txt says by how much coordinates are shifted: leave it out",
    ),
    (
        (None, (0, 0), true),
        "--area-difference: that of a zone of UTM is computed: leave it out",
    ),
];

// A difference of areas.
const DIFFERENCE: Difference = Difference {
    is_less: false,
    hundredths: 1,
};

// What was typed in, with this beside it.
fn typed_with<'a>(clock: &'a Clock, beside: Beside) -> Words<'a> {
    let (system, shift, differs) = beside;
    let differences = if differs {
        Some(Differences {
            least: DIFFERENCE,
            most: DIFFERENCE,
        })
    } else {
        None
    };
    Words {
        system,
        shift,
        differences,
        ..typed(clock)
    }
}

// Why a folder is refused beside this; empty where it is not.
fn refusal_of_given(alloc: Global, given: &Given, beside: Beside) -> Result<String, AllocError> {
    let clock = Clock::utc();
    refusal_beside(alloc, given, &typed_with(&clock, beside))
}

// Why the folder is refused beside this; empty where it is not.
fn refusal_of_words(alloc: Global, beside: Beside) -> Result<String, AllocError> {
    let tracks = tracks(alloc, FIRST_TRACK, SECOND_TRACK)?;
    let given = Given {
        report: REPORT.as_bytes(),
        record: Some(RECORD.as_bytes()),
        boundary: Some(BOUNDARY.as_bytes()),
        tracks: Some(&tracks),
    };
    refusal_of_given(alloc, &given, beside)
}

#[test]
fn words_that_the_record_says_are_refused(rt: HostRuntime) {
    let alloc = rt.alloc();
    for (beside, words) in BESIDE_RECORD {
        assert!(rt; says(refusal_of_words(alloc, beside), words), "{words}");
    }
}

// Why the folder without its boundary is refused.
fn refusal_without_boundary(alloc: Global) -> Result<String, AllocError> {
    let tracks = tracks(alloc, FIRST_TRACK, SECOND_TRACK)?;
    let given = Given {
        report: REPORT.as_bytes(),
        record: Some(RECORD.as_bytes()),
        boundary: None,
        tracks: Some(&tracks),
    };
    refusal(alloc, &given)
}

#[test]
fn a_name_of_no_boundary_is_refused(rt: HostRuntime) {
    let words =
        "--boundary-name: the folder has no boundary.csv: put it there, or leave the name out";
    assert!(rt;
        says(refusal_without_boundary(rt.alloc()), words),
        "{words}"
    );
}

// Whether a refusal says this.
fn says(said: Result<String, AllocError>, words: &str) -> bool {
    match said {
        Ok(text) => text.as_str() == words,
        Err(AllocError) => false,
    }
}

// The first track with another second, and with another place.
const LATER: &str = "animal,second,easting,northing\n\
    a&b,1711929600,500100,5000100\n\
    a&b,1711951200,500300,5000100\n\
    a&b,1711972801,500300,5000400\n\
    a&b,1712016000,500150,5000350\n";

const SHORT: &str = "animal,second,easting,northing\n\
    a&b,1711929600,500100,5000100\n";

const UNUSED: &str = "animal,second,easting,northing,use\n\
    fox,1711929600,500200,5000200,0\n";

const STRANGE: &str = "animal,second,easting,northing\n\
    wolf,1711929600,500100,5000100\n";

const WRONG: &str = "animal,second,easting,northing\n\
    fox,1711929600,5e5,5000200\n";

#[test]
fn tracks_that_are_not_those_of_the_report_are_refused(rt: HostRuntime) {
    let alloc = rt.alloc();
    let words = "tracks/a&b.csv: its fixes have other rows than the report says: was it changed?";
    assert!(rt;
        says(refusal_of_tracks(alloc, LATER, SECOND_TRACK), words),
        "{words}"
    );
    let words = "tracks/a&b.csv: it has not as many fixes as the report: was it changed?";
    assert!(rt;
        says(refusal_of_tracks(alloc, SHORT, SECOND_TRACK), words),
        "{words}"
    );
    let words = "tracks: no file has the animal fox of the report";
    assert!(rt;
        says(refusal_of_tracks(alloc, FIRST_TRACK, UNUSED), words),
        "{words}"
    );
    let words = "tracks/fox.csv: the report has no animal wolf";
    assert!(rt;
        says(refusal_of_tracks(alloc, FIRST_TRACK, STRANGE), words),
        "{words}"
    );
    let words = "tracks/a&b.csv: another file has animal fox";
    assert!(rt;
        says(refusal_of_tracks(alloc, SECOND_TRACK, SECOND_TRACK), words),
        "{words}"
    );
    let words =
        "tracks/fox.csv: record 1: easting is not a whole number: no point, sign, space or exponent";
    assert!(rt;
        says(refusal_of_tracks(alloc, FIRST_TRACK, WRONG), words),
        "{words}"
    );
}

// A record of other numbers, and one that is cut off.
const OTHER: &[u8] = b"export,small.csv\n\
    sha256,3eb5a058608b0a1c0f04985d9c4183d9f922299fe43407c2235076f75afd56ae\n\
    unit,m\nzone,33N\n\
    track,a&b,4,4,c16d70cbe59c58c3c6f8813d549cf41a511609d5a3ef0b66f91dffba9a4a6dce\n\
    track,fox,3,2,6c719adaf1727d54c799c43eade8be523c3c69de318ea75e13568dc01a0f4118\n\
    tool,homerange-split 1.0.0 (logic dac8208d650f15bf)\n";

const CUT: &[u8] = b"export,small.csv\n";

#[test]
fn texts_that_are_not_right_are_refused(rt: HostRuntime) {
    let alloc = rt.alloc();
    let record = Some(RECORD.as_bytes());
    let words =
        "tracks/split.txt has 2 fixes of fox, and report.txt 3: was a track changed, or left out?";
    assert!(rt;
        says(
            refusal_of_texts(alloc, REPORT, Some(OTHER), BOUNDARY),
            words
        ),
        "{words}"
    );
    let words = "report.txt: line 1 is none that a report of homerange has there";
    assert!(rt;
        says(refusal_of_texts(alloc, "x\n", record, BOUNDARY), words),
        "{words}"
    );
    let words =
        "boundary.csv: line 2 is not ring,easting,northing of a ring from 1 on, in metres with three decimals";
    let boundary = "ring,easting,northing\n2,1.000,1.000\n";
    assert!(rt;
        says(refusal_of_texts(alloc, REPORT, record, boundary), words),
        "{words}"
    );
    let words =
        "tracks/split.txt: line 2: it is missing: the last line of a record says what made the tracks";
    assert!(rt;
        says(refusal_of_texts(alloc, REPORT, Some(CUT), BOUNDARY), words),
        "{words}"
    );
}

// A report with other words in the place of some.
fn report_with(alloc: Global, report: &str, old: &str, new: &str) -> Result<String, AllocError> {
    match report.split_once(old) {
        Some((before, behind)) => format!(in alloc; "{before}{new}{behind}"),
        None => Ok(String::new(alloc)),
    }
}

// Why the report alone is refused with other words in the place of some.
fn refusal_of_report(alloc: Global, old: &str, new: &str) -> Result<String, AllocError> {
    let report = report_with(alloc, REPORT, old, new)?;
    let given = Given {
        report: report.as_bytes(),
        record: None,
        boundary: Some(BOUNDARY.as_bytes()),
        tracks: None,
    };
    refusal(alloc, &given)
}

// Whether the report alone is refused for an animal with other words in the place of some.
fn is_odd(alloc: Global, old: &str, new: &str, animal: &str) -> bool {
    match refusal_of_report(alloc, old, new) {
        Ok(text) => text.as_str().strip_prefix("report.txt: animal ") == Some(animal),
        Err(AllocError) => false,
    }
}

#[test]
fn reports_whose_overlaps_or_boxes_are_odd_are_refused(rt: HostRuntime) {
    let alloc = rt.alloc();
    let words = "a&b: an overlap is not of its fixes";
    assert!(rt; is_odd(alloc, "fox,1,4", "fox,5,4", words), "{words}");
    let words = "fox: an overlap is not of its fixes";
    assert!(rt; is_odd(alloc, "a&b,1,3", "a&b,1,4", words), "{words}");
    let words = "fox: the corners are not of the box";
    assert!(rt;
        is_odd(alloc, "box,fox,500200", "box,fox,500100", words),
        "{words}"
    );
    let words = "fox: a corner lies where no fix may be";
    assert!(rt; is_odd(alloc, "2,500600", "2,16777217", words), "{words}");
}

#[test]
fn reports_whose_rows_or_levels_are_odd_are_refused(rt: HostRuntime) {
    let alloc = rt.alloc();
    let words = "fox: the corners are not of the last row";
    assert!(rt;
        is_odd(alloc, "1712059200,3,190000", "1712059200,3,190002", words),
        "{words}"
    );
    let words = "fox: seconds or areas fall";
    assert!(rt;
        is_odd(alloc, "fox,2,1711951200", "fox,2,1711929599", words),
        "{words}"
    );
    let words = "fox: it has more fixes, or greater seconds, than homerange takes";
    assert!(rt;
        is_odd(alloc, "fox,3,1712059200", "fox,3,1099511627777", words),
        "{words}"
    );
    let words = "fox: a percent polygon is none of these fixes";
    assert!(rt;
        is_odd(alloc, "fox,50,2,2,0", "fox,50,3,2,0", words),
        "{words}"
    );
    let words = "fox: it has other levels than the first";
    assert!(rt;
        is_odd(alloc, "fox,50,2,2,0", "fox,51,2,2,0", words),
        "{words}"
    );
}
