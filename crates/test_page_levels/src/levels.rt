// Tests of what the map draws of an animal. Rows and polygons come from the package for Python: `polygon_kept` of
// `homerange.ranges.outer` and `polygon_of` of `homerange.report`.

use page_levels::{Drawn, LevelFault, levels_of};
use page_report::read_report;
use range_fixes::ReadFault;
use range_plane::{Point, Scale};
use std::alloc::{AllocError, Global};

const TRACK: &str =
    "animal,second,easting,northing\nfox,10,100,200\nfox,20,130,240\nfox,30,90,260\nfox,40,110,230\nfox,50,105,225\n\
    fox,60,105,225\nfox,70,400,230\nfox,80,100,210\nfox,90,120,100\nfox,100,112,228\n";

const REPORT: &str =
    "animal,fox,fixes,10\nbox,fox,90,100,400,260\nrow,fox,1,10,1,0\nrow,fox,2,20,2,0\nrow,fox,3,30,3,2200\n\
    row,fox,4,40,3,2200\nrow,fox,5,50,3,2200\nrow,fox,6,60,3,2200\nrow,fox,7,70,3,18300\nrow,fox,8,80,3,18300\n\
    row,fox,9,90,4,48900\nrow,fox,10,100,4,48900\ncorner,fox,1,90,260\ncorner,fox,2,100,200\ncorner,fox,3,120,100\n\
    corner,fox,4,400,230\npercent,fox,95,10,4,48900\npercent,fox,80,8,3,2200\npercent,fox,50,5,4,80\nend,1\n";

const FIXES: [(i64, i64); 10] = [
    (100, 200),
    (130, 240),
    (90, 260),
    (110, 230),
    (105, 225),
    (105, 225),
    (400, 230),
    (100, 210),
    (120, 100),
    (112, 228),
];

const LEVELS: [u8; 4] = [100, 80, 50, 5];

const POLYGONS: [&[(i64, i64)]; 4] = [
    &[(90, 260), (100, 200), (120, 100), (400, 230)],
    &[(90, 260), (100, 200), (130, 240)],
    &[(105, 225), (112, 228), (130, 240), (110, 230)],
    &[(130, 240)],
];

// What stands in the track or the report, another text for it, and why the track is refused then.
const CHANGED: [(&str, &str, LevelFault); 9] = [
    (
        "fox,20,130,240\n",
        "fox,20,130,x\n",
        LevelFault::Unread(ReadFault::NotNumber { rec: 2, field: 3 }),
    ),
    ("fox,100,112,228\n", "", LevelFault::OtherCount),
    ("box,fox,90,100,", "box,fox,90,99,", LevelFault::OtherExtent),
    ("fox,20,130,240\n", "fox,21,130,240\n", LevelFault::OtherRow),
    (
        "row,fox,3,30,3,2200\n",
        "row,fox,3,30,3,2199\n",
        LevelFault::OtherRow,
    ),
    (
        "corner,fox,2,100,200\n",
        "corner,fox,2,100,201\n",
        LevelFault::OtherCorner,
    ),
    (
        "percent,fox,80,8,3,2200\n",
        "percent,fox,80,7,3,2200\n",
        LevelFault::OtherPercent { level: 80 },
    ),
    (
        "percent,fox,80,8,3,2200\n",
        "percent,fox,80,8,4,2200\n",
        LevelFault::OtherPercent { level: 80 },
    ),
    (
        "percent,fox,50,5,4,80\n",
        "percent,fox,50,5,4,81\n",
        LevelFault::OtherPercent { level: 50 },
    ),
];

// A square, whose corners lie as far from the middle as each other.
const SQUARE: &str =
    "animal,second,easting,northing\nowl,1,10,10\nowl,2,14,10\nowl,3,14,14\nowl,4,10,14\n";

const SQUARE_REPORT: &str =
    "animal,owl,fixes,4\nbox,owl,10,10,14,14\nrow,owl,1,1,1,0\nrow,owl,2,2,2,0\nrow,owl,3,3,3,16\n\
    row,owl,4,4,4,32\ncorner,owl,1,10,10\ncorner,owl,2,14,10\ncorner,owl,3,14,14\ncorner,owl,4,10,14\nend,1\n";

// What is drawn of the one animal of a report.
fn drawn(alloc: Global, track: &str, report: &str, levels: &[u8]) -> Result<Drawn, LevelFault> {
    let Ok(report) = read_report(alloc, report.as_bytes()) else {
        return Err(LevelFault::OutOfMemory);
    };
    match report.animals.first() {
        Some(animal) => levels_of(alloc, track.as_bytes(), Scale::Metre, animal, levels),
        None => Err(LevelFault::OutOfMemory),
    }
}

// A text with another stretch in place of one that it has once.
fn changed(alloc: Global, text: &str, old: &str, new: &str) -> Result<String, AllocError> {
    let mut other = String::new(alloc);
    match text.split_once(old) {
        Some((before, behind)) => {
            other.push_str(before)?;
            other.push_str(new)?;
            other.push_str(behind)?;
        }
        None => other.push_str(text)?,
    }
    Ok(other)
}

// What is drawn where this stands in place of that in the track and in the report.
fn drawn_changed(alloc: Global, old: &str, new: &str) -> Result<Drawn, LevelFault> {
    let track = changed(alloc, TRACK, old, new)?;
    let report = changed(alloc, REPORT, old, new)?;
    drawn(alloc, track.as_str(), report.as_str(), &LEVELS)
}

// Whether points are at these places.
fn are_at(points: &[Point], places: &[(i64, i64)]) -> bool {
    points
        .iter()
        .map(|point| (point.e, point.n))
        .eq(places.iter().copied())
}

#[test]
fn levels_keep_the_nearest_and_their_corners_are_those_of_the_package(rt: HostRuntime) {
    let Ok(drawn) = drawn(rt.alloc(), TRACK, REPORT, &LEVELS) else {
        assert!(rt; false, "it is drawn");
        return;
    };
    assert!(rt; are_at(&drawn.fixes, &FIXES), "fixes");
    assert!(rt;
        drawn.polygons.len() == POLYGONS.len(),
        "a polygon for each level"
    );
    for (polygon, corners) in drawn.polygons.iter().zip(POLYGONS) {
        assert!(rt; are_at(polygon, corners), "corners");
    }
}

#[test]
fn of_fixes_as_near_as_each_other_the_earlier_are_kept(rt: HostRuntime) {
    let Ok(drawn) = drawn(rt.alloc(), SQUARE, SQUARE_REPORT, &[75, 50]) else {
        assert!(rt; false, "it is drawn");
        return;
    };
    let [three, two] = drawn.polygons.as_slice() else {
        assert!(rt; false, "it has two polygons");
        return;
    };
    assert!(rt; are_at(three, &[(10, 10), (14, 10), (14, 14)]), "three");
    assert!(rt; are_at(two, &[(10, 10), (14, 10)]), "two");
}

#[test]
fn another_track_is_refused(rt: HostRuntime) {
    for (old, new, expected) in CHANGED {
        let fault = drawn_changed(rt.alloc(), old, new).err();
        assert!(rt; fault == Some(expected), "{old}");
    }
    let fault = drawn(rt.alloc(), SQUARE, REPORT, &LEVELS).err();
    assert!(rt; fault == Some(LevelFault::OtherAnimal), "another animal");
}
