// What stands beside the maps. Differences are those of the definition in 50 digits, on both sides of where the rounded one changes.

use page_ground::{Difference, Differences, difference_of_utm, push_ground, push_system};
use page_map::Maps;
use page_record::Zone;
use std::alloc::{AllocError, Global};

// Whether areas at a distance from the middle of a zone, in halves of a millimetre, differ by so many hundredths of a per cent.
fn differ(distance: u64, is_less: bool, hundredths: u32) -> bool {
    difference_of_utm(distance)
        == Some(Difference {
            is_less,
            hundredths,
        })
}

#[test]
fn areas_of_utm_are_less_in_the_middle_and_more_at_the_sides(rt: HostRuntime) {
    assert!(rt; differ(0, true, 8), "in the middle");
    assert!(rt; differ(89_954_647, true, 8), "45 km from it");
    assert!(rt; differ(89_954_648, true, 7), "a little farther");
    assert!(rt; differ(360_000_000, false, 0), "180 km from it");
    assert!(rt; differ(371_402_857, false, 0), "186 km from it");
    assert!(rt; differ(371_402_858, false, 1), "a little farther");
    assert!(rt; differ(998_218_500, false, 53), "499 km from it");
    assert!(rt; differ(998_218_501, false, 54), "a little farther");
    assert!(rt; differ(1_996_400_067, false, 239), "998 km from it");
    assert!(rt; differ(1_996_400_068, false, 240), "a little farther");
    assert!(rt;
        difference_of_utm(2_000_000_000).is_some(),
        "1,000 km from it"
    );
    assert!(rt;
        difference_of_utm(2_000_000_001).is_none(),
        "farther from it"
    );
}

// The reference system, as it is written.
fn system(alloc: Global, zone: Option<Zone>, words: Option<&[u8]>) -> Result<Vec<u8>, AllocError> {
    let mut text = Vec::new(alloc);
    push_system(&mut text, zone, words)?;
    Ok(text)
}

// Whether a text is this.
fn is(text: Result<Vec<u8>, AllocError>, words: &[u8]) -> bool {
    match text {
        Ok(text) => text.as_slice() == words,
        Err(AllocError) => false,
    }
}

#[test]
fn systems_are_written_by_code_and_name(rt: HostRuntime) {
    let alloc = rt.alloc();
    let north = Zone {
        number: 33,
        is_south: false,
    };
    let south = Zone {
        number: 5,
        is_south: true,
    };
    let words = b"EPSG:32633 (WGS 84 / UTM zone 33N)";
    assert!(rt;
        is(system(alloc, Some(north), Some(b"x")), words),
        "zone 33N"
    );
    let words = b"EPSG:32705 (WGS 84 / UTM zone 5S)";
    assert!(rt; is(system(alloc, Some(south), None), words), "zone 5S");
    assert!(rt;
        is(system(alloc, None, Some(b"EPSG:3035")), b"EPSG:3035"),
        "another system"
    );
    let words = b"reference system not known";
    assert!(rt; is(system(alloc, None, None), words), "no system");
}

// What is said below a map on which so many animals are too small to be seen.
fn ground(
    alloc: Global,
    differences: Option<Differences>,
    unseen: u32,
    has_boundary: bool,
) -> Result<Vec<u8>, AllocError> {
    let numbers: Vec<u32> = (1..unseen.saturating_add(1)).collect(alloc)?;
    let maps = Maps {
        drawings: Vec::new(alloc),
        unseen: numbers,
        has_boundary: false,
    };
    let mut text = Vec::new(alloc);
    push_ground(&mut text, differences, &maps, true, has_boundary)?;
    Ok(text)
}

const ALL: &[u8] =
    b"The grid is in metres. Areas on the grid differ from those on the ellipsoid by -0.08 to +1.20 % here. Dots are fixes; of \
    those that would cover each other one is drawn. The boundary lies outside this map. Too small to be seen beside the others: 1, 2.";

const NOTHING: &[u8] =
    b"The grid is in metres. How areas on this grid differ from those on the ellipsoid is not known. Dots are fixes; of \
    those that would cover each other one is drawn.";

const MANY: &[u8] =
    b"The grid is in metres. Areas on the grid differ from those on the ellipsoid by 0.00 % here. Dots are fixes; of \
    those that would cover each other one is drawn. Too small to be seen beside the others: 1, 2, 3, 4, 5, 6, 7, 8, 9, 10, 11, 12, \
    13, 14, 15, 16, 17, 18, 19, 20, ...";

#[test]
fn below_the_map_stands_what_is_not_seen_on_it(rt: HostRuntime) {
    let alloc = rt.alloc();
    let least = Difference {
        is_less: true,
        hundredths: 8,
    };
    let none = Difference {
        is_less: false,
        hundredths: 0,
    };
    let most = Difference {
        is_less: false,
        hundredths: 120,
    };
    let some = Some(Differences { least, most });
    assert!(rt;
        is(ground(alloc, some, 2, true), ALL),
        "all that may be said"
    );
    assert!(rt;
        is(ground(alloc, None, 0, false), NOTHING),
        "nothing but the grid and dots"
    );
    let same = Some(Differences {
        least: none,
        most: none,
    });
    assert!(rt;
        is(ground(alloc, same, 21, false), MANY),
        "more than twenty"
    );
}
