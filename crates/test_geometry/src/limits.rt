// Tests of points by themselves, of their order, and of the text of out of memory.

use range_plane::{COORDINATE_LIMIT, OutOfMemory, Point, Scale, rank};
use std::test::Fail;

#[test]
fn a_point_past_the_limits_is_none(rt: HostRuntime) {
    for (e, n) in [(-1, 0), (0, -1), (134_217_729, 0), (0, 134_217_729)] {
        assert!(rt; Point::new(e, n).is_none(), "{e} {n}");
    }
    for (e, n) in [(0, 16_777_217), (134_217_728, 0), (0, 134_217_728)] {
        assert!(rt; Point::new(e, n) == Some(Point { e, n }), "{e} {n}");
    }
}

#[test]
fn units_have_these_limits_and_names(rt: HostRuntime) -> Result<(), Fail> {
    assert_eq!(rt; Scale::Metre.limit(), 16_777_216);
    assert_eq!(rt; Scale::Decimetre.limit(), 134_217_728);
    for (unit, name) in [(Scale::Metre, "metres"), (Scale::Decimetre, "decimetres")] {
        let shown = format!(in rt.alloc(); "{unit}")?;
        assert!(rt; shown.as_str() == name);
    }
    Ok(())
}

#[test]
fn the_easting_comes_first_in_the_order(rt: HostRuntime) {
    let south = Point { e: 1, n: 0 };
    let north = Point {
        e: 0,
        n: COORDINATE_LIMIT,
    };
    assert!(rt; rank(north) < rank(south));
}

#[test]
fn out_of_memory_is_told_in_these_words(rt: HostRuntime) -> Result<(), Fail> {
    let text = format!(in rt.alloc(); "{OutOfMemory}")?;
    assert!(rt; text.as_str() == "out of memory");
    Ok(())
}
