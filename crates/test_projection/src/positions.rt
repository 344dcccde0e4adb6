// Tests of positions, against those that PROJ has. tools/tests/projection.py compares a million more.

use crate::proj::{BESIDE, EDGES, FAR, NORTH, NOWHERE, POLES, SOUTH, TURNS};
use split_projection::{Degrees, project};
use std::process::Abort;
use std::test::Fail;

// How far a position may be from PROJ's in metres.
const MILLIMETRE: f64 = 0.001;

// A place in a zone, and where PROJ has it there.
#[derive(Clone, Copy)]
pub(crate) struct Placed {
    pub at: Degrees,
    pub number: u8,
    pub is_south: bool,
    easting: f64,
    northing: f64,
}

// The position of a place in a zone.
fn position(longitude: i64, latitude: i64, number: u8, is_south: bool) -> Option<(f64, f64)> {
    let at = Degrees {
        longitude,
        latitude,
    };
    project(at, number, is_south)
}

// The number of a zone as `33N`, and whether it is of the south.
pub(crate) fn zone_in(text: &str) -> Option<(u8, bool)> {
    match text.strip_suffix('S') {
        Some(number) => Some((number.parse().ok()?, true)),
        None => Some((text.strip_suffix('N')?.parse().ok()?, false)),
    }
}

// What a line of a list says.
pub(crate) fn placed_in(line: &str) -> Option<Placed> {
    let mut fields = line.split(',');
    let at = Degrees {
        longitude: fields.next()?.parse().ok()?,
        latitude: fields.next()?.parse().ok()?,
    };
    let (number, is_south) = zone_in(fields.next()?)?;
    Some(Placed {
        at,
        number,
        is_south,
        easting: fields.next()?.parse().ok()?,
        northing: fields.next()?.parse().ok()?,
    })
}

// Whether a place has the position that it has in PROJ.
fn is_as_in_proj(placed: &Placed) -> bool {
    match project(placed.at, placed.number, placed.is_south) {
        Some((easting, northing)) => {
            (easting - placed.easting).abs() <= MILLIMETRE
                && (northing - placed.northing).abs() <= MILLIMETRE
        }
        None => false,
    }
}

// Fails where a place of a list has another position than in PROJ, or where there are not so many.
fn expect_as_in_proj(rt: &impl Abort, list: &str, count: usize) {
    assert!(rt; list.lines().count() == count, "{count} places");
    for line in list.lines() {
        let is_met = match placed_in(line) {
            Some(placed) => is_as_in_proj(&placed),
            None => false,
        };
        assert!(rt; is_met, "{line}");
    }
}

#[test]
fn places_of_the_north_are_where_proj_has_them(rt: HostRuntime) -> Result<(), Fail> {
    expect_as_in_proj(&rt, NORTH, 16);
    Ok(())
}

#[test]
fn places_of_the_south_are_where_proj_has_them(rt: HostRuntime) -> Result<(), Fail> {
    expect_as_in_proj(&rt, SOUTH, 15);
    Ok(())
}

#[test]
fn places_beside_a_zone_are_where_proj_has_them(rt: HostRuntime) -> Result<(), Fail> {
    expect_as_in_proj(&rt, BESIDE, 12);
    Ok(())
}

#[test]
fn places_on_edges_are_where_proj_has_them(rt: HostRuntime) -> Result<(), Fail> {
    expect_as_in_proj(&rt, EDGES, 12);
    Ok(())
}

#[test]
fn places_past_a_turn_are_where_proj_has_them(rt: HostRuntime) -> Result<(), Fail> {
    expect_as_in_proj(&rt, TURNS, 8);
    Ok(())
}

#[test]
fn poles_are_where_proj_has_them(rt: HostRuntime) -> Result<(), Fail> {
    expect_as_in_proj(&rt, POLES, 9);
    Ok(())
}

#[test]
fn far_places_are_where_proj_has_them(rt: HostRuntime) -> Result<(), Fail> {
    expect_as_in_proj(&rt, FAR, 15);
    Ok(())
}

#[test]
fn places_that_proj_does_not_have_have_no_position(rt: HostRuntime) -> Result<(), Fail> {
    for (longitude, latitude, number, is_south) in NOWHERE {
        assert!(&rt;
            position(longitude, latitude, number, is_south).is_none(),
            "{longitude}, {latitude}, {number}, {is_south}"
        );
    }
    Ok(())
}

#[test]
fn the_greatest_numbers_are_no_places(rt: HostRuntime) -> Result<(), Fail> {
    for number in [i64::MIN, i64::MAX] {
        for (longitude, latitude) in [(number, 0), (0, number), (number, number)] {
            assert!(&rt;
                position(longitude, latitude, 31, false).is_none(),
                "{longitude}, {latitude}"
            );
        }
    }
    Ok(())
}

#[test]
fn there_are_sixty_zones(rt: HostRuntime) -> Result<(), Fail> {
    for number in 0..=u8::MAX {
        let meridian = (i64::from(number) * 6 - 183) * 1_000_000_000_000;
        let is_zone = 1 <= number && number <= 60;
        for is_south in [false, true] {
            assert!(&rt;
                position(meridian, 0, number, is_south).is_some() == is_zone,
                "{number}, {is_south}"
            );
        }
    }
    Ok(())
}
