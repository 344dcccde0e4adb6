// Tests of the way back from positions to places, against those that PROJ has.
//
// Places are of PROJ 9.1.1, by pyproj 3.4.1 and to twelve decimals:
//
//     from pyproj import Transformer
//     into = Transformer.from_crs("EPSG:4326", "EPSG:32633", always_xy=True)
//     print("%.12f,%.12f" % into.transform(562000, 5134000, direction="INVERSE"))

use crate::positions::{placed_in, zone_in};
use crate::proj::{BESIDE, EDGES, NORTH, SOUTH};
use split_projection::{place_of, project};
use std::num::nearest_i64_to_f64;
use std::process::Abort;
use std::test::Fail;

// How far a place may be from PROJ's in degrees.
const BILLIONTH: f64 = 0.000000001;

// In each line a zone, an easting and a northing in metres, and longitude and latitude in degrees: places in their zones, on
// their edges, at a pole and beside them.
const PLACES: &str = "\
33N,562000,5134000,15.805895320683,46.356735142457
33N,500000,0,15.000000000000,0.000000000000
33N,461234,5083456,14.500223510903,45.903579241853
1N,166034.098267,55341.388216,-179.999999999998,0.500000000004
60N,828928.736059,1106908.854243,180.000000000003,9.999999999999
18N,497082.483982,9328100.160735,-75.250000000037,84.000000000000
54N,381622.230039,3950298.907881,139.691699999995,35.689499999997
43N,715980.293739,3167204.819655,77.208999999998,28.613900000000
22N,464937.200988,7117661.095241,-51.721599999992,64.183499999996
31N,166021.443081,1,0.000000000004,0.000009034831
31N,500000,9997964.943,3.000000000000,89.999999999812
23S,687394.593291,7465634.127714,-43.172900000001,-22.906800000003
34S,261881,6243182,18.424093434858,-33.924903058765
56S,334368.6,6250948.3,151.209299627829,-33.868800403847
60S,313781,5427041,174.776195560315,-41.286606151647
20S,509692.7,1118372.5,-62.500002484845,-80.000000305270
1S,179712,8173373,179.999999341890,-16.500000395143
33S,500000,10000000,15.000000000000,0.000000000000
33S,416569.789369,10165809.744001,14.249999999996,1.499999999999
33N,416569.789369,-165809.744001,14.249999999996,-1.499999999999
33N,35435.9,5111576.7,9.000000482216,45.999999642330
33N,964564.1,5111576.7,20.999999517784,45.999999642330
33N,-112954.9,27761.2,9.500000243469,0.250000162156
33N,566992.9,9331439.9,20.749996358653,84.000000290509
33S,-27157.2,9445427.9,10.249999699063,-5.000000047383
60N,1444443.1,2236998.4,-174.000000163998,19.999999578952
1S,-762382.9,7742835.3,170.999999546330,-20.000000203912
31N,116429.4,6111268.1,-2.999999739011,55.000000281186
";

// Positions of no place: of no zone, no finite number, or off the earth. PROJ answers infinity at the eastings.
const NOWHERE: [(f64, f64, u8); 10] = [
    (500_000.0, 0.0, 0),
    (500_000.0, 0.0, 61),
    (f64::NAN, 0.0, 31),
    (500_000.0, f64::NAN, 31),
    (f64::INFINITY, 0.0, 31),
    (500_000.0, f64::NEG_INFINITY, 31),
    (17_230_000.0, 0.0, 31),
    (-16_235_000.0, 0.0, 31),
    (500_000.0, 40_000_000.0, 31),
    (500_000.0, -30_000_000.0, 31),
];

// A position in a zone, and the place there.
#[derive(Clone, Copy)]
struct Found {
    number: u8,
    is_south: bool,
    position: (f64, f64),
    place: (f64, f64),
}

// What a line of the list of places says.
fn found_in(line: &str) -> Option<Found> {
    let mut fields = line.split(',');
    let (number, is_south) = zone_in(fields.next()?)?;
    Some(Found {
        number,
        is_south,
        position: (fields.next()?.parse().ok()?, fields.next()?.parse().ok()?),
        place: (fields.next()?.parse().ok()?, fields.next()?.parse().ok()?),
    })
}

// Whether two longitudes are one but for turns.
fn is_same_longitude(one: f64, other: f64) -> bool {
    let apart = (one - other).abs();
    apart <= BILLIONTH || (apart - 360.0).abs() <= BILLIONTH
}

// Whether two places are one.
fn is_same(one: (f64, f64), other: (f64, f64)) -> bool {
    is_same_longitude(one.0, other.0) && (one.1 - other.1).abs() <= BILLIONTH
}

// Whether a position is that of the place that PROJ has there.
fn is_as_in_proj(found: &Found) -> bool {
    let (easting, northing) = found.position;
    match place_of(easting, northing, found.number, found.is_south) {
        Some(place) => is_same(place, found.place),
        None => false,
    }
}

// Trillionths of a degree in degrees.
fn in_degrees(trillionths: i64) -> f64 {
    nearest_i64_to_f64(trillionths) / 1_000_000_000_000.0
}

// Whether the way back from the position of a place leads to it.
fn comes_back(line: &str) -> Option<bool> {
    let placed = placed_in(line)?;
    let (easting, northing) = project(placed.at, placed.number, placed.is_south)?;
    let place = place_of(easting, northing, placed.number, placed.is_south)?;
    let own = (
        in_degrees(placed.at.longitude),
        in_degrees(placed.at.latitude),
    );
    Some(is_same(place, own))
}

// Fails where the way back from a place of a list leads to another.
fn expect_back(rt: &impl Abort, list: &str) {
    for line in list.lines() {
        assert!(rt; comes_back(line) == Some(true), "{line}");
    }
}

#[test]
fn places_are_where_proj_has_them(rt: HostRuntime) -> Result<(), Fail> {
    assert!(&rt; PLACES.lines().count() == 28, "28 places");
    for line in PLACES.lines() {
        let is_met = match found_in(line) {
            Some(found) => is_as_in_proj(&found),
            None => false,
        };
        assert!(&rt; is_met, "{line}");
    }
    Ok(())
}

#[test]
fn the_way_back_leads_to_the_place(rt: HostRuntime) -> Result<(), Fail> {
    expect_back(&rt, NORTH);
    expect_back(&rt, SOUTH);
    expect_back(&rt, BESIDE);
    expect_back(&rt, EDGES);
    Ok(())
}

#[test]
fn positions_of_no_place_have_none(rt: HostRuntime) -> Result<(), Fail> {
    for (easting, northing, number) in NOWHERE {
        for is_south in [false, true] {
            assert!(&rt;
                place_of(easting, northing, number, is_south).is_none(),
                "{easting}, {northing}, {number}, {is_south}"
            );
        }
    }
    Ok(())
}
