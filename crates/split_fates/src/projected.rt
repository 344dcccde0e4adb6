// The places of fixes, projected into a zone.

ghost use Rattle.std.specs.Prelude.{◌≡◌, map};
ghost use Rattle.split_fates.specs.Projected.{beside_place};

use crate::fates::reason_of;
use range_plane::Scale;
use split_projection::{Degrees, project, units_of};
use split_reading::{Row, Told, ToldFix, Zone};
use std::num::nearest_i64_to_f64;

// Metres in whole units of a grid, and how many metres these are from them.
#[derive(Clone, Copy)]
struct Rounded {
    easting: i64,
    northing: i64,
    moved: f64,
}

// How many metres some units are from these metres.
fn moved(units: i64, metres: f64, unit: Scale) -> f64 {
    let scale = match unit {
        Scale::Metre => 1.0,
        Scale::Decimetre => 10.0,
    };
    nearest_i64_to_f64(units) / scale - metres
}

/// By how many metres a fix moves that is so many metres east and north and gets these whole units.
pub fn metres_moved(units: (i64, i64), metres: (f64, f64), unit: Scale) -> f64 {
    let east = moved(units.0, metres.0, unit);
    let north = moved(units.1, metres.1, unit);
    (east * east + north * north).sqrt()
}

// Longitude and latitude in a zone, in whole units; none where there are none, or they have no place in it.
fn place_in(degrees: Option<(i64, i64)>, zone: Zone, unit: Scale) -> Option<Rounded> {
    let (longitude, latitude) = degrees?;
    let at = Degrees {
        longitude,
        latitude,
    };
    let (east, north) = project(at, zone.number, zone.is_south)?;
    let easting = units_of(east, unit)?;
    let northing = units_of(north, unit)?;
    Some(Rounded {
        easting,
        northing,
        moved: metres_moved((easting, northing), (east, north), unit),
    })
}

// A row whose fix has these metres in a zone.
fn placed_row(row: &Row, place: Option<Rounded>, zone: Zone) -> Row
    ensures { beside_place result ≡ beside_place row.now }
{
    let told = match row.told {
        Told::Fix(fix) => Told::Fix(ToldFix {
            metres: place.map(|place| (place.easting, place.northing)),
            zone: Some(zone),
            ..fix
        }),
        Told::LeftOut(reason) => Told::LeftOut(reason),
    };
    Row { told, ..*row }
}

// The longitude and the latitude of a row, and whether its fix is kept.
fn degrees_of(row: &Row, keeps_marks: bool) -> (Option<(i64, i64)>, bool) {
    match row.told {
        Told::Fix(fix) => (fix.degrees, reason_of(keeps_marks, fix).is_none()),
        Told::LeftOut(_) => (None, false),
    }
}

/// Gives the fix of each record the metres of its longitude and latitude in a zone, in whole units, where it has a place there,
/// and this zone. Answers by how many metres rounding moves a fix at most, of those that no filter leaves out and that are used,
/// or also of others.
pub fn project_rows(rows: &mut [Row], zone: Zone, unit: Scale, keeps_marks: bool) -> f64
    ensures { map beside_place rows.new ≡ map beside_place rows.old }
{
    let mut most = 0.0;
    for row in rows.iter_mut() {
        let (degrees, is_kept) = degrees_of(row, keeps_marks);
        let place = place_in(degrees, zone, unit);
        let moved = match place {
            Some(place) if is_kept => place.moved,
            _ => 0.0,
        };
        if moved > most {
            most = moved;
        }
        *row = placed_row(row, place, zone);
    }
    most
}
