// From an easting and a northing back to longitude and latitude.

ghost use Rattle.std.specs.Prelude.{IfSome};
ghost use Rattle.split_projection.specs.Place.{IsZone};

use crate::ellipsoid::{MERIDIAN_RADIUS, RADIUS};
use crate::place::meridian;
use crate::projection::{EASTING_LIMIT, FALSE_EASTING, FALSE_NORTHING, SCALE, TRILLION};
use crate::series::Complex;
use crate::transverse::place_of_position;
use crate::zone::ZONES;
use std::f64::consts::PI;
use std::num::nearest_i64_to_f64;

// The position in the projection of an easting and a northing in metres.
fn position_at(easting: f64, northing: f64, is_south: bool) -> Complex {
    let radius = RADIUS * (SCALE * MERIDIAN_RADIUS);
    let origin = if is_south { FALSE_NORTHING } else { 0.0 };
    Complex {
        real: (northing - origin) / radius,
        imaginary: (easting - FALSE_EASTING) / radius,
    }
}

// Whether a position is one of a place on the earth: at most half a turn along the central meridian, and so far from it as
// places are projected. One that is no number is none.
fn is_on_earth(position: Complex) -> bool {
    position.real.abs() <= PI && position.imaginary.abs() <= EASTING_LIMIT
}

// A longitude in degrees, less or more by a turn where it is past half of one.
fn within_a_turn(longitude: f64) -> f64 {
    if longitude > 180.0 {
        longitude - 360.0
    } else if longitude < -180.0 {
        longitude + 360.0
    } else {
        longitude
    }
}

/// The longitude and the latitude in degrees, on the ellipsoid of WGS 84, of an easting and a northing in metres in the zone of
/// UTM of this number, of the south or of the north: by Krueger's series to the sixth power of the third flattening, summed by
/// Clenshaw's recurrence (Krueger 1912, Engsager and Poder 2007), as PROJ has it. Longitudes go from -180 to 180.
///
/// `None` where there is no zone of this number, an easting or a northing is no finite number, the easting is farther from the
/// central meridian than 2.623395162778 radii, some 16,700 km, or the northing is past half a turn of that meridian from the
/// equator, some 20,000 km. As [`project`](crate::project) does, the series converges badly near the equator and a quarter of a
/// turn from that meridian.
pub fn place_of(easting: f64, northing: f64, number: u8, is_south: bool) -> Option<(f64, f64)>
    ensures zone { IfSome result (λ _. IsZone number) }
{
    let position = position_at(easting, northing, is_south);
    if number < 1 || number > ZONES || !is_on_earth(position) {
        return None;
    }
    let (east, latitude) = place_of_position(position);
    let longitude = nearest_i64_to_f64(meridian(number)) / TRILLION + east.to_degrees();
    Some((within_a_turn(longitude), latitude.to_degrees()))
}
