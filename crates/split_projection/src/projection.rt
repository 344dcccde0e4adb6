// From longitude and latitude to an easting and a northing.

ghost use Rattle.std.specs.Prelude.{IfSome};
ghost use Rattle.split_projection.specs.Place.{IsPlace, IsZone};

use crate::degrees::{DEGREE, Degrees};
use crate::ellipsoid::{MERIDIAN_RADIUS, RADIUS};
use crate::place::{east_of_meridian, is_place};
use crate::series::Complex;
use crate::transverse::position_of;
use crate::zone::ZONES;
use std::f64::consts::PI;
use std::num::nearest_i64_to_f64;

// The latitude of the north pole.
const POLE: i64 = 90 * DEGREE;

/// How many trillionths a degree has.
pub(crate) const TRILLION: f64 = 1_000_000_000_000.0;

/// How far from the central meridian a position may be, in radii of the sphere: some 16,700 km.
pub(crate) const EASTING_LIMIT: f64 = 2.623395162778;

/// The scale of lengths on the central meridian.
pub(crate) const SCALE: f64 = 0.9996;

/// The easting of the central meridian in metres.
pub(crate) const FALSE_EASTING: f64 = 500_000.0;

/// The northing of the equator in zones of the south, in metres.
pub(crate) const FALSE_NORTHING: f64 = 10_000_000.0;

// Trillionths of a degree in radians.
fn radians(degrees: i64) -> f64 {
    nearest_i64_to_f64(degrees) / TRILLION * (PI / 180.0)
}

// The easting and the northing in metres of a position in the projection.
fn metres_of(position: Complex, is_south: bool) -> (f64, f64) {
    let scale = SCALE * MERIDIAN_RADIUS;
    let easting = RADIUS * (scale * position.imaginary) + FALSE_EASTING;
    let northing = RADIUS * (scale * position.real);
    if is_south {
        (easting, northing + FALSE_NORTHING)
    } else {
        (easting, northing)
    }
}

/// The easting and the northing in metres of a place on the ellipsoid of WGS 84, in the zone of UTM of this number, of the
/// south or of the north: by Krueger's series to the sixth power of the third flattening, summed by Clenshaw's recurrence
/// (Krueger 1912, Engsager and Poder 2007), as PROJ has it.
///
/// `None` where PROJ has no position either: there is no zone of this number, the latitude is past a pole by more than 10^-12
/// radians, the longitude is past ten radians, or the place is so far from the zone's central meridian that its easting would
/// be past 2.623395162778 radii, some 16,700 km. A latitude that is past a pole by less is the pole's, and longitudes are the
/// same after a turn. The series is off by at most 5 nanometres up to 3,900 km from the central meridian (Karney 2011). Near
/// the equator and a quarter of a turn from that meridian it does not converge, and positions are of no use, as PROJ's are.
pub fn project(at: Degrees, number: u8, is_south: bool) -> Option<(f64, f64)>
    ensures place { IfSome result (λ _. IsPlace at) }
    ensures zone { IfSome result (λ _. IsZone number) }
{
    if number < 1 || number > ZONES || !is_place(at) {
        return None;
    }
    let latitude = radians(at.latitude.clamp(-POLE, POLE));
    let east = radians(east_of_meridian(at.longitude, number));
    let position = position_of(latitude, east);
    if position.imaginary.abs() <= EASTING_LIMIT {
        Some(metres_of(position, is_south))
    } else {
        None
    }
}
