// Where a place lies, seen from the central meridian of a zone.

ghost use Rattle.std.specs.Prelude.{◌-ℤ◌, ◌^◌, ◌≡◌, true};
ghost use Rattle.split_projection.specs.Place.{IsLongitude, IsMeridian, IsPlace, IsWithin, IsZone, meridian, wrapped};

use crate::degrees::{DEGREE, Degrees, HALF_TURN, TURN};
use crate::zone::ZONE_WIDTH;

// The greatest latitude that is taken, in trillionths of a degree: 10^-12 radians past a pole.
const LATITUDE_LIMIT: i64 = 90_000_000_000_057;

// The greatest longitude that is taken: ten radians.
const LONGITUDE_LIMIT: i64 = 572_957_795_130_823;

/// Whether a place is one on the earth: its latitude and its longitude are within the limits.
pub(crate) fn is_place(at: Degrees) -> bool
    ensures { result ≡ true → IsPlace at }
{
    -LATITUDE_LIMIT <= at.latitude
        && at.latitude <= LATITUDE_LIMIT
        && -LONGITUDE_LIMIT <= at.longitude
        && at.longitude <= LONGITUDE_LIMIT
}

/// The longitude of a zone's central meridian.
pub(crate) fn meridian(number: u8) -> i64
    requires { IsZone number }
    ensures value { result ≡ meridian number }
    ensures within { IsMeridian result }
{
    i64::from(number) * ZONE_WIDTH - 183 * DEGREE
}

// An angle less whole turns, from half a turn west to below half a turn east.
fn wrapped(angle: i64) -> i64
    requires { IsWithin (10 ^ 15) angle }
    ensures { result ≡ wrapped angle }
{
    let shifted = (angle + HALF_TURN).rem_euclid(TURN);
    shifted - HALF_TURN
}

/// How far a longitude lies east of a zone's central meridian, in trillionths of a degree.
pub(crate) fn east_of_meridian(longitude: i64, number: u8) -> i64
    requires longitude { IsLongitude longitude }
    requires zone { IsZone number }
    ensures { result ≡ wrapped (longitude -ℤ meridian number) }
{
    wrapped(longitude - meridian(number))
}
